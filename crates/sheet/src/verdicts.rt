// The values that the fields of a line stand for, or the first of the faults that a form allows.
ghost use Rattle.std.specs.Prelude.{◌≡◌, map};
ghost use Rattle.tokens.specs.Views.{part_of};
ghost use Rattle.sheet.specs.Verdicts.{grid_of, array_of, head_of, put_of, read_of};
ghost use Rattle.sheet.specs.Answered.{field_verdict, sheet_verdict};
ghost use Rattle.sheet.specs.Heads.{headed};

use crate::heading::Heading;
use crate::rules::{AccessFields, access, map_word, mode, range_from, ranged, subscript, variable};
use nest::fault::{FieldFault, NestFault, SheetFault};
use nest::terms::{Access, Array, Grid, ReadTerm, Variable};
use tokens::part::Token;

pub(crate) fn grid_of(fields: [Token; 2]) -> Result<Grid, SheetFault>
    ensures { sheet_verdict (λ v. v) result ≡ grid_of (map part_of fields.entry) }
{
    let [rows, columns] = fields;
    let grid = Grid {
        rows: ranged(rows, 1, 8)?,
        columns: ranged(columns, 1, 8)?,
    };
    if grid.rows * grid.columns > 8 {
        return Err(NestFault::TooManyBoards(rows.part().place).into());
    }
    Ok(grid)
}

pub(crate) fn array_of(fields: [Token; 4]) -> Result<Array, FieldFault>
    ensures { field_verdict result ≡ array_of (map part_of fields.entry) }
{
    let [rows, columns, row_map, column_map] = fields;
    Ok(Array {
        rows: ranged(rows, 1, 32)?,
        columns: ranged(columns, 1, 32)?,
        row_map: map_word(row_map)?,
        column_map: map_word(column_map)?,
    })
}

pub(crate) fn heading_of(fields: [Token; 5]) -> Result<Heading, SheetFault>
    ensures { sheet_verdict headed result ≡ head_of (map part_of fields.entry) }
{
    let [word, i_low, i_high, j_low, j_high] = fields;
    let i_from = ranged(i_low, 1, 32)?;
    let i_to = ranged(i_high, 1, 32)?;
    let j_from = ranged(j_low, 1, 32)?;
    let j_to = ranged(j_high, 1, 32)?;
    Ok(Heading {
        i: range_from(i_low, i_from, i_to)?,
        j: range_from(j_low, j_from, j_to)?,
        mode: mode(word),
    })
}

pub(crate) fn put_of(
    arrays: &[Array],
    heading: Heading,
    fields: [Token; 5],
) -> Result<Access, SheetFault>
    ensures { sheet_verdict (λ v. v) result ≡ put_of arrays.now (headed heading) (map part_of fields.entry) }
{
    let [array, row_factor, row_offset, column_factor, column_offset] = fields;
    let named = AccessFields {
        array,
        number: ranged(array, 1, 4)?,
        row_factor,
        row: subscript(1, Variable::I, row_factor, row_offset)?,
        column_factor,
        column: subscript(1, Variable::J, column_factor, column_offset)?,
    };
    Ok(access(arrays, heading, named)?)
}

pub(crate) fn read_of(
    arrays: &[Array],
    heading: Heading,
    fields: [Token; 8],
) -> Result<ReadTerm, SheetFault>
    ensures { sheet_verdict (λ v. v) result ≡ read_of arrays.now (headed heading) (map part_of fields.entry) }
{
    let [
        coefficient,
        array,
        row_variable,
        row_factor,
        row_offset,
        column_variable,
        column_factor,
        column_offset,
    ] = fields;
    let coefficient = ranged(coefficient, 0, 7)?;
    let named = AccessFields {
        array,
        number: ranged(array, 1, 4)?,
        row_factor,
        row: subscript(0, variable(row_variable), row_factor, row_offset)?,
        column_factor,
        column: subscript(0, variable(column_variable), column_factor, column_offset)?,
    };
    Ok(ReadTerm {
        coefficient,
        source: access(arrays, heading, named)?,
    })
}
