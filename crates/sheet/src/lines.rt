// The lines of a sheet, one after the other.
ghost use Rattle.std.specs.Prelude.{◌≡◌, ℕ, false, List, [], ◌∷◌, map, vec_items, codes};
ghost use Rattle.tokens.specs.declared.extent.FieldKind.TheVariants.{Number};
ghost use Rattle.tokens.specs.Views.{before};
ghost use Rattle.sheet.specs.Forms.{grid_form, array_form, stmt_form, put_form, read_form};
ghost use Rattle.sheet.specs.Verdicts.{grid_of, array_of, head_of, put_of, read_of, count_of};
ghost use Rattle.sheet.specs.Answered.{lost, sheet_answer};
ghost use Rattle.sheet.specs.Lines.{line_by, times, statement_of};
ghost use Rattle.sheet.specs.Heads.{headed};
ghost use Rattle.nest.specs.Views.{said, said_all};

use crate::forms::read_fields;
use crate::heading::Heading;
use crate::rules::ranged;
use crate::times::times;
use crate::verdicts::{array_of, grid_of, heading_of, put_of, read_of};
use nest::fault::SheetFault;
use nest::terms::{Access, Array, Grid, ReadTerm, Statement};
use std::alloc::Global;
use tokens::cursor::Cursor;
use tokens::extent::FieldKind::{Map, Mode, Number, Signed, Variable};

// A line with one number, from low to high.
pub(crate) fn count_line(
    cursor: &mut Cursor,
    key: &[u8],
    low: usize,
    high: usize,
) -> Result<usize, SheetFault>
    ensures { sheet_answer (λ v. v) result cursor.new ≡ line_by (record { key = key.entry.now; kinds = Number ∷ [] }) (count_of low high) (before cursor.old) }
{
    let mut fields = [cursor.key(key)?];
    read_fields(cursor, &[Number], &mut fields)?;
    Ok(ranged(fields[0], low, high)?)
}

pub(crate) fn grid_line(cursor: &mut Cursor) -> Result<Grid, SheetFault>
    ensures { sheet_answer (λ v. v) result cursor.new ≡ line_by grid_form grid_of (before cursor.old) }
{
    let mut fields = [cursor.key(b"grid")?; 2];
    read_fields(cursor, &[Number, Number], &mut fields)?;
    grid_of(fields)
}

fn array_line(cursor: &mut Cursor) -> Result<Array, SheetFault>
    ensures { sheet_answer (λ v. v) result cursor.new ≡ line_by array_form array_of (before cursor.old) }
{
    let mut fields = [cursor.key(b"array")?; 4];
    read_fields(cursor, &[Number, Number, Map, Map], &mut fields)?;
    Ok(array_of(fields)?)
}

fn heading_line(cursor: &mut Cursor) -> Result<Heading, SheetFault>
    ensures { sheet_answer headed result cursor.new ≡ line_by stmt_form head_of (before cursor.old) }
{
    let mut fields = [cursor.key(b"stmt")?; 5];
    let kinds = [Mode, Number, Number, Number, Number];
    read_fields(cursor, &kinds, &mut fields)?;
    heading_of(fields)
}

// Kept: cursor, arrays and heading apart; each is there only once the lines before it are read.
fn put_line(cursor: &mut Cursor, arrays: &[Array], heading: Heading) -> Result<Access, SheetFault>
    ensures { sheet_answer (λ v. v) result cursor.new ≡ line_by put_form (put_of arrays.now (headed heading)) (before cursor.old) }
{
    let mut fields = [cursor.key(b"put")?; 5];
    let kinds = [Number, Number, Signed, Number, Signed];
    read_fields(cursor, &kinds, &mut fields)?;
    put_of(arrays, heading, fields)
}

fn read_line(
    cursor: &mut Cursor,
    arrays: &[Array],
    heading: Heading,
) -> Result<ReadTerm, SheetFault>
    ensures { sheet_answer (λ v. v) result cursor.new ≡ line_by read_form (read_of arrays.now (headed heading)) (before cursor.old) }
{
    let mut fields = [cursor.key(b"read")?; 8];
    let kinds = [
        Number, Number, Variable, Number, Signed, Variable, Number, Signed,
    ];
    read_fields(cursor, &kinds, &mut fields)?;
    read_of(arrays, heading, fields)
}

pub(crate) fn array_lines(
    heap: Global,
    cursor: &mut Cursor,
    count: usize,
) -> Result<Vec<Array>, SheetFault>
    ensures { lost result ≡ false → sheet_answer vec_items result cursor.new ≡ times count (line_by array_form array_of) (before cursor.old) }
{
    times(heap, cursor, count, |cursor| array_line(cursor))
}

fn read_lines(
    heap: Global,
    cursor: &mut Cursor,
    arrays: &[Array],
    heading: Heading,
    count: usize,
) -> Result<Vec<ReadTerm>, SheetFault>
    ensures { lost result ≡ false → sheet_answer vec_items result cursor.new ≡ times count (line_by read_form (read_of arrays.now (headed heading))) (before cursor.old) }
{
    times(
        heap,
        cursor,
        count,
        |cursor| read_line(cursor, arrays, heading),
    )
}

fn statement_of(
    heap: Global,
    cursor: &mut Cursor,
    arrays: &[Array],
) -> Result<Statement, SheetFault>
    ensures { lost result ≡ false → sheet_answer said result cursor.new ≡ statement_of arrays.now (before cursor.old) }
{
    let heading = heading_line(cursor)?;
    let put = put_line(cursor, arrays, heading)?;
    let base = count_line(cursor, b"base", 0, 7)?;
    let count = count_line(cursor, b"reads", 0, 4)?;
    let reads = read_lines(heap, cursor, arrays, heading, count)?;
    Ok(Statement {
        mode: heading.mode,
        i: heading.i,
        j: heading.j,
        put,
        base,
        reads,
    })
}

pub(crate) fn statements_of(
    heap: Global,
    cursor: &mut Cursor,
    arrays: &[Array],
    count: usize,
) -> Result<Vec<Statement>, SheetFault>
    ensures { lost result ≡ false → sheet_answer said_all result cursor.new ≡ times count (statement_of arrays.now) (before cursor.old) }
{
    times(
        heap,
        cursor,
        count,
        |cursor| statement_of(heap, cursor, arrays),
    )
}
