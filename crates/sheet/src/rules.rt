// What the fields of a line say, once the line has its form.
ghost use Rattle.std.specs.Prelude.{◌≡◌, ℕ, ◌-◌, ◌≤◌, length, IfOk};
ghost use Rattle.tokens.specs.Views.{part_of};
ghost use Rattle.nest.specs.Terms.{far, position, pick, inside};
ghost use Rattle.sheet.specs.Verdicts.{Near, within, offset_of, subscript_of, map_of, mode_of, variable_of, range_from, access_of};
ghost use Rattle.sheet.specs.Answered.{field_verdict, nest_verdict};

use crate::heading::Heading;
use nest::fault::{FieldFault, NestFault};
use nest::terms::{Access, Array, MapWord, Mode, Offset, Range, Subscript, Variable};
use tokens::part::Token;

pub(crate) fn ranged(token: Token, low: usize, high: usize) -> Result<usize, FieldFault>
    ensures value { field_verdict result ≡ within low high (part_of token.entry) }
    ensures bound { IfOk result (λ n. (low ≤ n) × (n ≤ high)) }
{
    let n = token.magnitude();
    if (low..=high).contains(&n) {
        Ok(n)
    } else {
        Err(FieldFault {
            place: token.part().place,
        })
    }
}

fn offset(token: Token) -> Result<Offset, FieldFault>
    ensures value { field_verdict result ≡ offset_of (part_of token.entry) }
    ensures bound { IfOk result (λ c. far c ≤ 64) }
{
    let n = ranged(token, 0, 64)?;
    if token.begins_with(b'-') {
        Ok(Offset::Minus(n))
    } else {
        Ok(Offset::Plus(n))
    }
}

/// A subscript, whose factor is from `least` to 4.
pub(crate) fn subscript(
    least: usize,
    variable: Variable,
    factor: Token,
    by: Token,
) -> Result<Subscript, FieldFault>
    ensures value { field_verdict result ≡ subscript_of least variable (part_of factor.entry) (part_of by.entry) }
    ensures bound { IfOk result Near }
{
    Ok(Subscript {
        variable,
        factor: ranged(factor, least, 4)?,
        offset: offset(by)?,
    })
}

pub(crate) fn map_word(token: Token) -> Result<MapWord, FieldFault>
    ensures { field_verdict result ≡ map_of (part_of token.entry) }
{
    if token.begins_with(b'o') {
        Ok(MapWord::One)
    } else if token.begins_with(b'b') {
        Ok(MapWord::Block)
    } else if token.part().text.len() <= 6 {
        Ok(MapWord::Cyclic)
    } else {
        Ok(MapWord::CyclicBy(ranged(token, 1, 32)?))
    }
}

pub(crate) fn mode(token: Token) -> Mode
    ensures { result ≡ mode_of (part_of token.entry) }
{
    if token.begins_with(b'a') {
        Mode::All
    } else {
        Mode::Seq
    }
}

pub(crate) fn variable(token: Token) -> Variable
    ensures { result ≡ variable_of (part_of token.entry) }
{
    if token.begins_with(b'i') {
        Variable::I
    } else {
        Variable::J
    }
}

pub(crate) fn range_from(token: Token, low: usize, high: usize) -> Result<Range, NestFault>
    ensures value { nest_verdict result ≡ range_from (part_of token.entry) low high }
    ensures bound { IfOk result (λ x. (x.low ≡ low) × (x.high ≡ high) × (low ≤ high)) }
{
    if low <= high {
        Ok(Range { low, high })
    } else {
        Err(NestFault::EmptyRange(token.part().place))
    }
}

// Whether a subscript stays within a dimension in every iteration: positions grow with the variable.
#[tactic(auto, using(crate::proofs::Near::near_small))]
fn stays_inside(heading: Heading, size: usize, s: Subscript) -> bool
    requires { Near s }
    ensures { result ≡ inside heading.i heading.j size s }
{
    let range = s.variable.pick(heading.i, heading.j);
    s.position(range.low).is_some_and(|p| 1 <= p)
        && s.position(range.high).is_some_and(|p| p <= size)
}

/// A field that names an array, and the fields and values of two subscripts.
#[derive(Clone, Copy)]
pub(crate) struct AccessFields<'a> {
    pub(crate) array: Token<'a>,
    pub(crate) number: usize,
    pub(crate) row_factor: Token<'a>,
    pub(crate) row: Subscript,
    pub(crate) column_factor: Token<'a>,
    pub(crate) column: Subscript,
    ghost numbered: { 1 ≤ number },
    ghost near: { Near row × Near column },
}

pub(crate) fn access(
    arrays: &[Array],
    heading: Heading,
    f: AccessFields,
) -> Result<Access, NestFault>
    ensures { nest_verdict result ≡ access_of arrays.now heading.i heading.j (part_of f.entry.array) f.entry.number (part_of f.entry.row_factor) f.entry.row (part_of f.entry.column_factor) f.entry.column }
{
    if f.number > arrays.len() {
        return Err(NestFault::NoSuchArray(f.array.part().place));
    }
    let array = f.number - 1;
    let target = arrays[array];
    if !stays_inside(heading, target.rows, f.row) {
        return Err(NestFault::LeavesArray(f.row_factor.part().place));
    }
    if !stays_inside(heading, target.columns, f.column) {
        return Err(NestFault::LeavesArray(f.column_factor.part().place));
    }
    Ok(Access {
        array,
        row: f.row,
        column: f.column,
    })
}
