// Says what a sheet describes.
ghost use Rattle.std.specs.Prelude.{◌≡◌, ◌+◌, ◌-◌, ◌<◌, ◌≤◌};

use nest::nest::Nest;
use nest::terms::{Array, Grid, Range, Statement};
use std::io;

// How many values a range has; no range of a nest is past the cap.
fn count_of(range: Range) -> usize
    ensures { range.high < 100 → range.low ≤ range.high → result ≡ range.high - range.low + 1 }
{
    range.high.saturating_sub(range.low).saturating_add(1)
}

fn describe_array(rt: &HostRuntime, number: usize, array: &Array) -> io::Result<()> {
    let Array {
        rows,
        columns,
        row_map,
        column_map,
    } = *array;
    println!(rt; "array {number}: {rows} x {columns}, rows {row_map}, columns {column_map}")
}

fn describe_statement(rt: &HostRuntime, number: usize, statement: &Statement) -> io::Result<()> {
    let mode = statement.mode;
    let iterations = count_of(statement.i).saturating_mul(count_of(statement.j));
    let reads = statement.reads.len();
    println!(rt; "statement {number}: {mode}, {iterations} iterations, {reads} reads")
}

/// Prints what was read, a line for each part of the nest.
pub(crate) fn describe(rt: &HostRuntime, nest: &Nest) -> io::Result<()> {
    let Grid { rows, columns } = nest.grid();
    let sweeps = nest.sweeps();
    println!(rt; "grid: {rows} x {columns} boards")?;
    for (k, array) in nest.arrays().iter().enumerate() {
        describe_array(rt, k + 1, array)?;
    }
    println!(rt; "sweeps: {sweeps}")?;
    for (k, statement) in nest.statements().iter().enumerate() {
        describe_statement(rt, k + 1, statement)?;
    }
    Ok(())
}
