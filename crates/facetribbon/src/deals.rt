// Says how the arrays of a nest are dealt out.
use dealing::dimension::Dimension;
use dealing::maps::maps_over;
use nest::nest::Nest;
use nest::terms::Grid;
use owner_map::{BlockCyclic, owned_count};
use std::io;

// What board `p` has of an array, by the counts of its two maps; a board outside its map has nothing.
fn describe_share(
    rt: &HostRuntime,
    p: usize,
    grid: Grid,
    by_rows: &BlockCyclic,
    by_columns: &BlockCyclic,
) -> io::Result<()> {
    let row = p.checked_rem(grid.rows).unwrap_or(0);
    let column = p.checked_div(grid.rows).unwrap_or(0);
    let rows = owned_count(by_rows, row).unwrap_or(0);
    let columns = owned_count(by_columns, column).unwrap_or(0);
    let elements = rows.saturating_mul(columns);
    println!(rt; "  board {p}: {rows} rows, {columns} columns, {elements} elements")
}

/// Prints for each array what each board has of it.
pub(crate) fn describe_deals(rt: &HostRuntime, nest: &Nest) -> io::Result<()> {
    let grid = nest.grid();
    let by_rows = maps_over(rt.alloc(), Dimension::Rows, nest)?;
    let by_columns = maps_over(rt.alloc(), Dimension::Columns, nest)?;
    let boards = grid.rows.saturating_mul(grid.columns);
    for (k, (row_map, column_map)) in by_rows.iter().zip(by_columns.iter()).enumerate() {
        let number = k.saturating_add(1);
        println!(rt; "array {number} is dealt so:")?;
        for p in 0..boards {
            describe_share(rt, p, grid, row_map, column_map)?;
        }
    }
    Ok(())
}
