// Where each board's part of each array begins in the section buffer.
ghost use Rattle.std.specs.Prelude.{◌≡◌, map, length};
ghost use Rattle.sections.specs.Holdings.{PartsBegin, Startable};
ghost use Rattle.sections.specs.MapTables.{tabled};
ghost use Rattle.sections.specs.Sections.{dealt};

use super::map_table::MapTable;
use nest::terms::Grid;
use owner_map::MOST_BOARDS;

/// The most arrays of a nest.
pub(crate) const MOST_ARRAYS: usize = 4;
/// Room for every array on every board.
pub(crate) const MOST_PARTS: usize = MOST_BOARDS * MOST_ARRAYS;

/// Where each board's part of each array begins: that of array t on board p stands at p × MOST_ARRAYS + t.
pub(crate) fn part_starts(
    grid: Grid,
    row_maps: &[MapTable],
    column_maps: &[MapTable],
) -> [usize; MOST_PARTS]
    requires { Startable grid (dealt (map tabled row_maps.now) (map tabled column_maps.now)) }
    ensures begun { PartsBegin grid (dealt (map tabled row_maps.now) (map tabled column_maps.now)) result }
    ensures room { length result ≡ 32 }
{
    let mut starts = [0; MOST_PARTS];
    let mut next = 0;
    for board in 0..grid.rows * grid.columns {
        // Kept: an index; a zip of the two lists, counted, would be no plainer, as the table of starts goes by the count too.
        for array in 0..row_maps.len() {
            starts[board * MOST_ARRAYS + array] = next;
            let rows = row_maps[array].share(board % grid.rows);
            let columns = column_maps[array].share(board / grid.rows);
            next += rows * columns;
        }
    }
    starts
}
