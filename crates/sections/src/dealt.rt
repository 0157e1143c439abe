// The answers of all maps of a nest, and where each board's part of each array begins.
ghost use Rattle.std.specs.Prelude.{◌≡◌, ◌*◌, ◌≤◌, map, length, take};
ghost use Rattle.sections.specs.Holdings.{OverGrid, PartsBegin, PartsLow};
ghost use Rattle.sections.specs.MapTables.{tabled};
ghost use Rattle.sections.specs.Sections.{dealt};

use super::map_table::MapTable;
use super::starts::{MOST_ARRAYS, MOST_PARTS};
use nest::terms::Grid;

/// How the arrays of a nest are dealt out: the answers of their maps, with where each board's part of each array
/// begins. Worked out once, asked in constant time.
// Kept: rows and columns apart with a count beside them, since each is lent as one slice, and there is no heap.
#[derive(Clone, Copy)]
pub struct Dealt {
    pub(crate) grid: Grid,
    pub(crate) count: usize,
    pub(crate) rows: [MapTable; MOST_ARRAYS],
    pub(crate) columns: [MapTable; MOST_ARRAYS],
    pub(crate) starts: [usize; MOST_PARTS],
    ghost few: { count ≤ 4 },
    ghost row_room: { length rows ≡ 4 },
    ghost column_room: { length columns ≡ 4 },
    ghost start_room: { length starts ≡ 32 },
    ghost boards: { grid.rows * grid.columns ≤ 8 },
    ghost over: { OverGrid grid (dealt (map tabled (take count rows)) (map tabled (take count columns))) },
    ghost begun: { PartsBegin grid (dealt (map tabled (take count rows)) (map tabled (take count columns))) starts },
    ghost low: { PartsLow grid (dealt (map tabled (take count rows)) (map tabled (take count columns))) },
}
