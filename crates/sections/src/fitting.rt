// Whether maps fit a nest.
ghost use Rattle.std.specs.Prelude.{map, MatchBool};
ghost use Rattle.nest.specs.Nests.{shown};
ghost use Rattle.sections.specs.Sections.{DealsOut, Fits, dealt};

use nest::nest::Nest;
use owner_map::OwnerMap;

/// Whether a map has this board count and this length.
fn deals_out<M: OwnerMap>(map: &M, boards: usize, size: usize) -> bool
    ensures { MatchBool result (DealsOut (M.OwnerMap.meaning map.now) boards size) (DealsOut (M.OwnerMap.meaning map.now) boards size → ⊥) }
{
    map.boards() == boards && map.length() == size
}

/// Whether the maps fit the nest in number, length and board count.
pub fn maps_fit<R: OwnerMap, C: OwnerMap>(nest: &Nest, row_maps: &[R], column_maps: &[C]) -> bool
    ensures { MatchBool result (Fits (shown nest.now).grid (shown nest.now).arrays (dealt (map R.OwnerMap.meaning row_maps.now) (map C.OwnerMap.meaning column_maps.now))) (Fits (shown nest.now).grid (shown nest.now).arrays (dealt (map R.OwnerMap.meaning row_maps.now) (map C.OwnerMap.meaning column_maps.now)) → ⊥) }
{
    let grid = nest.grid();
    let arrays = nest.arrays();
    if row_maps.len() != arrays.len() || column_maps.len() != arrays.len() {
        return false;
    }
    let mut by_rows = arrays.iter().zip(row_maps);
    let mut by_columns = arrays.iter().zip(column_maps);
    by_rows.all(|(array, map)| deals_out(map, grid.rows, array.rows))
        && by_columns.all(|(array, map)| deals_out(map, grid.columns, array.columns))
}
