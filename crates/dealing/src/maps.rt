// The maps of all arrays of a nest.
ghost use Rattle.std.specs.Prelude.{◌≡◌, map, IfOk};
ghost use Rattle.nest.specs.Nests.{shown};
ghost use Rattle.owner_map.specs.Runs.{runs_deal};
ghost use Rattle.dealing.specs.Words.{deal_over, Dealable};

use crate::dimension::Dimension;
use crate::words::map_of;
use nest::nest::Nest;
use nest::terms::{Array, Grid};
use owner_map::BlockCyclic;
use std::alloc::{AllocError, Global};

fn map_over(dimension: Dimension, grid: Grid, array: Array) -> BlockCyclic
    requires { Dealable dimension grid array }
    ensures { runs_deal result ≡ deal_over dimension grid array }
{
    let made = match dimension {
        Dimension::Rows => map_of(array.row_map, grid.rows, array.rows),
        Dimension::Columns => map_of(array.column_map, grid.columns, array.columns),
    };
    made.unwrap()
}

/// The map of one dimension of each array, in the order of the sheet. Want of memory is the only fault.
pub fn maps_over(
    heap: Global,
    dimension: Dimension,
    nest: &Nest,
) -> Result<Vec<BlockCyclic>, AllocError>
    ensures { IfOk result (λ v. map runs_deal v.items ≡ map (deal_over dimension (shown nest.now).grid) (shown nest.now).arrays) }
{
    let grid = nest.grid();
    let maps = nest
        .arrays()
        .iter()
        .map(|array| map_over(dimension, grid, *array));
    maps.collect(heap)
}
