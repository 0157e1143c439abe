// A map's answers written into a table.
ghost use Rattle.std.specs.Prelude.{◌≡◌, ◌<◌, ◌≤◌, map, length, take};
ghost use Rattle.sections.specs.MapRows.{OwnersIn, RanksIn, SharesIn, PositionsIn};
ghost use Rattle.sections.specs.MapTables.{tabled};

use super::asked::{place_of, share_of};
use super::map_table::{MOST_PLACES, MapTable};
use super::starts::MOST_ARRAYS;
use owner_map::{MOST_BOARDS, MOST_POSITIONS, OwnerMap};
use std::array;

/// The owners and the ranks of all positions, and the positions of all owners and ranks.
fn written_places<M: OwnerMap>(
    map: &M,
) -> (
    [u8; MOST_POSITIONS],
    [u8; MOST_POSITIONS],
    [u8; MOST_PLACES],
)
    ensures owners { OwnersIn (M.OwnerMap.meaning map.now) result.0 }
    ensures ranks { RanksIn (M.OwnerMap.meaning map.now) result.1 }
    ensures positions { PositionsIn (M.OwnerMap.meaning map.now) result.2 }
    ensures room { (length result.0 ≡ 32) × (length result.1 ≡ 32) × (length result.2 ≡ 256) }
{
    let mut owners = [0; MOST_POSITIONS];
    let mut ranks = [0; MOST_POSITIONS];
    let mut positions = [0; MOST_PLACES];
    // Kept: an index; two tables are written at it, and a third at the place that the map answers for it.
    for before in 0..map.length() {
        let (owner, rank) = place_of(map, before + 1);
        owners[before] = owner as u8;
        ranks[before] = rank as u8;
        positions[owner * MOST_POSITIONS + rank] = (before + 1) as u8;
    }
    (owners, ranks, positions)
}

/// How many positions each board owns.
fn written_shares<M: OwnerMap>(map: &M) -> [u8; MOST_BOARDS]
    ensures shares { SharesIn (M.OwnerMap.meaning map.now) result }
    ensures room { length result ≡ 8 }
{
    let boards = map.boards();
    array::from_fn(|board| {
        if board < boards {
            share_of(map, board) as u8
        } else {
            0
        }
    })
}

impl MapTable {
    /// The table of a map's answers.
    pub(crate) fn of<M: OwnerMap>(map: &M) -> MapTable
        ensures { tabled result ≡ M.OwnerMap.meaning map.now }
    {
        let boards = map.boards();
        let size = map.length();
        let (owners, ranks, positions) = written_places(map);
        let shares = written_shares(map);
        MapTable {
            boards,
            size,
            owners,
            ranks,
            shares,
            positions,
        }
    }
}

/// The tables of some maps, as many as a nest has arrays; those left over repeat the first.
pub(crate) fn tables_of<M: OwnerMap>(maps: &[M]) -> [MapTable; MOST_ARRAYS]
    requires { (1 ≤ length maps.now) × (length maps.now ≤ 4) }
    ensures same { map tabled (take (length maps.now) result) ≡ map M.OwnerMap.meaning maps.now }
    ensures room { length result ≡ 4 }
{
    let mut tables = [MapTable::of(&maps[0]); MOST_ARRAYS];
    // Kept: written by count, from the second; of what a loop over `tables.iter_mut().zip(maps)` wrote a proof knows nothing.
    for which in 1..maps.len() {
        tables[which] = MapTable::of(&maps[which]);
    }
    tables
}
