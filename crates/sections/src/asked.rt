// Questions to a map that are known to be answered.
ghost use Rattle.std.specs.Prelude.{◌≡◌, ◌<◌, ◌≤◌};
ghost use Rattle.owner_map.specs.Meaning.{Position, owner, rank, share};

use owner_map::{OwnerMap, owned_count};

/// How many positions a board of the map owns.
pub(crate) fn share_of<M: OwnerMap>(map: &M, board: usize) -> usize
    requires { board < (M.OwnerMap.meaning map.now).boards }
    ensures value { result ≡ share (M.OwnerMap.meaning map.now) board }
    ensures small { result ≤ 32 }
{
    owned_count(map, board).unwrap()
}

/// The owner and the rank of a position of the map.
pub(crate) fn place_of<M: OwnerMap>(map: &M, position: usize) -> (usize, usize)
    requires { Position (M.OwnerMap.meaning map.now) position }
    ensures owner { result.0 ≡ owner (M.OwnerMap.meaning map.now) position }
    ensures rank { result.1 ≡ rank (M.OwnerMap.meaning map.now) position }
    ensures small { (result.0 < 8) × (result.1 < 32) }
{
    map.place(position).unwrap()
}
