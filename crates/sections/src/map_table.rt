// A map's answers, written out.
ghost use Rattle.std.specs.Prelude.{◌≡◌, ◌≤◌, length, take};
ghost use Rattle.owner_map.specs.Listed.{listed};
ghost use Rattle.owner_map.specs.Meaning.{Sound};
ghost use Rattle.sections.specs.MapRows.{RanksIn, SharesIn, PositionsIn};

use owner_map::{MOST_BOARDS, MOST_POSITIONS};

/// Room for a position of every board and rank.
pub(crate) const MOST_PLACES: usize = MOST_BOARDS * MOST_POSITIONS;

/// The answers of a map, each found by one look: the owner and the rank of each position, how many positions each
/// board owns, and the position of each board and rank.
// Kept: rows of bytes with a size beside them, since the row of owners is the map's meaning, and there is no heap.
#[derive(Clone, Copy)]
pub struct MapTable {
    pub(crate) boards: usize,
    pub(crate) size: usize,
    pub(crate) owners: [u8; MOST_POSITIONS],
    pub(crate) ranks: [u8; MOST_POSITIONS],
    pub(crate) shares: [u8; MOST_BOARDS],
    pub(crate) positions: [u8; MOST_PLACES],
    ghost fits: { size ≤ 32 },
    ghost owner_room: { length owners ≡ 32 },
    ghost rank_room: { length ranks ≡ 32 },
    ghost share_room: { length shares ≡ 8 },
    ghost position_room: { length positions ≡ 256 },
    ghost sound: { Sound (listed boards (take size owners)) },
    ghost ranked: { RanksIn (listed boards (take size owners)) ranks },
    ghost shared: { SharesIn (listed boards (take size owners)) shares },
    ghost found: { PositionsIn (listed boards (take size owners)) positions },
}
