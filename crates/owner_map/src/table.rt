ghost use Rattle.std.specs.Prelude.{◌≡◌, length, take};
ghost use Rattle.owner_map.specs.Meaning.{Sound};
ghost use Rattle.owner_map.specs.Listed.{listed};

use crate::makes::MOST_POSITIONS;
use crate::numbers::Numbers;

pub mod filling;
pub mod lookup;

/// A map that a client writes out: the owner of each position in turn.
// Kept: the row has room for the longest dimension, so a table is copied, and making one needs no heap and cannot want memory.
#[derive(Clone, Copy)]
pub struct OwnerTable {
    numbers: Numbers,
    row: [usize; MOST_POSITIONS],
    ghost room: { length row ≡ 32 },
    ghost sound: { Sound (listed numbers.boards (take numbers.length row)) },
}
