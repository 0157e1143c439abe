ghost use Rattle.std.specs.Prelude.{◌≡◌};
ghost use Rattle.owner_map.specs.Meaning.{Deal, Sound, extent};
ghost use Rattle.owner_map.specs.Answer.{Placed, Found, Counted};

use crate::refusal::Refusal;

/// What everything above a map may ask of it. A question changes nothing, and one outside its numbers
/// is refused.
// Kept: a board and a rank, or a bound, as two numbers; no call hands the two on as one.
pub trait OwnerMap {
    /// The deal that the map stands for.
    ghost meaning: { Self → Deal };

    /// How many boards share the dimension, 1 to 8.
    fn boards(&self) -> usize
        ensures { result ≡ (meaning self.now).boards };

    /// How many positions the dimension has, 1 to 32.
    fn length(&self) -> usize
        ensures { result ≡ extent (meaning self.now) };

    /// The owner and the rank of position `x`, which lies in 1 to the extent.
    fn place(&self, x: usize) -> Result<(usize, usize), Refusal>
        ensures { Placed (meaning self.now) x result };

    /// The position that `board` owns at `rank`, or none if it owns too few.
    fn position(&self, board: usize, rank: usize) -> Result<Option<usize>, Refusal>
        ensures { Found (meaning self.now) board rank result };

    /// How many positions below `bound` `board` owns, the bound lying in 1 to the extent and one.
    fn count_below(&self, board: usize, bound: usize) -> Result<usize, Refusal>
        ensures { Counted (meaning self.now) board bound result };

    ghost sound: { (m : Self) → Sound (meaning m) };
}
