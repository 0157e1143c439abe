ghost use Rattle.std.specs.Prelude.{◌≡◌, ◌+◌, ◌-◌, ◌<◌, ◌≤◌};
ghost use Rattle.owner_map.specs.Answer.{Given};
ghost use Rattle.owner_map.specs.Rules.{Sizes};

use crate::makes::{MOST_BOARDS, MOST_POSITIONS};
use crate::refusal::Refusal;

/// How many boards share a dimension, and how many positions it has.
#[derive(Clone, Copy, PartialEq, Eq, Debug)]
pub struct Numbers {
    pub boards: usize,
    pub length: usize,
    ghost within: { Sizes boards length },
}

impl Numbers {
    /// The numbers of a map, which has 1 to 8 boards and 1 to 32 positions.
    pub fn new(boards: usize, length: usize) -> Result<Numbers, Refusal>
        ensures { Given (Sizes boards length) (λ n. (n.boards ≡ boards) × (n.length ≡ length)) result }
    {
        if !(1..=MOST_BOARDS).contains(&boards) || !(1..=MOST_POSITIONS).contains(&length) {
            return Err(Refusal::OutsideNumbers);
        }
        Ok(Numbers { boards, length })
    }

    /// How many positions stand before `x`, which is one of them.
    pub fn before_position(self, x: usize) -> Result<usize, Refusal>
        ensures { Given ((1 ≤ x) × (x ≤ self.length)) (λ before. before ≡ x - 1) result }
    {
        if !(1..=self.length).contains(&x) {
            return Err(Refusal::OutsideNumbers);
        }
        Ok(x - 1)
    }

    /// How many positions stand below `bound`, which is one of them or one past the last.
    pub fn below_bound(self, bound: usize) -> Result<usize, Refusal>
        ensures { Given ((1 ≤ bound) × (bound ≤ self.length + 1)) (λ below. below ≡ bound - 1) result }
    {
        if !(1..=self.length + 1).contains(&bound) {
            return Err(Refusal::OutsideNumbers);
        }
        Ok(bound - 1)
    }

    /// Refuses what is not the number of a board.
    pub fn check_board(self, board: usize) -> Result<(), Refusal>
        ensures { Given (board < self.boards) (λ _. Unit {0}) result }
    {
        if board >= self.boards {
            return Err(Refusal::OutsideNumbers);
        }
        Ok(())
    }
}
