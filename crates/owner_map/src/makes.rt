ghost use Rattle.std.specs.Prelude.{◌≡◌, ◌≤◌, IfOk};
ghost use Rattle.owner_map.specs.Answer.{Given};
ghost use Rattle.owner_map.specs.Rules.{Makeable, width_of};

use crate::numbers::Numbers;
use crate::refusal::Refusal;

/// The rules by which positions can be dealt to boards.
#[derive(Clone, Copy, PartialEq, Eq, Debug)]
pub enum Make {
    /// Everything to board 0.
    One,
    /// One block for each board in turn, as equal as can be from the front.
    Block,
    /// Single positions to the boards in turn.
    Cyclic,
    /// Runs of this width, 1 to 32, to the boards in turn.
    CyclicBy(usize),
}

/// The most boards of a map.
pub const MOST_BOARDS: usize = 8;
/// The most positions of a map, and the widest run.
pub const MOST_POSITIONS: usize = 32;

impl Make {
    /// The width of the runs in which this make deals `length` positions over `boards` boards.
    pub fn width(self, boards: usize, length: usize) -> Result<usize, Refusal>
        ensures width { Given (Makeable self boards length) (λ k. k ≡ width_of self boards length) result }
        ensures fits { IfOk result (λ k. (1 ≤ k) × (k ≤ 32)) }
    {
        Numbers::new(boards, length)?;
        match self {
            Make::One => Ok(length),
            Make::Block => Ok(length.div_ceil(boards)),
            Make::Cyclic => Ok(1),
            Make::CyclicBy(width @ 1..=MOST_POSITIONS) => Ok(width),
            Make::CyclicBy(_) => Err(Refusal::OutsideNumbers),
        }
    }
}
