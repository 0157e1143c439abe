ghost use Rattle.std.specs.Prelude.{◌≤◌};

use crate::numbers::Numbers;

pub mod answers;
pub mod dealing;

/// Positions dealt in runs of one width to the boards in turn, round after round.
#[derive(Clone, Copy)]
pub struct BlockCyclic {
    numbers: Numbers,
    width: usize,
    ghost wide: { 1 ≤ width },
    ghost narrow: { width ≤ 32 },
}
