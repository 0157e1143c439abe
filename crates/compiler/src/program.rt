// A compiled nest.
ghost use Rattle.std.specs.Prelude.{◌≡◌, true, map, length};
ghost use Rattle.nest.specs.Nests.{shown};
ghost use Rattle.compiler.specs.Compiled.{one_board};
ghost use Rattle.compiler.specs.Keeping.{program_kept};

use crate::parts::{BoardProgram, PairLetters};
use nest::nest::Nest;

/// A nest with the orders of every board, and the totals that are known before it runs.
#[derive(Drop)]
pub struct Program {
    pub(crate) nest: Nest,
    pub(crate) boards: Vec<BoardProgram>,
    pub(crate) letters_between: Vec<PairLetters>,
    pub(crate) steps: usize,
    pub(crate) letters: usize,
    pub(crate) depth: usize,
    ghost kept: { program_kept (shown nest) (map one_board boards.items) ≡ true },
    ghost tables: { length letters_between.items ≡ length (shown nest).statements },
}
