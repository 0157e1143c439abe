// The letters of a nest, and the room that they want.
ghost use Rattle.std.specs.Prelude.{◌≡◌, map, IfOk};
ghost use Rattle.compiler.specs.Compiled.{counts_of, pairs_of};
ghost use Rattle.compiler.specs.Totals.{letters_of, depth_of};

use crate::depth::greatest_room;
use crate::letters::letters_in;
use crate::parts::PairLetters;
use sections::Fitted;
use std::alloc::{AllocError, Global};

/// The letters of one run of each statement by pair, those of all sweeps, and the depth that the post must have.
#[derive(Drop)]
pub(crate) struct LetterTotals {
    pub(crate) pairs: Vec<PairLetters>,
    pub(crate) letters: usize,
    pub(crate) depth: usize,
}

/// Counts the letters of a nest whose arrays are dealt out.
pub(crate) fn letters_of(heap: Global, fitted: &Fitted) -> Result<LetterTotals, AllocError>
    ensures pairs { IfOk result (λ t. map counts_of t.pairs.items ≡ map (pairs_of fitted.now.nest fitted.now.deals) fitted.now.nest.statements) }
    ensures letters { IfOk result (λ t. t.letters ≡ letters_of fitted.now.nest fitted.now.deals) }
    ensures depth { IfOk result (λ t. t.depth ≡ depth_of fitted.now.nest fitted.now.deals) }
{
    let nest = fitted.nest();
    let grid = nest.grid();
    let boards = grid.rows * grid.columns;
    let statements = nest.statements();
    let mut pairs = Vec::new(heap);
    let mut letters = 0;
    let mut depth: usize = 0;
    for statement in statements {
        let count = letters_in(fitted, statement);
        let room = greatest_room(statement.mode, boards, &count.pairs);
        letters += count.letters;
        depth = depth.max(room);
        pairs.push(count.pairs)?;
    }
    let letters = nest.sweeps() * letters;
    Ok(LetterTotals {
        pairs,
        letters,
        depth,
    })
}
