// The letters of one run of a statement, counted.
ghost use Rattle.std.specs.Prelude.{◌≡◌, ℕ, ◌+◌, ◌<◌, true, length, fold};
ghost use Rattle.nest.specs.Sound.{statement_kept};
ghost use Rattle.nest.specs.Views.{said};
ghost use Rattle.sequential.specs.Iterations.{iterations};
ghost use Rattle.compiler.specs.Compiled.{pairs_of};
ghost use Rattle.compiler.specs.Making.{seat_in};
ghost use Rattle.compiler.specs.Totals.{letters_in};
ghost use Rattle.compiler.specs.LetterCounts.{noted, noting, AtMost, BothAnswer, ShortRanges};

use crate::owners::{Owners, owners_of};
use crate::parts::PairLetters;
use nest::terms::Statement;
use sections::Fitted;
use sequential::iteration::Iteration;

/// How many letters there are, by pair and in all.
#[derive(Clone, Copy, Default)]
pub(crate) struct LetterCount {
    pub(crate) pairs: PairLetters,
    pub(crate) letters: usize,
}

impl LetterCount {
    /// Notes the letter from the board that owns an element to the board that owns the target. A board sends none to itself.
    fn note(&mut self, from: usize, to: usize)
        requires { (AtMost 4095 self.old) × ((from < 8) × (to < 8)) }
        ensures { self.new ≡ noted self.old from to }
    {
        if from != to {
            self.pairs.counts[from][to] += 1;
            self.letters += 1;
        }
    }
}

/// Notes the letters of one read in every iteration, i slowest.
fn note_read(count: &mut LetterCount, source: &Owners, target: &Owners, statement: &Statement)
    requires room { AtMost 3072 count.old }
    requires short { ShortRanges (said statement.now) }
    requires answer { BothAnswer (said statement.now) source.now target.now }
    ensures noted { count.new ≡ fold (noting source.now target.now) count.old (iterations (said statement.now).i (said statement.now).j) }
    ensures room { (n : ℕ) → AtMost n count.old → AtMost (n + 1024) count.new }
{
    for i in statement.i.low..statement.i.high + 1 {
        for j in statement.j.low..statement.j.high + 1 {
            let at = Iteration { i, j };
            count.note(source.board(at), target.board(at));
        }
    }
}

/// Counts the letters of one run of a statement, read by read.
pub(crate) fn letters_in(fitted: &Fitted, statement: &Statement) -> LetterCount
    requires { statement_kept fitted.now.nest.arrays (said statement.now) ≡ true }
    ensures pairs { result.pairs.counts ≡ pairs_of fitted.now.nest fitted.now.deals (said statement.now) }
    ensures all { result.letters ≡ length (letters_in (seat_in fitted.now 0) (said statement.now)) }
    ensures room { AtMost 4096 result }
{
    let target = owners_of(fitted, statement, statement.put);
    let mut count = LetterCount::default();
    let reads = statement.reads.as_slice();
    for read in reads {
        let source = owners_of(fitted, statement, read.source);
        note_read(&mut count, &source, &target, statement);
    }
    count
}
