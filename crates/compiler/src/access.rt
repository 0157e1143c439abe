// What a program tells of itself.
ghost use Rattle.std.specs.Prelude.{◌≡◌, ◌<◌, ◌≤◌, length, MatchOption};
ghost use Rattle.nest.specs.Nests.{shown};
ghost use Rattle.compiler.specs.Programs.{compiled, orders_of, steps_on, PairThere, letters_between_boards};

use crate::order::Order;
use crate::program::Program;
use nest::nest::Nest;

impl Program {
    /// The nest that was compiled.
    pub fn nest(&self) -> &Nest
        ensures { shown result.now ≡ (compiled self.now).nest }
    {
        &self.nest
    }

    /// The orders of a board in a sweep, in succession; none where there is no such board.
    pub fn orders(&self, board: usize) -> Option<&[Order]>
        ensures { MatchOption result (length (compiled self.now).boards ≤ board) (λ o. (board < length (compiled self.now).boards) × (o.now ≡ orders_of (compiled self.now) board)) }
    {
        let program = self.boards.get(board)?;
        Some(program.orders.as_slice())
    }

    /// The steps of a board in all sweeps; none where there is no such board.
    pub fn steps_on(&self, board: usize) -> Option<usize>
        ensures { MatchOption result (length (compiled self.now).boards ≤ board) (λ n. (board < length (compiled self.now).boards) × (n ≡ steps_on (compiled self.now) board)) }
    {
        let program = self.boards.get(board)?;
        Some(program.steps)
    }

    /// The letters that one board sends another in one run of a statement; none where there is no such statement or board.
    pub fn letters_between(&self, statement: usize, from: usize, to: usize) -> Option<usize>
        ensures { MatchOption result (PairThere (compiled self.now) statement from to → ⊥) (λ n. PairThere (compiled self.now) statement from to × (n ≡ letters_between_boards (compiled self.now) statement from to)) }
    {
        let boards = self.boards.len();
        if from >= boards || to >= boards {
            return None;
        }
        let table = self.letters_between.get(statement)?;
        Some(table.counts[from][to])
    }

    /// The steps of all boards in all sweeps.
    pub fn steps(&self) -> usize
        ensures { result ≡ (compiled self.now).steps }
    {
        self.steps
    }

    /// The letters of all sweeps.
    pub fn letters(&self) -> usize
        ensures { result ≡ (compiled self.now).letters }
    {
        self.letters
    }

    /// How many letters of one pair the post must hold.
    pub fn depth(&self) -> usize
        ensures { result ≡ (compiled self.now).depth }
    {
        self.depth
    }
}
