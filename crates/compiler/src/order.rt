// What a board is ordered to do.
use crate::span::Span;
use nest::terms::ReadTerm;

/// A piece of work that a statement asks for in each iteration.
#[derive(Clone, Copy, PartialEq, Eq, Debug)]
pub enum Task {
    /// Send the element of a read to the board that owns the target.
    Ship(ReadTerm),
    /// Hold the base coefficient for the target.
    Base,
    /// Add the term of a read to the value held for the target.
    Add(ReadTerm),
    /// Store the value held for the target.
    Store,
}

/// What is done in each cell of an order.
// Kept: not an Option of a task, since None would not say that all tasks are done.
#[derive(Clone, Copy, PartialEq, Eq, Debug)]
pub enum Work {
    /// One task, in one step.
    One(Task),
    /// All tasks of the statement, one step each: the ships, the base, the adds, the store.
    Walk,
}

/// One board's loop over a statement: its cells are the pairs of its two spans, i slowest.
#[derive(Clone, Copy, PartialEq, Eq, Debug)]
pub struct Order {
    /// The statement, counted from 0.
    pub statement: usize,
    pub work: Work,
    pub i: Span,
    pub j: Span,
}
