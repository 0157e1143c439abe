// The parts of a program.
use crate::order::Order;
use owner_map::MOST_BOARDS;

/// What one board has to do in a sweep, and the steps that this takes in all sweeps.
#[derive(Drop)]
pub struct BoardProgram {
    pub orders: Vec<Order>,
    pub steps: usize,
}

/// How many letters each board sends each other in one run of a statement: a row for each sender, by receiver.
#[derive(Clone, Copy, Default)]
pub struct PairLetters {
    pub counts: [[usize; MOST_BOARDS]; MOST_BOARDS],
}
