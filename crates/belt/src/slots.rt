//! The slots of a belt.
use post::pair::Pair;

/// A letter with the pair it belongs to.
#[derive(Clone, Copy, PartialEq, Eq, Debug)]
pub struct Slot<T> {
    pub pair: Pair,
    pub letter: T,
}
