//! An owner map of a client's own, written against the trait alone: a dimension whose front belongs to
//! one board.
#![tactic(auto)]

mod front;

pub use front::FrontLoaded;
