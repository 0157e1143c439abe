//! A post over a lent slice of letters, in which each ordered pair of boards has a ring of its own.
#![tactic(auto)]

mod lanes;
mod rings;

pub use lanes::Lanes;
