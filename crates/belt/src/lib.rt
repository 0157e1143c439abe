//! A post over a lent slice of slots, in which the letters of all pairs lie in order of arrival.
#![tactic(auto)]

mod belt;
mod slots;

pub use belt::Belt;
pub use slots::Slot;
