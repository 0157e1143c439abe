// The nest that a sheet describes, and the faults that keep a sheet from being one.
#![tactic(auto)]

pub mod access;
mod copying;
pub mod fault;
pub mod memory;
pub mod nest;
pub mod subscripts;
pub mod telling;
pub mod terms;
pub mod told;
pub mod words;
