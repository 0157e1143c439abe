//! One schedule of a compiled nest: the steps of all boards in one order, on one memory, and where it ends.
#![tactic(auto)]

pub mod law;
