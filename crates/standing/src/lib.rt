//! Where a board stands in its orders, and what it still has to do from there: before a step, at a `Place`, or behind its
//! last step, at none.
//!
//! - `place`: a place in a board's orders, the steps of a cell, the next cell
//! - `course`: a nest and a board's orders for it
//! - `belonging`: whether a place is one of the program's
//! - `entering`: the first place of an order, of a sweep and of all sweeps
//! - `moving`: the place after a place
#![tactic(auto)]

pub mod belonging;
pub mod course;
pub mod entering;
pub mod moving;
pub mod place;
