//! The compiler: from a nest and the owner maps of its arrays to each board's orders, and their exact totals.
//!
//! - `compile`: the program of a nest, or why there is none
//! - `program`, `access`: a program, and what it tells of itself
//! - `parts`, `order`, `span`: what a program has for each board and each statement
//! - `refusal`: why a nest is not compiled
//! - `view`, `boards`, `ordering`, `tasks`, `owning`, `spans`: the orders of each board
//! - `steps`: the steps of a board, from its orders
//! - `owners`: the board that owns the element of an access
//! - `letters`, `depth`, `letter_totals`: the letters by pair, and the depth that the post must have
//! - `worked`: the totals of the sample nest
#![tactic(auto)]

mod access;
mod boards;
pub mod compile;
mod depth;
mod letter_totals;
mod letters;
pub mod order;
mod ordering;
mod owners;
mod owning;
pub mod parts;
pub mod program;
pub mod refusal;
pub mod span;
mod spans;
mod steps;
mod tasks;
mod view;
pub mod worked;
