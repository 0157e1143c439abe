//! Boards pass letters over a post: for each ordered pair of sender and receiver a bounded row,
//! first in, first out. A letter is one value of a number kind.
//!
//! - `kinds`: number kinds, and the two that are built in
//! - `pair`, `service`, `answers`: pairs of boards, the interface of a post and what its calls answer
//! - `calls`, `terms`: what stands on the interface alone
//! - `sizes`: the board count and the depth of a post that is made from a buffer
#![tactic(auto)]

pub mod answers;
pub mod calls;
pub mod kinds;
pub mod pair;
pub mod service;
pub mod sizes;
pub mod terms;
