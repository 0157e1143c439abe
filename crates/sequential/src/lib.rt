//! The sequential run of a nest: what the nest means, on one machine.
//!
//! - `run`, `refusal`: the call, and why it refuses
//! - `statements`, `passes`, `steps`, `values`, `places`: sweep and statement, all iterations, one iteration, its
//!   value, where its elements lie
//! - `laws`: what FORALL and DO mean, and a worked sample
//! - `iteration`, `running`: an iteration, and a statement as it is run
#![tactic(auto)]

pub mod iteration;
pub mod laws;
mod passes;
mod places;
pub mod refusal;
pub mod run;
mod running;
mod statements;
mod steps;
mod values;
