//! Boards that pass letters over bounded rows: what a request does, and what holds of every list of requests.
#![tactic(auto)]

pub mod answer;
pub mod boards;
pub mod desk;
pub mod driver;
pub mod pair;
pub mod relay;
pub mod ring;
pub mod theory;
