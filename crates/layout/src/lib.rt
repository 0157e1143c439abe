// Where elements lie in buffers.
#![tactic(auto)]

pub mod places;
pub mod table;
