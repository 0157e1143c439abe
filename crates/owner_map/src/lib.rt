//! Owner maps: which board owns each position of a dimension.
#![tactic(auto)]

mod laws;
mod makes;
mod numbers;
mod questions;
mod refusal;
mod runs;
mod table;
mod worked;

pub use laws::{
    counted_by_all, owned_between, owned_count, place_of_position, position_of_place, same_place,
};
pub use makes::{MOST_BOARDS, MOST_POSITIONS, Make};
pub use numbers::Numbers;
pub use questions::OwnerMap;
pub use refusal::Refusal;
pub use runs::BlockCyclic;
pub use runs::dealing::deal_out;
pub use table::OwnerTable;
pub use worked::last_of_seven_in_twos;
