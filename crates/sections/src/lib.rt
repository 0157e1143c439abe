//! Sections: what each board holds of the arrays, and the way between arrays and sections.
#![tactic(auto)]

mod asked;
mod dealt;
mod exchange;
mod fitted;
mod fitting;
mod holdings;
mod lookup;
mod map_table;
mod places;
mod refusal;
mod starts;
mod tabling;
mod trips;

pub use dealt::Dealt;
pub use exchange::{gather, scatter};
pub use fitted::Fitted;
pub use fitting::maps_fit;
pub use map_table::MapTable;
pub use refusal::LayoutRefusal;
pub use trips::{gather_and_scatter, scatter_and_gather};
