// The words of a sheet: borrowed parts with their places, the kinds of field a line may have,
// and a cursor that reads a line by its form or names the byte at which the text leaves it.
#![tactic(auto)]

pub mod cursor;
pub mod extent;
pub mod fault;
pub mod laws;
pub mod part;
pub mod reading;
pub mod value;
