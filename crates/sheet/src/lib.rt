// The reader that turns a sheet into a nest, or names its first fault.
#![tactic(auto)]

mod forms;
mod heading;
mod lines;
pub mod reader;
mod rules;
mod times;
mod verdicts;
