// How the arrays of a nest are dealt out: a sheet's words turned into maps.
#![tactic(auto)]

pub mod dimension;
pub mod maps;
pub mod words;
