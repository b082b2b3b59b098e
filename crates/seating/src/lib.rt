// The exported C entries: numbers and slices in, numbers out. include/cendravoka.h declares them.
#![tactic(auto)]

pub mod assignments;
pub mod constraints;
pub mod models;
pub mod scores;
pub mod searches;
pub mod states;
pub mod verdicts;
