// Checks 14 to 17 of edge values that are proposed from outside.
#![tactic(auto)]

mod balance;
mod checks;
mod number;

pub use number::check_edge_values;
