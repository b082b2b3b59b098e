// assignment_solver.rs, solve_until: the preference search, handed back after each ask.
#![tactic(auto)]

mod beginning;
mod telling;

pub use beginning::begin;
pub use telling::tell;
