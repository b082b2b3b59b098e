// scoring.rs, satisfies_constraints_scheduling and satisfies_constraints_assignment: the tests of the
// two lists of constraints.
#![tactic(auto)]

mod assignment_constraints;
mod scheduling_constraints;

pub use assignment_constraints::assignment_met;
pub use scheduling_constraints::scheduling_met;
