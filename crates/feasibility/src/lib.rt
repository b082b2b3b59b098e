// Scheduling::is_feasible of scheduling.rs, which needs the constraint tests, and Scoring::is_feasible of scoring.rs,
// on a day, a schedule and a plan that were accepted; and what the calls test of a schedule and a plan.
#![tactic(auto)]

mod checks;
mod plan;
mod schedule;

pub use checks::{check_parts, check_schedule};
pub use plan::JudgedPlan;
pub use schedule::schedule_holds;
