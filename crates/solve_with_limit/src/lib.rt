// assignment_solver.rs, solve_with_limit: the flow model of a state at a preference limit, and the
// check and decoding of edge values that are proposed from outside.
#![tactic(auto)]

mod model;
mod values;

pub use model::build_model;
pub use values::check_values;
