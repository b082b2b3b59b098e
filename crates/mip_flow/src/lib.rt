// mip_flow.rs and solve_with_limit of assignment_solver.rs: which seats have an edge, and what an edge is
// made of.
#![tactic(auto)]

mod index;
mod nodes;
mod offer;

pub use index::EdgeIndex;
pub use nodes::Nodes;
pub use offer::Offer;
