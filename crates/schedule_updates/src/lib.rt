// assignment_solver.rs: the calls that build a schedule state, update it, and hand back a slot's list.
#![tactic(auto)]

mod listing;
mod state;

pub use listing::{slot_list, slot_list_number, slot_list_part, try_slot_list};
pub use state::{build, update};
