// scoring.rs: the seats of a plan and the preferences that it uses.
#![tactic(auto)]

mod plan;
mod preferences;

pub use plan::{all_filled, none_twice, part_counts};
pub use preferences::{SeatPreferences, minor};
