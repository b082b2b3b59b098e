// assignment_solver.rs, solve_until: the preference search. Its types, the bytes in which it is lent, and the
// leaves of its steps.
#![tactic(auto)]

mod answers;
mod asked;
mod asks;
mod lent;
mod steps;
mod telling;

pub use asked::{Ask, Asked};
pub use asks::most_asks;
pub use lent::{LentCached, LentSearch};
use scheduling::Scheduling;
pub use steps::start_of;
pub use telling::Telling;

// What a solver answers to an ask; a feasible one has a plan.
#[derive(Clone, Copy)]
pub enum Told<'a> {
    Feasible(&'a [u8]),
    Infeasible,
    Incomplete,
}

// The indices of the levels that a search over levels may still ask for, and the one where it started.
#[derive(Clone, Copy)]
pub struct Range {
    pub start: u32,
    pub low: u32,
    pub high: u32,
}

// The best plan so far, the level at which it was found, and the optimal mark. A lent search may hold any level and
// any plan where none was found; they are handed back as they came.
#[derive(Clone, Copy)]
pub struct Known {
    pub found: bool,
    pub level: u32,
    pub plan: [u8; 512],
    pub optimal: bool,
}

// A plan that was found and optimal, with its schedule and the greedy setting. It serves one day.
#[repr(C)]
#[derive(Clone, Copy)]
pub struct CachedAssignment {
    pub there: bool,
    pub greedy: bool,
    pub schedule: Scheduling,
    pub plan: [u8; 512],
}

// A search that waits for the answer to its ask, or has ended. `level` and `plan` are those of the best
// plan so far. It is lent as the bytes of this struct.
#[repr(C)]
#[derive(Clone, Copy)]
pub struct Search {
    pub asking: bool,
    pub greedy: bool,
    pub found: bool,
    pub optimal: bool,
    pub asks: u32,
    pub level: u32,
    pub start: u32,
    pub low: u32,
    pub high: u32,
    pub schedule: Scheduling,
    pub plan: [u8; 512],
    pub cached: CachedAssignment,
}

// The same with the call's number, as C reads it: zeros stand for the level and the index where it does not ask.
// A search that is begun, and told each time as it was last handed back, makes no more asks than `most_asks`.
#[repr(C)]
#[derive(Clone, Copy)]
pub struct SearchAnswer {
    pub number: u32,
    pub level: u32,
    pub index: u32,
    pub search: Search,
    pub most_asks: u32,
}
