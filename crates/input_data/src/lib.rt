// input_data.rs: the day, its limits, the bytes in which it is lent, and what accepted ones satisfy.
#![tactic(auto)]

mod bytes;
mod checks;
mod constraints;
mod day;
mod fixed;

ghost use Rattle.std.specs.Prelude.{◌≡◌};
ghost use Rattle.input_data.specs.Lengths.{full_day};

pub use bytes::{flag, numbers_at, signed, word};
pub use checks::{Beside, NOTHING, too_many};
pub use constraints::Constraints;
pub use day::Day;
pub use fixed::FixedLimits;

// How many choosers, choices and slots there may be. Strides and named lengths follow from these.
#[derive(Clone, Copy)]
pub struct Limits {
    pub choosers: usize,
    pub choices: usize,
    pub slots: usize,
}

// The limits of the full day's entries.
pub fn full_day() -> Limits
    ensures { result ≡ full_day }
{
    Limits {
        choosers: 64,
        choices: 32,
        slots: 8,
    }
}

// A day's sizes, and the stride of its slot lists: the limit on choices.
#[derive(Clone, Copy)]
pub struct Sizes {
    pub stride: usize,
    pub choosers: usize,
    pub choices: usize,
    pub slots: usize,
}

// A constraint in numbers, as constraint::Constraint::of takes them.
#[derive(Clone, Copy)]
pub struct ConstraintNumbers {
    pub kind: u32,
    pub left: u32,
    pub target_case: u32,
    pub target: u32,
    pub extra_case: u32,
    pub extra: i32,
}

// The first `count` entries are the list.
#[derive(Drop)]
pub struct ConstraintList {
    pub count: usize,
    pub entries: [ConstraintNumbers; 32],
}

// The day (SPEC 1.2); it is lent as bytes. Dependent groups stand one after the other in `members`; `lengths` parts them.
#[derive(Drop)]
pub struct InputData {
    pub choosers: usize,
    pub choices: usize,
    pub slots: usize,
    pub max_preference: u32,
    pub mins: [u32; 32],
    pub maxs: [u32; 32],
    pub optional: [bool; 32],
    pub scheduling: ConstraintList,
    pub assignment: ConstraintList,
    pub groups: usize,
    pub lengths: [u32; 16],
    pub members: [u32; 32],
}
