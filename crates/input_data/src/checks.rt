// What a call tests beside the day, and check 1.
ghost use Rattle.std.specs.Prelude.{◌≡◌};
ghost use Rattle.input_data.specs.Checks.{too_many};

use crate::Limits;

// What a call tests beside the day itself; false where it has no such input.
#[derive(Clone, Copy)]
pub struct Beside {
    pub bad_lengths: bool,
    pub bad_preferences: bool,
    pub bad_levels: bool,
    pub bad_costs: bool,
    pub bad_asked: bool,
}

// None of it is bad.
pub const NOTHING: Beside = Beside {
    bad_lengths: false,
    bad_preferences: false,
    bad_levels: false,
    bad_costs: false,
    bad_asked: false,
};

// 1.
pub fn too_many(limits: Limits, choosers: usize, choices: usize, slots: usize) -> bool
    ensures { result ≡ too_many limits choosers choices slots }
{
    (limits.choosers < choosers) | (limits.choices < choices) | (limits.slots < slots)
}
