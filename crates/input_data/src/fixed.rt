// Limits that the fixed memory holds: at most 64 choosers, 32 choices and 8 slots.
ghost use Rattle.std.specs.Prelude.{◌≡◌};
ghost use Rattle.input_data.specs.Lengths.{Within, full_day, plan_length, lists_length, edges_length, supplies_length};

use crate::Limits;

#[derive(Clone, Copy)]
pub struct FixedLimits {
    pub limits: Limits,
    ghost within: { Within limits },
}

impl FixedLimits {
    // The limits of the full day's entries.
    #[tactic(auto, using(crate::specs::Numbers::full_within))]
    pub fn full_day() -> FixedLimits
        ensures { result.limits ≡ full_day }
    {
        FixedLimits {
            limits: crate::full_day(),
        }
    }

    // How long a lent plan is.
    pub fn plan_length(self) -> usize
        ensures { result ≡ plan_length self.limits }
    {
        self.limits.choosers * self.limits.slots
    }

    // How long the lent slots' lists are.
    pub fn lists_length(self) -> usize
        ensures { result ≡ lists_length self.limits }
    {
        self.limits.choices * self.limits.slots
    }

    // How many edges a lent model has room for.
    pub fn edges_length(self) -> usize
        ensures { result ≡ edges_length self.limits }
    {
        let l = self.limits;
        l.choosers * l.choices + l.choices
    }

    // How many nodes it has room for.
    pub fn supplies_length(self) -> usize
        ensures { result ≡ supplies_length self.limits }
    {
        let l = self.limits;
        l.choosers * l.slots + l.choices + l.slots
    }
}
