// assignment.rs, rosters: the choosers of a choice, the choices of a chooser.
#![tactic(auto)]

mod roster;

ghost use Rattle.std.specs.Prelude.{◌≡◌};
ghost use Rattle.input_data.specs.Lengths.{full_day};
ghost use Rattle.rosters.specs.Answered.{roster_answered};
ghost use Rattle.rosters.specs.Calls.{ChoosersOrdered, ChoicesOrdered};

use input_data::FixedLimits;
use refusal::Refusal;
use roster::{Roster, roster_within};

// How many entries the roster has; 0 where refused.
#[repr(C)]
#[derive(Clone, Copy)]
pub struct RosterAnswer {
    pub number: u32,
    pub length: usize,
}

impl From<Result<usize, Refusal>> for RosterAnswer {
    ghost from_gives = { λ r a. a ≡ roster_answered r };

    fn from(res: Result<usize, Refusal>) -> RosterAnswer {
        match res {
            Ok(length) => RosterAnswer { number: 0, length },
            Err(refusal) => RosterAnswer {
                number: u32::from(refusal),
                length: 0,
            },
        }
    }
}

// The choosers of a choice, each once for each slot in which it has the choice. The result is how many entries
// the roster has.
pub fn choosers_ordered(
    day: &[u8],
    plan: &[u8],
    choice: usize,
    roster: &mut [u8],
) -> Result<usize, Refusal>
    ensures { ChoosersOrdered full_day day.now plan.now choice roster.old roster.new (roster_answered result) }
{
    let of = Roster::ChoosersOf(choice);
    roster_within(FixedLimits::full_day(), day, plan, of, roster)
}

// The choices of a chooser in order, each once for each slot in which the chooser has it.
pub fn choices_ordered(
    day: &[u8],
    plan: &[u8],
    chooser: usize,
    roster: &mut [u8],
) -> Result<usize, Refusal>
    ensures { ChoicesOrdered full_day day.now plan.now chooser roster.old roster.new (roster_answered result) }
{
    let of = Roster::ChoicesOf(chooser);
    roster_within(FixedLimits::full_day(), day, plan, of, roster)
}
