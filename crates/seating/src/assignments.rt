// The entries over plans.
ghost use Rattle.std.specs.Prelude.{◌≡◌};
ghost use Rattle.input_data.specs.Lengths.{full_day};
ghost use Rattle.assignment.specs.Calls.{in_choice_lent, choice_lent};
ghost use Rattle.rosters.specs.Calls.{ChoosersOrdered, ChoicesOrdered};

use assignment::{ChoiceAnswer, InChoiceAnswer};
use rosters::RosterAnswer;

#[unsafe(no_mangle)]
pub extern "C" fn cendravoka_choosers_ordered(
    day: &[u8],
    plan: &[u8],
    choice: usize,
    roster: &mut [u8],
) -> RosterAnswer
    ensures { ChoosersOrdered full_day day.now plan.now choice roster.old roster.new result }
{
    rosters::choosers_ordered(day, plan, choice, roster).into()
}

#[unsafe(no_mangle)]
pub extern "C" fn cendravoka_choices_ordered(
    day: &[u8],
    plan: &[u8],
    chooser: usize,
    roster: &mut [u8],
) -> RosterAnswer
    ensures { ChoicesOrdered full_day day.now plan.now chooser roster.old roster.new result }
{
    rosters::choices_ordered(day, plan, chooser, roster).into()
}

#[unsafe(no_mangle)]
pub extern "C" fn cendravoka_is_in_choice(
    day: &[u8],
    plan: &[u8],
    chooser: usize,
    choice: usize,
) -> InChoiceAnswer
    ensures { result ≡ in_choice_lent full_day day.now plan.now chooser choice }
{
    assignment::is_in_choice(day, plan, chooser, choice).into()
}

#[unsafe(no_mangle)]
pub extern "C" fn cendravoka_choice_of(
    day: &[u8],
    plan: &[u8],
    chooser: usize,
    slot: usize,
) -> ChoiceAnswer
    ensures { result ≡ choice_lent full_day day.now plan.now chooser slot }
{
    assignment::choice_of(day, plan, chooser, slot).into()
}
