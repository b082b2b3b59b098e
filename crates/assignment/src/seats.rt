// A chooser and a choice, a chooser and a slot.
ghost use Rattle.std.specs.Prelude.{◌≡◌};
ghost use Rattle.input_data.specs.Lengths.{full_day};
ghost use Rattle.assignment.specs.Calls.{in_choice_lent, choice_lent};
ghost use Rattle.assignment.specs.Answered.{in_choice_answered, choice_answered};

use crate::checks::check_plan;
use input_data::{Day, FixedLimits};
use refusal::Refusal;

#[tactic(auto, using(crate::specs::Laws::asked_chooser, crate::specs::Laws::in_choice_unread, crate::specs::Laws::in_choice_refused, crate::specs::Laws::in_choice_done))]
fn in_choice_within(
    fixed: FixedLimits,
    day: &[u8],
    plan: &[u8],
    chooser: usize,
    choice: usize,
) -> Result<bool, Refusal>
    ensures { in_choice_answered result ≡ in_choice_lent fixed.limits day.now plan.now chooser choice }
{
    let day = Day::read(day)?;
    let asked = (day.choosers() <= chooser) | (day.choices() <= choice);
    let seats = check_plan(fixed, &day, plan, false, asked)?;
    Ok(seats.is_in_choice(chooser, choice))
}

// Whether the chooser has the choice in some slot.
pub fn is_in_choice(day: &[u8], plan: &[u8], chooser: usize, choice: usize) -> Result<bool, Refusal>
    ensures { in_choice_answered result ≡ in_choice_lent full_day day.now plan.now chooser choice }
{
    in_choice_within(FixedLimits::full_day(), day, plan, chooser, choice)
}

#[tactic(auto, using(crate::specs::Laws::asked_chooser, crate::specs::Laws::asked_slot, crate::specs::Laws::choice_unread, crate::specs::Laws::choice_refused, crate::specs::Laws::choice_done))]
fn choice_within(
    fixed: FixedLimits,
    day: &[u8],
    plan: &[u8],
    chooser: usize,
    slot: usize,
) -> Result<u32, Refusal>
    ensures { choice_answered result ≡ choice_lent fixed.limits day.now plan.now chooser slot }
{
    let day = Day::read(day)?;
    let asked = (day.choosers() <= chooser) | (day.slots() <= slot);
    let seats = check_plan(fixed, &day, plan, false, asked)?;
    Ok(u32::from(seats.choice_of(chooser, slot)))
}

// The choice of a chooser in a slot.
pub fn choice_of(day: &[u8], plan: &[u8], chooser: usize, slot: usize) -> Result<u32, Refusal>
    ensures { choice_answered result ≡ choice_lent full_day day.now plan.now chooser slot }
{
    choice_within(FixedLimits::full_day(), day, plan, chooser, slot)
}
