// The verdict on a plan: satisfies_constraints_assignment, and Scoring::is_feasible.
#![tactic(auto, using(crate::specs::Laws::verdict_unread, crate::specs::Laws::verdict_refused, crate::specs::Laws::verdict_given, input_data::specs::ReadLaws::read_ok), unfolding(crate::specs::Calls::assignment_lent, crate::specs::Calls::plan_lent, crate::specs::Calls::verdict_number))]

ghost use Rattle.std.specs.Prelude.{◌≡◌};
ghost use Rattle.input_data.specs.Lengths.{full_day};
ghost use Rattle.scoring.specs.Answered.{verdict_answered};
ghost use Rattle.scoring.specs.Calls.{assignment_lent, plan_lent};

use crate::reading::read_parts;
use input_data::{Day, FixedLimits, NOTHING};
use refusal::Refusal;

fn assignment_within(
    fixed: FixedLimits,
    day: &[u8],
    schedule: &[u8],
    plan: &[u8],
) -> Result<bool, Refusal>
    ensures { verdict_answered result ≡ assignment_lent fixed.limits day.now schedule.now plan.now }
{
    let day = Day::read(day)?;
    let judged = read_parts(fixed, &day, schedule, plan, NOTHING)?;
    Ok(satisfies_constraints::assignment_met(judged.day, &judged.entries, judged.plan))
}

// Whether the plan meets every assignment constraint of the day.
pub fn satisfies_constraints_assignment(
    day: &[u8],
    schedule: &[u8],
    plan: &[u8],
) -> Result<bool, Refusal>
    ensures { verdict_answered result ≡ assignment_lent full_day day.now schedule.now plan.now }
{
    assignment_within(FixedLimits::full_day(), day, schedule, plan)
}

fn plan_within(
    fixed: FixedLimits,
    day: &[u8],
    schedule: &[u8],
    plan: &[u8],
) -> Result<bool, Refusal>
    ensures { verdict_answered result ≡ plan_lent fixed.limits day.now schedule.now plan.now }
{
    let day = Day::read(day)?;
    let judged = read_parts(fixed, &day, schedule, plan, NOTHING)?;
    Ok(judged.is_feasible())
}

// Scoring::is_feasible.
pub fn is_feasible(day: &[u8], schedule: &[u8], plan: &[u8]) -> Result<bool, Refusal>
    ensures { verdict_answered result ≡ plan_lent full_day day.now schedule.now plan.now }
{
    plan_within(FixedLimits::full_day(), day, schedule, plan)
}
