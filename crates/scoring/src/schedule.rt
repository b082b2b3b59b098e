// The verdict on a schedule: satisfies_constraints_scheduling, and Scheduling::is_feasible.
#![tactic(auto, using(crate::specs::Laws::verdict_unread, crate::specs::Laws::verdict_refused, crate::specs::Laws::verdict_given, input_data::specs::ReadLaws::read_ok), unfolding(crate::specs::Calls::scheduling_lent, crate::specs::Calls::schedule_lent, crate::specs::Calls::schedule_number))]

ghost use Rattle.std.specs.Prelude.{◌≡◌};
ghost use Rattle.input_data.specs.Lengths.{full_day};
ghost use Rattle.scoring.specs.Answered.{verdict_answered};
ghost use Rattle.scoring.specs.Calls.{scheduling_lent, schedule_lent};

use crate::reading::read_schedule;
use input_data::{Day, FixedLimits, NOTHING};
use refusal::Refusal;

fn scheduling_within(fixed: FixedLimits, day: &[u8], schedule: &[u8]) -> Result<bool, Refusal>
    ensures { verdict_answered result ≡ scheduling_lent fixed.limits day.now schedule.now }
{
    let day = Day::read(day)?;
    let entries = read_schedule(fixed, &day, schedule, NOTHING)?;
    Ok(satisfies_constraints::scheduling_met(&day, &entries))
}

// Whether the schedule meets every scheduling constraint of the day.
pub fn satisfies_constraints_scheduling(day: &[u8], schedule: &[u8]) -> Result<bool, Refusal>
    ensures { verdict_answered result ≡ scheduling_lent full_day day.now schedule.now }
{
    scheduling_within(FixedLimits::full_day(), day, schedule)
}

fn schedule_within(fixed: FixedLimits, day: &[u8], schedule: &[u8]) -> Result<bool, Refusal>
    ensures { verdict_answered result ≡ schedule_lent fixed.limits day.now schedule.now }
{
    let day = Day::read(day)?;
    let entries = read_schedule(fixed, &day, schedule, NOTHING)?;
    Ok(feasibility::schedule_holds(&day, &entries))
}

// Scheduling::is_feasible.
pub fn schedule_is_feasible(day: &[u8], schedule: &[u8]) -> Result<bool, Refusal>
    ensures { verdict_answered result ≡ schedule_lent full_day day.now schedule.now }
{
    schedule_within(FixedLimits::full_day(), day, schedule)
}
