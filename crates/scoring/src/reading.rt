// A schedule and a plan that a call is handed, read where they pass its tests.
ghost use Rattle.std.specs.Prelude.{◌≡◌, IfOk};
ghost use Rattle.refusal.specs.Number.{outcome};
ghost use Rattle.scheduling.specs.Handed.{schedule_of, kept_of};
ghost use Rattle.feasibility.specs.Laws.{Schedulable};
ghost use Rattle.scoring.specs.Handed.{schedule_handed, parts_handed};

use feasibility::{JudgedPlan, check_parts, check_schedule};
use input_data::{Beside, Day, FixedLimits};
use refusal::Refusal;
use scheduling::{kept, read_entries};

// A schedule as it is handed back, where 1 to 11 do not apply.
#[tactic(auto, using(input_data::specs::ReadLaws::day_refused, input_data::specs::ReadLaws::day_passed, crate::specs::Laws::schedule_accepted))]
#[inline]
pub fn read_schedule(
    fixed: FixedLimits,
    day: &Day,
    schedule: &[u8],
    beside: Beside,
) -> Result<[u8; 32], Refusal>
    ensures number { outcome result ≡ schedule_handed fixed.limits day.now schedule.now beside }
    ensures kept { IfOk result (λ e. (e ≡ kept_of day.now (schedule_of schedule.now)) × Schedulable day.now e) }
{
    let entries = read_entries(fixed.limits, day, schedule, beside)?;
    check_schedule(day, entries)?;
    Ok(kept(day.choices(), entries))
}

// The same beside a plan, where 13 does not apply either.
#[tactic(auto, using(input_data::specs::ReadLaws::day_refused, input_data::specs::ReadLaws::day_passed, crate::specs::Laws::parts_accepted, crate::specs::Laws::parted))]
#[inline]
pub fn read_parts<'a>(
    fixed: FixedLimits,
    day: &'a Day<'a>,
    schedule: &[u8],
    plan: &'a [u8],
    beside: Beside,
) -> Result<JudgedPlan<'a>, Refusal>
    ensures number { outcome result ≡ parts_handed fixed.limits day.now schedule.now plan.now beside }
    ensures parts { IfOk result (λ p. (p.day.now ≡ day.now) × (p.entries ≡ kept_of day.now (schedule_of schedule.now)) × (p.plan.now ≡ plan.now)) }
{
    let bad_lengths = (plan.len() != fixed.plan_length()) | beside.bad_lengths;
    let beside = Beside {
        bad_lengths,
        ..beside
    };
    let entries = read_entries(fixed.limits, day, schedule, beside)?;
    check_parts(day, entries, plan)?;
    let entries = kept(day.choices(), entries);
    Ok(JudgedPlan { day, entries, plan })
}
