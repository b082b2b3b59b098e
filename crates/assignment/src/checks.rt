// Check 13, and the checks of a call that is handed a plan.
ghost use Rattle.std.specs.Prelude.{◌≡◌, ◌≤◌, length, true, ◌&&◌, IfOk};
ghost use Rattle.refusal.specs.Number.{outcome};
ghost use Rattle.assignment.specs.Plan.{bad_plan, bad_plan_for, kept_plan};
ghost use Rattle.assignment.specs.Rows.{SeatsOf};
ghost use Rattle.assignment.specs.Calls.{plan_number, seats};

use crate::rows::Seats;
use counting::{any_below, front};
use day_checks::check_day;
use input_data::{Beside, Day, FixedLimits, NOTHING};
use refusal::Refusal;

// 13, without a schedule.
#[tactic(auto, unfolding(crate::specs::Plan::bad_plan))]
fn bad_plan(day: &Day, plan: &[u8]) -> bool
    requires { seats day.now ≤ length plan.now }
    ensures { result ≡ bad_plan day.now.choices (seats day.now) plan.now }
{
    let choices = day.choices();
    any_below(day.seats(), |i| choices <= plan[i] as usize)
}

// 13, beside a schedule: an entry is no choice, or one without a slot.
#[tactic(auto, unfolding(crate::specs::Plan::bad_plan_for))]
pub fn bad_plan_for(choices: usize, seats: usize, entries: &[u8; 32], plan: &[u8]) -> bool
    requires { (choices ≤ 32) × (seats ≤ length plan.now) }
    ensures { result ≡ bad_plan_for choices seats entries.now plan.now }
{
    any_below(seats, |i| {
        let k = plan[i] as usize;
        choices <= k || entries[k] == 0
    })
}

// The plan as it is handed back: 0 past the last seat.
pub fn kept_plan(seats: usize, plan: &[u8]) -> [u8; 512]
    requires { seats ≤ length plan.now }
    ensures { result ≡ kept_plan seats plan.now }
{
    front(plan, seats)
}

// The seats of a plan that is accepted. `short`: the roster that the call is lent is too short.
#[tactic(auto, using(crate::specs::Laws::plan_accepted, crate::specs::Laws::plan_inside, input_data::specs::ReadLaws::day_refused, input_data::specs::ReadLaws::day_passed), unfolding(crate::specs::Calls::plan_number, input_data::specs::Checks::first_of))]
pub fn check_plan<'a>(
    fixed: FixedLimits,
    day: &Day,
    plan: &'a [u8],
    short: bool,
    asked: bool,
) -> Result<Seats<'a>, Refusal>
    ensures number { outcome result ≡ plan_number fixed.limits day.now plan.now short asked }
    ensures seats { IfOk result (λ s. SeatsOf day.now plan.now s) }
{
    let beside = Beside {
        bad_lengths: (plan.len() != fixed.plan_length()) | short,
        bad_asked: asked,
        ..NOTHING
    };
    check_day(fixed.limits, day, beside)?;
    if bad_plan(day, plan) {
        return Err(Refusal::Plan);
    }
    Ok(Seats::of(day, plan))
}
