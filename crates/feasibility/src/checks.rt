// What the calls test of a schedule and of a plan beside it: 11 and 13.
ghost use Rattle.std.specs.Prelude.{◌≡◌, true, length};
ghost use Rattle.refusal.specs.Number.{outcome};
ghost use Rattle.input_data.specs.Checks.{first_of};
ghost use Rattle.scheduling.specs.Handed.{schedule_of, outside};
ghost use Rattle.feasibility.specs.Checks.{parts_number};
ghost use Rattle.feasibility.specs.Laws.{Parted};

use input_data::Day;
use refusal::Refusal;

// 11.
#[tactic(auto, unfolding(input_data::specs::Checks::first_of))]
pub fn check_schedule(day: &Day, schedule: &[u8; 32]) -> Result<(), Refusal>
    ensures { outcome result ≡ first_of (outside day.now (schedule_of schedule.now)) 11 0 }
{
    if scheduling::bad_slots(day.choices(), day.slots(), schedule) {
        return Err(Refusal::Schedule);
    }
    Ok(())
}

// 11 and 13.
#[tactic(auto, unfolding(crate::specs::Checks::parts_number, input_data::specs::Checks::first_of))]
pub fn check_parts(day: &Day, schedule: &[u8; 32], plan: &[u8]) -> Result<(), Refusal>
    requires { Parted day.now (length plan.now) }
    ensures { outcome result ≡ parts_number true true day.now (schedule_of schedule.now) plan.now }
{
    check_schedule(day, schedule)?;
    if assignment::bad_plan_for(day.choices(), day.seats(), schedule, plan) {
        return Err(Refusal::Plan);
    }
    Ok(())
}
