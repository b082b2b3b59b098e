// The checks of a call that is handed a state.
ghost use Rattle.std.specs.Prelude.{◌≡◌, length};
ghost use Rattle.input_data.specs.Bytes.{wider};
ghost use Rattle.schedule_state.specs.Bytes.{state_in};
ghost use Rattle.schedule_state.specs.Calls.{beside_lists};
ghost use Rattle.schedule_state.specs.Good.{Handed, Found};

use crate::checks::is_inconsistent;
use crate::state::LentState;
use day_checks::check_day;
use input_data::{Beside, Day, FixedLimits, NOTHING};
use refusal::Refusal;
use slot_lists::{SlotSums, weigh};

// What these calls test beside the day. `wrong`: something else that is lent as bytes has not its length.
pub fn beside(fixed: FixedLimits, wrong: bool, size: usize, asked: bool) -> Beside
    ensures { result ≡ wider wrong (beside_lists fixed.limits size asked) }
{
    Beside {
        bad_lengths: wrong | (size < fixed.lists_length()),
        bad_asked: asked,
        ..NOTHING
    }
}

// Checks 1 to 12, with what else the call tests; `also`: it is handed another schedule, which names a
// slot that the day has not. The sums of the state's schedule, where none applies.
pub fn check_state(
    fixed: FixedLimits,
    day: &Day,
    state: &[u8],
    beside: Beside,
    also: bool,
    lists: &[u8],
) -> Result<SlotSums, Refusal>
    requires { Handed fixed.limits beside state.now (length lists.now) }
    ensures { Found fixed.limits day.now (state_in state.now) beside also lists.now result }
{
    check_day(fixed.limits, day, beside)?;
    let state = LentState::of(state);
    if also | state.names_outside(day) {
        return Err(Refusal::Schedule);
    }
    let entries = state.kept(day);
    let sums = weigh(&entries, &day.mins(), day.choices());
    if is_inconsistent(fixed, day, &state, &entries, &sums, lists) {
        return Err(Refusal::State);
    }
    Ok(sums)
}
