// The test of a call's input before values are looked at.
ghost use Rattle.flow_model.specs.Entering.{InputFound};

use day_checks::{bad_costs, bad_preferences};
use input_data::{Beside, Day, FixedLimits, NOTHING, too_many};
use model_buffers::{Lengths, LentInput, short_buffers, wrong_tables};
use refusal::Refusal;
use schedule_state::check_state;
use slot_lists::SlotSums;

// The sums of the state's schedule, where the input is accepted. `short`: another buffer that the call
// is lent is too short.
#[tactic(auto, unfolding(schedule_state::specs::Calls::state_number, input_data::specs::Checks::day_number, input_data::specs::Checks::first_of))]
pub fn check_input(
    fixed: FixedLimits,
    day: &Day,
    state: &[u8],
    input: &LentInput,
    lengths: Lengths,
    short: bool,
) -> Result<SlotSums, Refusal>
    ensures { InputFound fixed.limits day.now state.now input.now lengths short result }
{
    // Sizes come first: of a day that has too many no table is looked at, however long it is.
    if too_many(fixed.limits, day.choosers(), day.choices(), day.slots()) {
        return Err(Refusal::TooMany);
    }
    let lists_short = input.lists.len() < fixed.lists_length();
    let own = wrong_tables(day, input) | lists_short | short_buffers(fixed, lengths) | short;
    let beside = Beside {
        bad_lengths: (state.len() != 2112) | own,
        bad_preferences: bad_preferences(day.max_preference(), input.preferences),
        bad_costs: bad_costs(input.costs),
        ..NOTHING
    };
    check_state(fixed, day, state, beside, false, input.lists)
}
