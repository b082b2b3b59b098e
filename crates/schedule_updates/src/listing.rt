// The list of a slot, as a part of the lent buffer.
ghost use Rattle.std.specs.Prelude.{◌≡◌};
ghost use Rattle.input_data.specs.Lengths.{full_day};
ghost use Rattle.schedule_state.specs.Answered.{list_answered};
ghost use Rattle.schedule_state.specs.Calls.{slot_list_answer, slot_list_lent, HandsBack};
ghost use Rattle.schedule_updates.specs.Listing.{ListFound, Listed};

use input_data::{Day, FixedLimits};
use refusal::Refusal;
use schedule_state::{SlotListAnswer, SlotListPart, beside, check_state};
use slot_lists::SlotSums;

// Checks 1 to 12. The sums of the state's schedule, where none applies.
fn check_list(
    fixed: FixedLimits,
    day: &Day,
    state: &[u8],
    lists: &[u8],
    slot: usize,
) -> Result<SlotSums, Refusal>
    ensures { ListFound fixed.limits day.now state.now slot lists.now result }
{
    let asked = day.slots() <= slot;
    let tested = beside(fixed, state.len() != 2112, lists.len(), asked);
    check_state(fixed, day, state, tested, false, lists)
}

#[tactic(auto, using(crate::specs::Numbers::slot_few, crate::specs::Numbers::list_finds))]
fn part_within(
    fixed: FixedLimits,
    day: &[u8],
    state: &[u8],
    lists: &[u8],
    slot: usize,
) -> Result<SlotListPart, Refusal>
    ensures { list_answered result ≡ slot_list_answer fixed.limits day.now state.now slot lists.now }
{
    let day = Day::read(day)?;
    let sums = check_list(fixed, &day, state, lists, slot)?;
    Ok(SlotListPart {
        start: fixed.limits.choices * slot,
        length: sums.lens[slot] as usize,
    })
}

// Where a slot's list stands in the caller's buffer.
pub fn slot_list_part(
    day: &[u8],
    state: &[u8],
    lists: &[u8],
    slot: usize,
) -> Result<SlotListPart, Refusal>
    ensures { list_answered result ≡ slot_list_answer full_day day.now state.now slot lists.now }
{
    part_within(FixedLimits::full_day(), day, state, lists, slot)
}

// A slot's list: the used front of its part of the caller's buffer.
pub fn try_slot_list<'a>(
    day: &[u8],
    state: &[u8],
    lists: &'a [u8],
    slot: usize,
) -> Result<&'a [u8], Refusal>
    ensures { Listed full_day day.now state.now slot lists.entry result }
{
    let part = slot_list_part(day, state, lists, slot)?;
    Ok(&lists[part.start..part.start + part.length])
}

// The same without a refusal: where the call is refused, the empty front of the buffer.
pub fn slot_list<'a>(day: &[u8], state: &[u8], lists: &'a [u8], slot: usize) -> &'a [u8]
    ensures { HandsBack full_day day.now state.now slot lists.entry result }
{
    let answer = SlotListAnswer::from(slot_list_part(day, state, lists, slot));
    &lists[answer.start..answer.start + answer.length]
}

// The number that goes with it.
#[tactic(auto, using(crate::specs::Numbers::list_number_lem))]
pub fn slot_list_number(day: &[u8], state: &[u8], lists: &[u8], slot: usize) -> u32
    ensures { result ≡ slot_list_lent full_day day.now state.now slot lists.now }
{
    SlotListAnswer::from(slot_list_part(day, state, lists, slot)).number
}
