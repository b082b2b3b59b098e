// The entries over the schedule state.
ghost use Rattle.std.specs.Prelude.{◌≡◌};
ghost use Rattle.input_data.specs.Lengths.{full_day};
ghost use Rattle.schedule_state.specs.Calls.{Built, Updated, slot_list_answer};

use schedule_state::{SlotListAnswer, StateAnswer};

#[unsafe(no_mangle)]
pub extern "C" fn cendravoka_build(day: &[u8], schedule: &[u8], lists: &mut [u8]) -> StateAnswer
    ensures { Built full_day day.now schedule.now lists.old lists.new result }
{
    schedule_updates::build(day, schedule, lists).into()
}

#[unsafe(no_mangle)]
pub extern "C" fn cendravoka_update(
    day: &[u8],
    state: &[u8],
    schedule: &[u8],
    lists: &mut [u8],
) -> StateAnswer
    ensures { Updated full_day day.now state.now schedule.now lists.old lists.new result }
{
    schedule_updates::update(day, state, schedule, lists).into()
}

// Where a slot's list stands in the lent buffer: a part of it cannot be returned to C.
#[unsafe(no_mangle)]
pub extern "C" fn cendravoka_slot_list(
    day: &[u8],
    state: &[u8],
    lists: &[u8],
    slot: usize,
) -> SlotListAnswer
    ensures { result ≡ slot_list_answer full_day day.now state.now slot lists.now }
{
    schedule_updates::slot_list_part(day, state, lists, slot).into()
}
