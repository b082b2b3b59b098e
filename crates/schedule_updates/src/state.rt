// Build and update.
ghost use Rattle.std.specs.Prelude.{◌≡◌, false, length, IfOk, MatchOption};
ghost use Rattle.refusal.specs.Number.{outcome};
ghost use Rattle.input_data.specs.Day.{min_at};
ghost use Rattle.input_data.specs.Lengths.{full_day};
ghost use Rattle.scheduling.specs.Handed.{kept_of};
ghost use Rattle.scheduling.specs.Schedule.{entry_at, bad_slots};
ghost use Rattle.schedule_state.specs.Answered.{state_answered};
ghost use Rattle.schedule_state.specs.Bytes.{state_in};
ghost use Rattle.schedule_state.specs.Calls.{Built, Updated};
ghost use Rattle.schedule_state.specs.State.{state_of};
ghost use Rattle.schedule_updates.specs.Carrying.{build_tested, update_tested};
ghost use Rattle.slot_lists.specs.SumsLaws.{AreSums};
ghost use Rattle.carried_lists.specs.Carried.{ListsCarried};
ghost use Rattle.carried_lists.specs.CarriedLaws.{Carries};
ghost use Rattle.blocks.specs.BlocksLaws.{Blocking};

use blocks::fill_blocks;
use carried_lists::CarriedLists;
use input_data::{Day, FixedLimits};
use refusal::Refusal;
use schedule_state::{AssignmentScheduleState, LentState, beside, check_state};
use scheduling::{Scheduling, bad_slots, kept, read_entries};
use slot_lists::SlotSums;

// Moves the lists, with the sums of the first schedule, to the next one, whose state is made: its blocks are made
// anew. Inlined, so that the 2,112 bytes are made where they are handed back, and not copied at each return.
#[tactic(auto, using(crate::specs::Numbers::state_made))]
#[inline(always)]
fn carry_state<'a>(
    day: &Day,
    last: &'a [u8; 32],
    next: &'a [u8; 32],
    lists: &mut CarriedLists,
) -> AssignmentScheduleState
    requires { Carries day.now.choices last.now next.now day.now.mins lists.old × Blocking day.now.assignment }
    ensures state { result ≡ state_of day.now next.now }
    ensures lists { ListsCarried day.now.choices last.now next.now day.now.mins lists.old lists.new }
{
    lists.carry(day.choices(), last, next, &day.mins());
    let mut state = AssignmentScheduleState {
        schedule: Scheduling { entries: *next },
        covered: lists.sums.covered,
        blocks: [false; 2048],
    };
    fill_blocks(&mut state.blocks, day, next);
    state
}

// Checks 1 to 11 of a build. The schedule's entries, where none applies.
#[tactic(auto, using(crate::specs::Numbers::read_names, input_data::specs::ReadLaws::day_refused, input_data::specs::ReadLaws::day_passed), unfolding(input_data::specs::Checks::first_of))]
fn check_build<'a>(
    fixed: FixedLimits,
    day: &Day,
    schedule: &'a [u8],
    size: usize,
) -> Result<&'a [u8; 32], Refusal>
    ensures number { outcome result ≡ build_tested fixed.limits day.now schedule.now size }
    ensures entries { IfOk result (λ e. e.now ≡ schedule.now) }
{
    let beside = beside(fixed, false, size, false);
    let entries = read_entries(fixed.limits, day, schedule, beside)?;
    if bad_slots(day.choices(), day.slots(), entries) {
        return Err(Refusal::Schedule);
    }
    Ok(entries)
}

// A fresh build within limits: the walk from the schedule in which no choice has a slot.
fn build_within(
    fixed: FixedLimits,
    day: &[u8],
    schedule: &[u8],
    lists: &mut [u8],
) -> Result<AssignmentScheduleState, Refusal>
    ensures { Built fixed.limits day.now schedule.now lists.old lists.new (state_answered result) }
{
    let day = Day::read(day)?;
    let entries = check_build(fixed, &day, schedule, lists.len())?;
    let first = kept(day.choices(), entries);
    let mut lists = CarriedLists {
        bytes: lists,
        stride: fixed.limits.choices,
        sums: &mut SlotSums::none(),
    };
    Ok(carry_state(&day, &[0; 32], &first, &mut lists))
}

// Whether a schedule that is lent beside a day names a slot that the day has not. One of another length names none.
fn names_outside(day: &Day, entries: Option<&[u8; 32]>) -> bool
    ensures { MatchOption entries.entry (result ≡ false) (λ e. result ≡ bad_slots day.now.choices day.now.slots e.now) }
{
    let (choices, slots) = (day.choices(), day.slots());
    entries.is_some_and(|entries| bad_slots(choices, slots, entries))
}

// Checks 1 to 12 of an update. The sums of the state's schedule, and the entries of the next, where none applies.
#[tactic(auto, using(crate::specs::Numbers::state_lengths))]
fn check_update<'a>(
    fixed: FixedLimits,
    day: &Day,
    state: &[u8],
    schedule: &'a [u8],
    lists: &[u8],
) -> Result<(SlotSums, &'a [u8; 32]), Refusal>
    ensures number { outcome result ≡ update_tested fixed.limits day.now state.now schedule.now lists.now }
    ensures sums { IfOk result (λ r. AreSums (min_at day.now) (entry_at (kept_of day.now (state_in state.now).schedule)) day.now.choices r.0) }
    ensures entries { IfOk result (λ r. r.1.now ≡ schedule.now) }
{
    let entries = schedule.as_array::<32>();
    let wrong = (state.len() != 2112) | entries.is_none();
    let tested = beside(fixed, wrong, lists.len(), false);
    let also = names_outside(day, entries);
    let sums = check_state(fixed, day, state, tested, also, lists)?;
    Ok((sums, entries.unwrap()))
}

// An update within limits. The sums of the check are those that are carried.
fn update_within(
    fixed: FixedLimits,
    day: &[u8],
    state: &[u8],
    schedule: &[u8],
    lists: &mut [u8],
) -> Result<AssignmentScheduleState, Refusal>
    ensures { Updated fixed.limits day.now state.now schedule.now lists.old lists.new (state_answered result) }
{
    let day = Day::read(day)?;
    let (mut sums, entries) = check_update(fixed, &day, state, schedule, lists)?;
    let last = LentState::of(state).kept(&day);
    let next = kept(day.choices(), entries);
    let mut lists = CarriedLists {
        bytes: lists,
        stride: fixed.limits.choices,
        sums: &mut sums,
    };
    Ok(carry_state(&day, &last, &next, &mut lists))
}

// A fresh build: choices upward, each appended to its slot's list.
pub fn build(
    day: &[u8],
    schedule: &[u8],
    lists: &mut [u8],
) -> Result<AssignmentScheduleState, Refusal>
    ensures { Built full_day day.now schedule.now lists.old lists.new (state_answered result) }
{
    build_within(FixedLimits::full_day(), day, schedule, lists)
}

// An update: the lists follow the choices that move, the blocks are made anew.
pub fn update(
    day: &[u8],
    state: &[u8],
    schedule: &[u8],
    lists: &mut [u8],
) -> Result<AssignmentScheduleState, Refusal>
    ensures { Updated full_day day.now state.now schedule.now lists.old lists.new (state_answered result) }
{
    update_within(FixedLimits::full_day(), day, state, schedule, lists)
}
