// The rows on schedule states.
use crate::layouts::{day_of, schedule_of, state_bytes};
use crate::lines::{Listed, Outcome};
use refusal::Refusal;
use schedule_state::{AssignmentScheduleState, StateAnswer};
use std::io;

fn row_of_covered(rt: &HostRuntime, state: AssignmentScheduleState) -> io::Result<()> {
    let covered = state.covered;
    println!(rt; "covered {} {}", covered[0], covered[1])
}

// The list of a slot, as the library hands it back.
fn row_of_list(
    rt: &HostRuntime,
    day: &[u8; 2044],
    state: &[u8; 2112],
    lists: &[u8; 256],
    slot: usize,
) -> io::Result<()> {
    match schedule_updates::try_slot_list(day, state, lists, slot) {
        Ok(list) => println!(rt; "slot {slot}: choices{}", Listed(list)),
        Err(refusal) => println!(rt; "slot {slot}: refused: {refusal}"),
    }
}

// What a call made of a state, with its slot lists.
fn rows_of_state(
    rt: &HostRuntime,
    text: &str,
    day: &[u8; 2044],
    made: Result<AssignmentScheduleState, Refusal>,
    lists: &[u8; 256],
) -> io::Result<()> {
    println!(rt; "{text}: {}", Outcome(&made))?;
    let Ok(state) = made else { return Ok(()) };
    let bytes = state_bytes(state);
    row_of_covered(rt, state)?;
    row_of_list(rt, day, &bytes, lists, 0)?;
    row_of_list(rt, day, &bytes, lists, 1)
}

pub(crate) fn rows_of_build(
    rt: &HostRuntime,
    text: &str,
    day: &[u8; 2044],
    schedule: &[u8; 32],
) -> io::Result<()> {
    let mut lists = [0; 256];
    let made = schedule_updates::build(day, schedule, &mut lists);
    rows_of_state(rt, text, day, made, &lists)
}

// The state of choices 0, 1, 2 in slots 0, 0, 1, as it is lent on, and its slot lists.
pub(crate) fn built(day: &[u8; 2044], lists: &mut [u8]) -> Result<[u8; 2112], Refusal> {
    let state = schedule_updates::build(day, &schedule_of(0, 0, 1), lists)?;
    Ok(state_bytes(state))
}

// That state, carried on to another schedule.
fn updated(
    day: &[u8; 2044],
    schedule: &[u8; 32],
    lists: &mut [u8],
) -> Result<AssignmentScheduleState, Refusal> {
    let state = built(day, lists)?;
    schedule_updates::update(day, &state, schedule, lists)
}

pub(crate) fn rows_of_update(
    rt: &HostRuntime,
    text: &str,
    day: &[u8; 2044],
    schedule: &[u8; 32],
) -> io::Result<()> {
    let mut lists = [0; 256];
    let made = updated(day, schedule, &mut lists);
    rows_of_state(rt, text, day, made, &lists)
}

// A refused call gives its number, and C zeros beside it.
pub(crate) fn row_of_refusal(rt: &HostRuntime, day: &[u8; 2044]) -> io::Result<()> {
    let mut lists = [0; 256];
    let made = schedule_updates::build(day, &schedule_of(0, 0, 2), &mut lists);
    print!(rt;
        "choice 2 in slot 2, which the day has not: {}, ",
        Outcome(&made)
    )?;
    row_of_covered(rt, StateAnswer::from(made).state)
}

// Whether a build takes a day of so many choosers and this max_preference.
fn row_of_limit(
    rt: &HostRuntime,
    text: &str,
    choosers: u32,
    max_preference: u32,
) -> io::Result<()> {
    let day = day_of(choosers, max_preference, 0);
    let mut lists = [0; 256];
    let made = schedule_updates::build(&day, &schedule_of(0, 0, 1), &mut lists);
    println!(rt; "{text}: {}", Outcome(&made))
}

pub(crate) fn rows_of_limits(rt: &HostRuntime) -> io::Result<()> {
    row_of_limit(rt, "64 choosers", 64, 2)?;
    row_of_limit(rt, "65 choosers", 65, 2)?;
    row_of_limit(rt, "max_preference 255", 2, 255)?;
    row_of_limit(rt, "max_preference 256", 2, 256)
}
