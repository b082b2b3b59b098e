// The sample day of SPEC 13: each row is computed by the library's calls, on lent bytes. What it
// prints is compared with the file stdout.
#![tactic(auto)]

use layouts::{day_of, schedule_of};
use std::io;

mod layouts;
mod lines;
mod models;
mod scores;
mod searches;
mod states;

// Its state, its model, and values for the model's edges.
fn rows_of_day(rt: &HostRuntime, day: &[u8; 2044]) -> io::Result<()> {
    let first = schedule_of(0, 0, 1);
    states::rows_of_build(rt, "choices 0, 1, 2 in slots 0, 0, 1", day, &first)?;
    models::rows_of_model(rt, "model at limit 1", day)?;
    models::rows_of_values(rt, day)?;
    let mut plan = [0; 512];
    models::row_of_edge_six(rt, day, 3, &mut plan)?;
    models::row_of_edge_six(rt, day, 0, &mut plan)
}

// The same with a constraint, with another schedule, and with input that is refused.
fn rows_of_change(rt: &HostRuntime, day: &[u8; 2044]) -> io::Result<()> {
    let tied = day_of(2, 2, 1);
    let moved = schedule_of(1, 0, 1);
    models::rows_of_tied_model(rt, "with ChoosersHaveSameChoices of 0 and 1", &tied)?;
    states::rows_of_update(rt, "choice 0 moved to slot 1", day, &moved)?;
    states::rows_of_build(rt, "that schedule afresh", day, &moved)?;
    states::row_of_refusal(rt, day)?;
    states::rows_of_limits(rt)
}

fn main(rt: HostRuntime) -> io::Result<()> {
    let day = day_of(2, 2, 0);
    rows_of_day(&rt, &day)?;
    rows_of_change(&rt, &day)?;
    searches::rows_of_searches(&rt)?;
    scores::row_of_zeros(&rt)?;
    scores::rows_of_order(&rt)?;
    scores::row_of_best(&rt)?;
    scores::rows_of_negation(&rt)
}
