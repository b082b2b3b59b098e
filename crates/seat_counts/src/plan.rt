// The seats of a plan: no chooser in a slot twice, and every scheduled choice filled.
ghost use Rattle.std.specs.Prelude.{◌≡◌, ◌≤◌};
ghost use Rattle.assignment.specs.Calls.{seats};
ghost use Rattle.scheduling.specs.Schedule.{entry_at};
ghost use Rattle.seat_counts.specs.Seats.{once_each, none_twice, all_filled};
ghost use Rattle.seat_counts.specs.Laws.{RowSeated, Seated, Choices, Parts};

use input_data::Day;
use scheduling::slot_in;

// Whether no slot has this chooser twice: a mark for each slot that one of its seats is in.
#[tactic(auto, using(counting::specs::FoldLaws::fold_none, crate::specs::Laws::marked_none))]
fn once_each(slots: usize, entries: &[u8; 32], plan: &[u8], chooser: usize) -> bool
    requires { RowSeated slots entries.now plan.now chooser }
    ensures { result ≡ once_each slots entries.now plan.now chooser }
{
    let base = chooser * slots;
    let mut marks = [false; 8];
    let mut once = true;
    for k in &plan[base..base + slots] {
        let slot = slot_in(entries[*k as usize]).unwrap();
        once &= !marks[slot];
        marks[slot] = true;
    }
    once
}

// Whether no slot has a chooser twice, of all choosers.
#[tactic(auto, using(crate::specs::Laws::row_seated), unfolding(crate::specs::Seats::none_twice))]
pub fn none_twice(day: &Day, entries: &[u8; 32], plan: &[u8]) -> bool
    requires { Seated day.now.choosers day.now.slots entries.now plan.now }
    ensures { result ≡ none_twice day.now.choosers day.now.slots entries.now plan.now }
{
    let slots = day.slots();
    counting::all_below(day.choosers(), |c| once_each(slots, entries, plan, c))
}

// How many seats each choice has.
pub fn part_counts(day: &Day, plan: &[u8]) -> [u32; 32]
    requires { Choices (seats day.now) plan.now }
    ensures { Parts (seats day.now) plan.now result }
{
    let mut counts = [0u32; 32];
    for k in &plan[..day.seats()] {
        counts[*k as usize] += 1;
    }
    counts
}

// Whether every scheduled choice has from min to max seats.
#[tactic(auto, unfolding(crate::specs::Seats::all_filled))]
pub fn all_filled(day: &Day, entries: &[u8; 32], counts: &[u32; 32]) -> bool
    requires { day.now.choices ≤ 32 }
    ensures { result ≡ all_filled day.now.choices entries.now day.now.mins day.now.maxs (entry_at counts.now) }
{
    counting::all_below(day.choices(), |k| {
        (entries[k] == 0) | ((day.min(k) <= counts[k]) & (counts[k] <= day.max(k)))
    })
}
