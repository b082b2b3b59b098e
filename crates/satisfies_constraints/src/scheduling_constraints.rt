// The scheduling constraints of a day, tested on a schedule.
ghost use Rattle.std.specs.Prelude.{◌≡◌, suc, ◌<◌, ◌≤◌, length, eqb};
ghost use Rattle.counting.specs.Fold.{count_to};
ghost use Rattle.counting.specs.Holds.{is_of};
ghost use Rattle.scheduling.specs.Schedule.{entry_at};
ghost use Rattle.satisfies_constraints.specs.Constraints.{apart, has_offset, size_of, scheduling_at, scheduling_met};
ghost use Rattle.satisfies_constraints.specs.ByNumber.{size_by_number, meets_schedule, SlotLeft};
ghost use Rattle.satisfies_constraints.specs.Laws.{ScheduleRead};

use input_data::{ConstraintNumbers, Day};
use scheduling::slot_in;

// The entry of a choice, or none.
pub fn entry_of(entries: &[u8; 32], k: usize) -> u8
    ensures { result ≡ entry_at entries.now k }
{
    if k < 32 { entries[k] } else { 0 }
}

// Whether an entry names the slot.
#[tactic(auto, using(crate::specs::Laws::names_slot))]
fn names(entry: u8, slot: usize) -> bool
    ensures { result ≡ eqb entry (suc slot) }
{
    slot_in(entry) == Some(slot)
}

fn are_apart(a: u8, b: u8) -> bool
    ensures { result ≡ apart a b }
{
    (a == 0) | (b == 0) | (a != b)
}

// Right slot minus left slot is the offset, or neither has a slot.
#[tactic(auto, using(counting::specs::Signed::back, scheduling::specs::ScheduleLaws::slot_entry), unfolding(crate::specs::Constraints::has_offset))]
fn has_offset(left: u8, right: u8, offset: i32) -> bool
    ensures { result ≡ has_offset left right offset }
{
    match (slot_in(left), slot_in(right)) {
        (Some(l), Some(r)) => r as i32 - l as i32 == offset,
        (None, None) => true,
        _ => false,
    }
}

// A count against a limit, by the operator's number.
#[tactic(auto, unfolding(crate::specs::ByNumber::size_by_number, counting::specs::Ints::eq_z))]
fn has_size(op: i32, count: usize, limit: usize) -> bool
    ensures { result ≡ size_by_number op count limit }
{
    match op {
        1 => count == limit,
        2 => limit < count,
        3 => limit <= count,
        -1 => count != limit,
        -2 => count <= limit,
        _ => count < limit,
    }
}

// How many choices a slot has.
fn size_of(choices: usize, entries: &[u8; 32], slot: usize) -> usize
    requires { (choices ≤ 32) × (slot < 255) }
    ensures { result ≡ size_of choices entries.now slot }
{
    let want = slot as u8 + 1;
    counting::count_below(choices, |k| entries[k] == want) as usize
}

// The test of one constraint, by its kind's number.
#[tactic(auto, unfolding(crate::specs::ByNumber::meets_schedule))]
fn meets_schedule(choices: usize, entries: &[u8; 32], c: ConstraintNumbers) -> bool
    requires { (choices ≤ 32) × SlotLeft c.kind c.left }
    ensures { result ≡ meets_schedule choices entries.now c.kind c.left c.target c.extra }
{
    let left = c.left as usize;
    let right = c.target as usize;
    let a = entry_of(entries, left);
    let b = entry_of(entries, right);
    match c.kind {
        1 => names(a, right),
        2 => !names(a, right),
        3 => a == b,
        4 => are_apart(a, b),
        5 => has_offset(a, b, c.extra),
        _ => has_size(c.extra, size_of(choices, entries, left), right),
    }
}

// The test of one of the day's constraints. The numbers are read where they lie: those of accepted constraints
// are taken as they stand.
fn scheduling_at(day: &Day, entries: &[u8; 32], j: usize) -> bool
    requires { ScheduleRead day.now × (j < day.now.scheduling.count) }
    ensures { result ≡ scheduling_at day.now.choices entries.now day.now.scheduling j }
{
    meets_schedule(day.choices(), entries, day.scheduling().get(j))
}

// Whether a schedule meets every scheduling constraint of the day.
#[tactic(auto, unfolding(crate::specs::Constraints::scheduling_met))]
pub fn scheduling_met(day: &Day, entries: &[u8; 32]) -> bool
    requires { ScheduleRead day.now }
    ensures { result ≡ scheduling_met day.now entries.now }
{
    counting::all_below(day.scheduling().count(), |j| scheduling_at(day, entries, j))
}
