// The assignment constraints of a day, tested on a schedule and a plan.
ghost use Rattle.std.specs.Prelude.{◌≡◌, ◌<◌};
ghost use Rattle.input_data.specs.Accepted.{AcceptedList};
ghost use Rattle.satisfies_constraints.specs.Constraints.{times_in, same_choosers, same_choices, assignment_at, assignment_met};
ghost use Rattle.satisfies_constraints.specs.ByNumber.{meets_plan, OperandsIn};
ghost use Rattle.satisfies_constraints.specs.Laws.{PlanRead};

use crate::scheduling_constraints::entry_of;
use assignment::Seats;
use input_data::{ConstraintNumbers, Constraints, Day};

// How often a chooser has a choice. The count has 32 bits: of a row's few seats, a count in bytes takes longer.
#[tactic(auto, using(assignment::specs::Inside::row_in), unfolding(crate::specs::Constraints::times_in))]
fn times_in(seats: &Seats, chooser: usize, choice: usize) -> u32
    requires { chooser < seats.now.choosers }
    ensures { result ≡ times_in seats.now.slots seats.now.plan.now chooser choice }
{
    let base = chooser * seats.slots;
    let mut times = 0;
    for s in 0..seats.slots {
        times += u32::from(seats.plan[base + s] as usize == choice);
    }
    times
}

// Whether two choices have the same choosers, each as often.
#[tactic(auto, unfolding(crate::specs::Constraints::same_choosers))]
fn same_choosers(seats: &Seats, a: usize, b: usize) -> bool
    ensures { result ≡ same_choosers seats.now.choosers seats.now.slots seats.now.plan.now a b }
{
    counting::all_below(
        seats.choosers,
        |c| times_in(seats, c, a) == times_in(seats, c, b),
    )
}

// Whether two choosers have the same choices, each as often.
#[tactic(auto, unfolding(crate::specs::Constraints::same_choices))]
fn same_choices(seats: &Seats, a: usize, b: usize) -> bool
    requires { (a < seats.now.choosers) × (b < seats.now.choosers) }
    ensures { result ≡ same_choices seats.now.choices seats.now.slots seats.now.plan.now a b }
{
    counting::all_below(
        seats.choices,
        |k| times_in(seats, a, k) == times_in(seats, b, k),
    )
}

// The test of one constraint, by its kind's number.
#[tactic(auto, unfolding(crate::specs::ByNumber::meets_plan))]
fn meets(seats: &Seats, entries: &[u8; 32], c: ConstraintNumbers) -> bool
    requires { OperandsIn seats.now.choosers c.kind c.left c.target }
    ensures { result ≡ meets_plan seats.now.choosers seats.now.choices seats.now.slots entries.now seats.now.plan.now c.kind c.left c.target }
{
    let left = c.left as usize;
    let right = c.target as usize;
    let scheduled = entry_of(entries, right) != 0;
    match c.kind {
        65536 => {
            !((entry_of(entries, left) != 0) & scheduled) || same_choosers(seats, left, right)
        }
        65537 => !scheduled | seats.is_in_choice(left, right),
        65538 => !seats.is_in_choice(left, right),
        _ => same_choices(seats, left, right),
    }
}

// The test of one of the constraints of an accepted list.
#[tactic(auto, using(crate::specs::ByNumber::operands_in, crate::specs::ByNumber::plan_numbers))]
fn meets_at(seats: &Seats, entries: &[u8; 32], list: &Constraints, j: usize) -> bool
    requires { AcceptedList seats.now.choosers seats.now.choices seats.now.slots 65536 65539 list.now × (j < list.now.count) }
    ensures { result ≡ assignment_at seats.now.choosers seats.now.choices seats.now.slots entries.now seats.now.plan.now list.now j }
{
    meets(seats, entries, list.get(j))
}

// Whether a plan meets every assignment constraint of the day.
#[tactic(auto, unfolding(crate::specs::Constraints::assignment_met))]
pub fn assignment_met(day: &Day, entries: &[u8; 32], plan: &[u8]) -> bool
    requires { PlanRead day.now plan.now }
    ensures { result ≡ assignment_met day.now entries.now plan.now }
{
    let seats = Seats::of(day, plan);
    let list = day.assignment();
    counting::all_below(list.count(), |j| meets_at(&seats, entries, &list, j))
}
