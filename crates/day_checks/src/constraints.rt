// Checks 8 and 9, of lists of constraints, by the kinds' numbers.
ghost use Rattle.std.specs.Prelude.{◌≡◌, ◌&&◌, ◌||◌, true, ltb, eqb};
ghost use Rattle.std.specs.Option.{option_map_or};
ghost use Rattle.input_data.specs.Checks.{bad_kinds};
ghost use Rattle.input_data.specs.ByNumber.{extra_by_number, scheduling_by_number, assignment_by_number, bad_scheduling, bad_assignment};

use constraint::ConstraintExtra;
use counting::any_of;
use input_data::{ConstraintNumbers, Constraints, Day};

// 8.
pub fn bad_kinds(least: u32, most: u32, list: &Constraints) -> bool
    ensures { result ≡ bad_kinds least most list.now }
{
    any_of::<32, _>(list.count(), |i| {
        let kind = list.get(i).kind;
        (kind < least) | (most < kind)
    })
}

// Whether the operands are those of a kind: the left one below `left`, the target of this case and below `target`,
// or any number where there is none.
fn operands_fit(c: ConstraintNumbers, left: usize, case: u32, target: Option<usize>) -> bool
    ensures { result ≡ (ltb c.left left && (eqb c.target_case case && option_map_or (ltb c.target) target true)) }
{
    let inside = target.map_or(true, |n| (c.target as usize) < n);
    ((c.left as usize) < left) & ((c.target_case == case) & inside)
}

// Whether the extra is of the case that a scheduling constraint's kind reads.
fn extra_fits(c: ConstraintNumbers) -> bool
    ensures { result ≡ extra_by_number c }
{
    c.kind < 5 || ConstraintExtra::of(c.extra_case, c.extra).case() == c.kind - 4
}

// 9, of a scheduling constraint: 6 limits a slot's size, 1 and 2 have a slot as their target.
fn scheduling_fits(choices: usize, slots: usize, c: ConstraintNumbers) -> bool
    ensures { result ≡ scheduling_by_number choices slots c }
{
    let (left, case, target) = if c.kind == 6 {
        (slots, 4, None)
    } else if c.kind < 3 {
        (choices, 1, Some(slots))
    } else {
        (choices, 2, Some(choices))
    };
    operands_fit(c, left, case, target) & extra_fits(c)
}

// 9, of an assignment constraint: 65536 has a choice on the left, 65539 a chooser as its target.
fn assignment_fits(choosers: usize, choices: usize, c: ConstraintNumbers) -> bool
    ensures { result ≡ assignment_by_number choosers choices c }
{
    let tied = c.kind == 65539;
    let left = if c.kind == 65536 { choices } else { choosers };
    let target = if tied { choosers } else { choices };
    let case = if tied { 3 } else { 2 };
    operands_fit(c, left, case, Some(target))
}

// 9, where 8 applies to neither list.
pub fn bad_operands(day: &Day) -> bool
    ensures { result ≡ (bad_scheduling day.now.choices day.now.slots day.now.scheduling || bad_assignment day.now.choosers day.now.choices day.now.assignment) }
{
    let (choosers, choices, slots) = (day.choosers(), day.choices(), day.slots());
    let scheduling = day.scheduling();
    let assignment = day.assignment();
    any_of::<32, _>(
        scheduling.count(),
        |i| !scheduling_fits(choices, slots, scheduling.get(i)),
    ) | any_of::<32, _>(
        assignment.count(),
        |i| !assignment_fits(choosers, choices, assignment.get(i)),
    )
}
