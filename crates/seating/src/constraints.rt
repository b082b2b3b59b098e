// The entries over constraint.rs.
ghost use Rattle.std.specs.Prelude.{◌≡◌, cond, pos};
ghost use Rattle.refusal.specs.Number.{number};
ghost use Rattle.constraint.specs.Kind.{kind_of, is_valid, is_scheduling, is_assignment};
ghost use Rattle.constraint.specs.Negation.{negation_of, constraint_of};
ghost use Rattle.seating.specs.Constraints.{negation_numbers, refused_numbers, negated_numbers};

use constraint::{ConstraintType, numbers};
use refusal::Refusal;

#[repr(C)]
#[derive(Clone, Copy, Debug)]
pub struct NegationNumbers {
    pub number: u32,
    pub kind: u32,
    pub left: u32,
    pub target_case: u32,
    pub target: u32,
    pub extra_case: u32,
    pub extra: i32,
}

fn refuse(refusal: Refusal) -> NegationNumbers
    ensures { result ≡ refused_numbers (number refusal) }
{
    NegationNumbers {
        number: u32::from(refusal),
        kind: 0,
        left: 0,
        target_case: 0,
        target: 0,
        extra_case: 0,
        extra: 0,
    }
}

// What is kept where the test holds; elsewhere zero.
fn keep<T: Copy>(test: bool, n: T, zero: T) -> T
    ensures { result ≡ cond test n zero }
{
    if test { n } else { zero }
}

// A negation: the kind and the extra are new, and left and target are kept.
fn negated_with(
    kind: u32,
    left: u32,
    target_case: u32,
    target: u32,
    extra_case: u32,
    extra: i32,
) -> NegationNumbers
    ensures { result ≡ negated_numbers kind left target_case target extra_case extra }
{
    let there = numbers::is_target(target_case);
    NegationNumbers {
        number: 0,
        kind,
        left,
        target_case: keep(there, target_case, 0),
        target: keep(there, target, 0),
        extra_case,
        extra,
    }
}

#[unsafe(no_mangle)]
pub extern "C" fn cendravoka_negation(
    kind: u32,
    left: u32,
    target_case: u32,
    target: u32,
    extra_case: u32,
    extra: i32,
) -> NegationNumbers
    ensures { result ≡ negation_numbers (negation_of (constraint_of kind left target_case target extra_case extra)) }
{
    if kind == 6 {
        if numbers::has_operator(extra_case, extra) {
            let operator = numbers::negated_operator(extra);
            return negated_with(6, left, target_case, target, 2, operator);
        }
        return refuse(Refusal::Operands);
    }
    let there = numbers::has_extra(extra_case, extra);
    negated_with(
        numbers::negated_kind(kind),
        left,
        target_case,
        target,
        keep(there, extra_case, 0),
        keep(there, extra, 0),
    )
}

#[unsafe(no_mangle)]
pub extern "C" fn cendravoka_is_valid(kind: u32) -> bool
    ensures { result ≡ is_valid (kind_of kind) }
{
    ConstraintType::from(kind).is_valid()
}

#[unsafe(no_mangle)]
pub extern "C" fn cendravoka_is_scheduling_constraint(kind: u32) -> bool
    ensures { result ≡ is_scheduling (kind_of kind) }
{
    ConstraintType::from(kind).is_scheduling_constraint()
}

#[unsafe(no_mangle)]
pub extern "C" fn cendravoka_is_assignment_constraint(kind: u32) -> bool
    ensures { result ≡ is_assignment (kind_of kind) }
{
    ConstraintType::from(kind).is_assignment_constraint()
}
