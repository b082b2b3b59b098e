// Kinds, targets and extras by their numbers alone: what the types of constraint.rs say of them, by a few comparisons.
// Through these types a negation took 52 ns where the Rust's takes 20; so it is level with that.
ghost use Rattle.std.specs.Prelude.{◌≡◌, ◌<◌, ◌≤◌};
ghost use Rattle.constraint.specs.Kind.{kind_of, kind_number};
ghost use Rattle.constraint.specs.Cases.{operator_of, extra_operand};
ghost use Rattle.constraint.specs.Negation.{negated_kind};
ghost use Rattle.constraint.specs.Numbers.{is_target, is_operator, has_operator, has_extra, negated_extra};

use crate::CONSTRAINT_TYPE_DISCRIMINATION_LIMIT;

// A half of the kinds stands apart, so that the compiler makes a table of each: of one match on both it makes jumps,
// which take half as long again.
#[tactic(auto, unfolding(crate::specs::Kind::kind_of))]
fn negated_scheduling(kind: u32) -> u32
    requires { kind < 65536 }
    ensures { result ≡ kind_number (negated_kind (kind_of kind)) }
{
    match kind {
        1 => 2,
        2 => 1,
        3 => 4,
        4 => 3,
        6 => 6,
        7 => 8,
        8 => 7,
        _ => 0,
    }
}

#[tactic(auto, unfolding(crate::specs::Kind::kind_of))]
fn negated_assignment(kind: u32) -> u32
    requires { 65536 ≤ kind }
    ensures { result ≡ kind_number (negated_kind (kind_of kind)) }
{
    match kind {
        65537 => 65538,
        65538 => 65537,
        65540 => 65541,
        65541 => 65540,
        _ => 0,
    }
}

// The number of a kind's negation.
pub fn negated_kind(kind: u32) -> u32
    ensures { result ≡ kind_number (negated_kind (kind_of kind)) }
{
    if kind < CONSTRAINT_TYPE_DISCRIMINATION_LIMIT {
        return negated_scheduling(kind);
    }
    negated_assignment(kind)
}

// Whether a case has a target.
pub fn is_target(case: u32) -> bool
    ensures { result ≡ is_target case }
{
    (0 < case) & (case < 5)
}

fn is_operator(number: i32) -> bool
    ensures { result ≡ is_operator number }
{
    (number != 0) & (-4 < number) & (number < 4)
}

// Whether an extra is an operator.
pub fn has_operator(case: u32, operand: i32) -> bool
    ensures { result ≡ has_operator case operand }
{
    (case == 2) & is_operator(operand)
}

// Whether there is an extra: an offset or an operator.
pub fn has_extra(case: u32, operand: i32) -> bool
    ensures { result ≡ has_extra case operand }
{
    (case == 1) | has_operator(case, operand)
}

// The number of an operator's negation; 0 for a number that is no operator.
#[tactic(auto, unfolding(crate::specs::Cases::operator_of, counting::specs::Ints::eq_z))]
pub fn negated_operator(number: i32) -> i32
    ensures { result ≡ extra_operand (negated_extra (operator_of number)) }
{
    match number {
        1 => -1,
        2 => -2,
        3 => -3,
        -1 => 1,
        -2 => 2,
        -3 => 3,
        _ => 0,
    }
}
