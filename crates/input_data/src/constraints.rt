// A day's list of constraints, and the constraint that numbers stand for.
ghost use Rattle.std.specs.Prelude.{◌≡◌, ◌<◌, ◌≤◌, ◌+◌, length};
ghost use Rattle.input_data.specs.Bytes.{list_in};
ghost use Rattle.input_data.specs.Day.{constraint_of_numbers, numbers_at};

use crate::ConstraintNumbers;
use crate::bytes::numbers_at;
use constraint::Constraint;
use std::marker::Model;

// The Rust's constraint that the numbers stand for.
impl From<ConstraintNumbers> for Constraint {
    ghost from_gives = { λ n c. c ≡ constraint_of_numbers n };

    fn from(n: ConstraintNumbers) -> Constraint {
        Constraint::of(
            n.kind,
            n.left,
            n.target_case,
            n.target,
            n.extra_case,
            n.extra,
        )
    }
}

// The list of `count` constraints whose entries begin at `at`. The count may be above 32: check 7 is of a list too.
#[derive(Drop)]
pub struct Constraints<'a> {
    bytes: &'a [u8],
    count: usize,
    at: usize,
}

impl<'a> Model for Constraints<'a> {
    ghost use Rattle.std.specs.Prelude.{◌≤◌, ◌+◌, length};
    ghost use Rattle.input_data.specs.Bytes.{list_in};
    ghost use Rattle.input_data.specs.declared.ConstraintList.{ConstraintList};

    ghost Value = { ConstraintList };

    ghost view = { λ l. list_in l.bytes.now l.count l.at };

    ghost invariant = { λ l. l.at + 768 ≤ length l.bytes.now };
}

impl<'a> Constraints<'a> {
    pub fn lent(bytes: &'a [u8], count: usize, at: usize) -> Constraints<'a>
        requires { at + 768 ≤ length bytes.now }
        ensures { result ≡ list_in bytes.now count at }
    {
        Constraints { bytes, count, at }
    }

    #[tactic(auto, using(crate::specs::BytesLaws::count_of))]
    pub fn count(&self) -> usize
        ensures { result ≡ self.now.count }
    {
        self.count
    }

    #[tactic(auto, using(crate::specs::BytesLaws::numbers_of))]
    pub fn get(&self, j: usize) -> ConstraintNumbers
        requires { j < 32 }
        ensures { result ≡ numbers_at self.now j }
    {
        numbers_at(self.bytes, self.at, j)
    }
}
