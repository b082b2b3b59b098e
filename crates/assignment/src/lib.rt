// assignment.rs: plans, check 13, a chooser's choices.
#![tactic(auto)]

mod checks;
mod rows;
mod seats;

ghost use Rattle.std.specs.Prelude.{◌≡◌};
ghost use Rattle.assignment.specs.Answered.{in_choice_answered, choice_answered};

pub use checks::{bad_plan_for, check_plan, kept_plan};
use refusal::Refusal;
pub use rows::Seats;
pub use seats::{choice_of, is_in_choice};

#[repr(C)]
#[derive(Clone, Copy)]
pub struct InChoiceAnswer {
    pub number: u32,
    pub found: bool,
}

#[repr(C)]
#[derive(Clone, Copy)]
pub struct ChoiceAnswer {
    pub number: u32,
    pub choice: u32,
}

impl From<Result<bool, Refusal>> for InChoiceAnswer {
    ghost from_gives = { λ r a. a ≡ in_choice_answered r };

    fn from(res: Result<bool, Refusal>) -> InChoiceAnswer {
        match res {
            Ok(found) => InChoiceAnswer { number: 0, found },
            Err(refusal) => InChoiceAnswer {
                number: u32::from(refusal),
                found: false,
            },
        }
    }
}

impl From<Result<u32, Refusal>> for ChoiceAnswer {
    ghost from_gives = { λ r a. a ≡ choice_answered r };

    fn from(res: Result<u32, Refusal>) -> ChoiceAnswer {
        match res {
            Ok(choice) => ChoiceAnswer { number: 0, choice },
            Err(refusal) => ChoiceAnswer {
                number: u32::from(refusal),
                choice: 0,
            },
        }
    }
}
