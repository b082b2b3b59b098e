// scoring.rs and solution.rs, with Scheduling::is_feasible of scheduling.rs: the calls that give the verdict on a schedule
// and on a plan, and the score.
#![tactic(auto)]

mod evaluating;
mod plan;
mod reading;
mod schedule;
mod solution;

ghost use Rattle.std.specs.Prelude.{◌≡◌};
ghost use Rattle.scoring.specs.Answered.{verdict_answered};

pub use evaluating::evaluate;
pub use plan::{is_feasible, satisfies_constraints_assignment};
pub use plan_score::Scoring;
use refusal::Refusal;
pub use schedule::{satisfies_constraints_scheduling, schedule_is_feasible};
pub use solution::Solution;

// The number of the answer, and whether the test holds; no where refused.
#[repr(C)]
#[derive(Clone, Copy)]
pub struct VerdictAnswer {
    pub number: u32,
    pub holds: bool,
}

impl From<Result<bool, Refusal>> for VerdictAnswer {
    ghost from_gives = { λ verdict answer. answer ≡ verdict_answered verdict };

    fn from(verdict: Result<bool, Refusal>) -> VerdictAnswer {
        match verdict {
            Ok(holds) => VerdictAnswer { number: 0, holds },
            Err(refusal) => VerdictAnswer {
                number: u32::from(refusal),
                holds: false,
            },
        }
    }
}
