// assignment_solver.rs: the state that is carried from schedule to schedule, and check 12.
#![tactic(auto)]

ghost use Rattle.std.specs.Prelude.{◌≡◌};
ghost use Rattle.schedule_state.specs.Answered.{state_answered};
ghost use Rattle.schedule_state.specs.State.{zero_state};

mod checks;
mod listing;
mod number;
mod state;

pub use listing::{SlotListAnswer, SlotListPart};
pub use number::{beside, check_state};
use refusal::Refusal;
use scheduling::Scheduling;
pub use state::LentState;

// Lists of choices stand in a lent buffer; their lengths follow from the schedule. A state is lent as bytes, in this layout.
#[repr(C)]
#[derive(Clone, Copy)]
pub struct AssignmentScheduleState {
    pub schedule: Scheduling,
    pub covered: [u32; 8],
    pub blocks: [bool; 2048],
}

impl AssignmentScheduleState {
    #[tactic(auto, unfolding(crate::specs::State::zero_state))]
    fn zeros() -> AssignmentScheduleState
        ensures { result ≡ zero_state }
    {
        AssignmentScheduleState {
            schedule: Scheduling { entries: [0; 32] },
            covered: [0; 8],
            blocks: [false; 2048],
        }
    }
}

// What C is given of a call's result: the number, and the state, or zeros where the call is refused.
#[repr(C)]
#[derive(Clone, Copy)]
pub struct StateAnswer {
    pub number: u32,
    pub state: AssignmentScheduleState,
}

impl From<Result<AssignmentScheduleState, Refusal>> for StateAnswer {
    ghost from_gives = { λ r a. a ≡ state_answered r };

    fn from(res: Result<AssignmentScheduleState, Refusal>) -> StateAnswer {
        match res {
            Ok(state) => StateAnswer { number: 0, state },
            Err(refusal) => StateAnswer {
                number: u32::from(refusal),
                state: AssignmentScheduleState::zeros(),
            },
        }
    }
}
