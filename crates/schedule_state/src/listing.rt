// The list of a slot, as a part of the lent buffer.
ghost use Rattle.std.specs.Prelude.{◌≡◌};
ghost use Rattle.schedule_state.specs.Answered.{list_answered};

use refusal::Refusal;

// Where a slot's list stands in the lent buffer.
#[derive(Clone, Copy)]
pub struct SlotListPart {
    pub start: usize,
    pub length: usize,
}

// What C is given of it: the number, where the list starts, and its length; zeros where the call is refused.
#[repr(C)]
#[derive(Clone, Copy)]
pub struct SlotListAnswer {
    pub number: u32,
    pub start: usize,
    pub length: usize,
}

impl From<Result<SlotListPart, Refusal>> for SlotListAnswer {
    ghost from_gives = { λ r a. a ≡ list_answered r };

    fn from(res: Result<SlotListPart, Refusal>) -> SlotListAnswer {
        match res {
            Ok(part) => SlotListAnswer {
                number: 0,
                start: part.start,
                length: part.length,
            },
            Err(refusal) => SlotListAnswer {
                number: u32::from(refusal),
                start: 0,
                length: 0,
            },
        }
    }
}
