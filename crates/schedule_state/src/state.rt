// The state as a call is lent it: bytes, which contracts see as the AssignmentScheduleState that they stand for.
#![tactic(auto, using(crate::specs::BytesLaws::covered_in_lem, crate::specs::BytesLaws::block_in_lem), unfolding(crate::specs::Bytes::state_in))]

ghost use Rattle.std.specs.Prelude.{◌≡◌, ◌<◌, false, get_or};
ghost use Rattle.scheduling.specs.Handed.{outside, kept_of};
ghost use Rattle.schedule_state.specs.Bytes.{IsState, state_in};

use crate::AssignmentScheduleState;
use input_data::{Day, flag, word};
use scheduling::{Scheduling, bad_slots, kept};
use std::marker::Model;

#[derive(Drop)]
pub struct LentState<'a> {
    bytes: &'a [u8],
}

impl<'a> Model for LentState<'a> {
    ghost use Rattle.schedule_state.specs.Bytes.{IsState, state_in};
    ghost use Rattle.schedule_state.specs.declared.AssignmentScheduleState.{AssignmentScheduleState};

    ghost Value = { AssignmentScheduleState };

    ghost view = { λ s. state_in s.bytes.now };

    ghost invariant = { λ s. IsState s.bytes.now };
}

impl<'a> LentState<'a> {
    pub fn of(bytes: &'a [u8]) -> LentState<'a>
        requires { IsState bytes.now }
        ensures { result ≡ state_in bytes.now }
    {
        LentState { bytes }
    }

    // The entries of its schedule.
    #[tactic(auto, using(crate::specs::BytesLaws::schedule_long))]
    fn entries(&self) -> &'a [u8; 32]
        ensures { result.now ≡ self.now.schedule.entries }
    {
        self.bytes[..32].as_array().unwrap()
    }

    pub fn schedule(&self) -> Scheduling
        ensures { result ≡ self.now.schedule }
    {
        Scheduling {
            entries: *self.entries(),
        }
    }

    // Whether its schedule names a slot that the day has not.
    pub fn names_outside(&self, day: &Day) -> bool
        ensures { result ≡ outside day.now self.now.schedule }
    {
        bad_slots(day.choices(), day.slots(), self.entries())
    }

    // Its schedule's entries, none past the day's choices.
    pub fn kept(&self, day: &Day) -> [u8; 32]
        ensures { result ≡ kept_of day.now self.now.schedule }
    {
        kept(day.choices(), self.entries())
    }

    pub fn covered(&self, slot: usize) -> u32
        requires { slot < 8 }
        ensures { result ≡ get_or self.now.covered slot 0 }
    {
        word(self.bytes, 32 + 4 * slot)
    }

    // Whether a chooser is blocked from a choice, at their place in the table of blocks.
    pub fn blocks(&self, place: usize) -> bool
        requires { place < 2048 }
        ensures { result ≡ get_or self.now.blocks place false }
    {
        flag(self.bytes, 64 + place)
    }

    // The state as a struct, for calls that read it many times.
    pub fn decoded(&self) -> AssignmentScheduleState
        ensures { result ≡ self.now }
    {
        AssignmentScheduleState {
            schedule: self.schedule(),
            covered: counting::table(0, |s| word(self.bytes, 32 + 4 * s)),
            blocks: counting::table(false, |p| flag(self.bytes, 64 + p)),
        }
    }
}
