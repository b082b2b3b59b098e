// assignment_solver.rs: the walk that carries lists, lengths and covered counts from one schedule to
// the next. A fresh build is the walk from the schedule in which no choice has a slot.
#![tactic(auto)]

ghost use Rattle.std.specs.Prelude.{◌≡◌, suc};
ghost use Rattle.carried_lists.specs.Carried.{departed, arrived, visited, ListsCarried};
ghost use Rattle.carried_lists.specs.CarriedLaws.{Leaves, Enters, Visits, Carries};

use scheduling::slot_in;
use slot_lists::{SlotSums, remove};

// The slots' lists as a call is lent them, one buffer with a part for each slot, and their lengths and covered counts.
// The sums are lent too: in the struct itself, what is indexed would keep the stride in memory, to be read at each step.
#[derive(Drop)]
pub struct CarriedLists<'a> {
    pub bytes: &'a mut [u8],
    pub stride: usize,
    pub sums: &'a mut SlotSums,
}

impl<'a> CarriedLists<'a> {
    // A choice leaves a slot's list, and the slot's sums.
    fn leave(&mut self, slot: usize, choice: u8, min: u32)
        requires { Leaves self.old slot min }
        ensures { self.new ≡ departed self.old (suc slot) choice min }
    {
        let start = self.stride * slot;
        let end = start + self.sums.lens[slot] as usize;
        remove(&mut self.bytes[start..end], choice);
        self.sums.lens[slot] -= 1;
        self.sums.covered[slot] -= min;
    }

    // A choice joins a slot's list at its end, and the slot's sums.
    fn enter(&mut self, slot: usize, choice: u8, min: u32)
        requires { Enters self.old slot min }
        ensures { self.new ≡ arrived self.old (suc slot) choice min }
    {
        self.bytes[self.stride * slot + self.sums.lens[slot] as usize] = choice;
        self.sums.lens[slot] += 1;
        self.sums.covered[slot] += min;
    }

    // A visit of one choice: nothing where old and new slot agree.
    fn visit(&mut self, last: u8, next: u8, choice: u8, min: u32)
        requires { Visits self.old last next choice min }
        ensures { self.new ≡ visited self.old last next choice min }
    {
        if last == next {
            return;
        }
        if let Some(slot) = slot_in(last) {
            self.leave(slot, choice, min);
        }
        if let Some(slot) = slot_in(next) {
            self.enter(slot, choice, min);
        }
    }

    // The walk: every choice is visited, upward.
    pub fn carry(&mut self, n: usize, last: &[u8; 32], next: &[u8; 32], mins: &[u32; 32])
        requires { Carries n last.now next.now mins.now self.old }
        ensures { ListsCarried n last.now next.now mins.now self.old self.new }
    {
        for k in 0..n {
            self.visit(last[k], next[k], k as u8, mins[k]);
        }
    }
}
