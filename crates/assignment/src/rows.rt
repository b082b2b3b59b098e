// The seats of a plan, a row of the day's slots for each chooser.
ghost use Rattle.std.specs.Prelude.{◌≡◌, ◌<◌, length};
ghost use Rattle.assignment.specs.Inside.{InPlan};
ghost use Rattle.assignment.specs.Plan.{choice_of, is_in_choice};

use input_data::Day;

#[derive(Clone, Copy)]
pub struct Seats<'a> {
    pub choosers: usize,
    pub choices: usize,
    pub slots: usize,
    pub plan: &'a [u8],
    ghost inside: { InPlan choosers slots (length plan.now) },
}

impl<'a> Seats<'a> {
    pub fn of(day: &Day, plan: &'a [u8]) -> Seats<'a>
        requires { InPlan day.now.choosers day.now.slots (length plan.now) }
        ensures sizes { (result.choosers ≡ day.now.choosers) × (result.choices ≡ day.now.choices) × (result.slots ≡ day.now.slots) }
        ensures plan { result.plan.now ≡ plan.now }
    {
        Seats {
            choosers: day.choosers(),
            choices: day.choices(),
            slots: day.slots(),
            plan,
        }
    }

    // What a chooser has in a slot.
    #[tactic(auto, using(crate::specs::Inside::row_in))]
    pub fn choice_of(&self, chooser: usize, slot: usize) -> u8
        requires { (chooser < self.now.choosers) × (slot < self.now.slots) }
        ensures { result ≡ choice_of self.now.slots self.now.plan.now chooser slot }
    {
        self.plan[chooser * self.slots + slot]
    }

    // Whether a chooser has a choice in some slot.
    #[tactic(auto, using(crate::specs::Inside::row_in), unfolding(crate::specs::Plan::is_in_choice))]
    pub fn is_in_choice(&self, chooser: usize, choice: usize) -> bool
        requires { chooser < self.now.choosers }
        ensures { result ≡ is_in_choice self.now.slots self.now.plan.now chooser choice }
    {
        let base = chooser * self.slots;
        counting::any_below(self.slots, |s| self.plan[base + s] as usize == choice)
    }
}
