// Scoring::is_feasible of a schedule and a plan that were accepted.
ghost use Rattle.std.specs.Prelude.{◌≡◌};
ghost use Rattle.feasibility.specs.Feasible.{choices_filled, plan_feasible};
ghost use Rattle.feasibility.specs.Laws.{Judged};

use input_data::Day;

// A schedule, as it is handed back, and a plan, that were accepted beside their day.
#[derive(Clone, Copy)]
pub struct JudgedPlan<'a> {
    pub day: &'a Day<'a>,
    pub entries: [u8; 32],
    pub plan: &'a [u8],
    ghost judged: { Judged day.now entries plan.now },
}

impl JudgedPlan<'_> {
    // Whether each choice that has a slot has from min to max seats.
    #[tactic(auto, using(crate::specs::Laws::filled_parts))]
    fn all_filled(&self) -> bool
        ensures { result ≡ choices_filled self.now.day.now self.now.entries self.now.plan.now }
    {
        let counts = seat_counts::part_counts(self.day, self.plan);
        seat_counts::all_filled(self.day, &self.entries, &counts)
    }

    // Whether the plan is feasible.
    #[tactic(auto, unfolding(crate::specs::Feasible::plan_feasible))]
    pub fn is_feasible(&self) -> bool
        ensures { result ≡ plan_feasible self.now.day.now self.now.entries self.now.plan.now }
    {
        let scheduled = satisfies_constraints::scheduling_met(self.day, &self.entries);
        let assigned = satisfies_constraints::assignment_met(self.day, &self.entries, self.plan);
        let once = seat_counts::none_twice(self.day, &self.entries, self.plan);
        scheduled & assigned & once & self.all_filled()
    }
}
