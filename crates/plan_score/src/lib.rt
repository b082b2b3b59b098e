// scoring.rs, Scoring::evaluate of a plan that was accepted: the score.
#![tactic(auto)]

ghost use Rattle.std.specs.Prelude.{◌≡◌, ◌≤◌, length};
ghost use Rattle.plan_score.specs.Evaluate.{major_of, score_of, finite_or_infinite, evaluated};
ghost use Rattle.plan_score.specs.Laws.{Weighed};

use feasibility::JudgedPlan;
use input_data::Day;
use score::Score;
use seat_counts::SeatPreferences;

// What a plan is scored by.
#[derive(Clone, Copy)]
pub struct Scoring<'a> {
    pub greedy: bool,
    pub preferences: &'a [u32],
    pub powers: &'a [f32],
}

// The greatest preference used, or NaN when greedy.
fn major_of(greedy: bool, most: u32) -> f32
    requires { most ≤ 255 }
    ensures { result ≡ major_of greedy most }
{
    if greedy {
        score::greedy_major()
    } else {
        most as f32
    }
}

fn finite_or_infinite(s: Score) -> Score
    ensures { result ≡ finite_or_infinite s }
{
    if s.is_finite() { s } else { Score::infinite() }
}

impl Scoring<'_> {
    // The score of a feasible plan.
    fn score_of(&self, day: &Day, plan: &[u8]) -> Score
        requires { Weighed day.now self.now.preferences.now (length self.now.powers.now) plan.now }
        ensures { result ≡ finite_or_infinite (score_of day.now self.now.greedy self.now.preferences.now self.now.powers.now plan.now) }
    {
        let seats = SeatPreferences::of(day, self.preferences, plan);
        let counts = seats.counts();
        let minor = seat_counts::minor(&counts, self.powers, day.max_preference() as usize);
        finite_or_infinite(Score {
            major: major_of(self.greedy, seats.greatest()),
            minor,
        })
    }

    // The score of a plan that was looked at: infinite twice where it is not feasible.
    #[tactic(auto, unfolding(crate::specs::Evaluate::evaluated))]
    pub fn evaluate(&self, of: &JudgedPlan) -> Score
        requires { Weighed of.now.day.now self.now.preferences.now (length self.now.powers.now) of.now.plan.now }
        ensures { result ≡ evaluated of.now.day.now self.now.greedy self.now.preferences.now self.now.powers.now of.now.entries of.now.plan.now }
    {
        if of.is_feasible() {
            self.score_of(of.day, of.plan)
        } else {
            Score::infinite()
        }
    }
}
