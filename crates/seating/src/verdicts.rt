// The entries over scoring.rs: the verdict on a schedule and on a plan, and the score. Scores leave as
// bits, so that NaN's are fixed.
ghost use Rattle.std.specs.Prelude.{◌≡◌};
ghost use Rattle.input_data.specs.Lengths.{full_day};
ghost use Rattle.scoring.specs.Answered.{looked_at, parts_of, score_answered};
ghost use Rattle.scoring.specs.Calls.{scheduling_lent, schedule_lent, assignment_lent, plan_lent};
ghost use Rattle.scoring.specs.Handed.{parts};
ghost use Rattle.seating.specs.Verdicts.{solution_of, score_answer_bits, evaluate_bits};

use crate::scores::ScoreBits;
use refusal::Refusal;
use score::Score;
use scoring::{Scoring, Solution, VerdictAnswer};

// The number of the answer, and the bits of the score, or zeros where refused.
#[repr(C)]
#[derive(Clone, Copy)]
pub struct ScoreBitsAnswer {
    pub number: u32,
    pub score: ScoreBits,
}

impl From<Result<Score, Refusal>> for ScoreBitsAnswer {
    ghost from_gives = { λ score answer. answer ≡ score_answer_bits (score_answered score) };

    fn from(score: Result<Score, Refusal>) -> ScoreBitsAnswer {
        match score {
            Ok(score) => ScoreBitsAnswer {
                number: 0,
                score: score.into(),
            },
            Err(refusal) => ScoreBitsAnswer {
                number: u32::from(refusal),
                score: ScoreBits { major: 0, minor: 0 },
            },
        }
    }
}

// A number that is no solution reads as Invalid.
fn solution_of<'a>(number: u32, schedule: &'a [u8], plan: &'a [u8]) -> Solution<'a>
    ensures { parts_of result ≡ looked_at (parts (solution_of number) schedule.now plan.now) }
{
    match number {
        2 => Solution::Complete(schedule, plan),
        1 => Solution::Scheduling(schedule),
        _ => Solution::Invalid,
    }
}

#[unsafe(no_mangle)]
pub extern "C" fn cendravoka_satisfies_constraints_scheduling(
    day: &[u8],
    schedule: &[u8],
) -> VerdictAnswer
    ensures { result ≡ scheduling_lent full_day day.now schedule.now }
{
    scoring::satisfies_constraints_scheduling(day, schedule).into()
}

#[unsafe(no_mangle)]
pub extern "C" fn cendravoka_schedule_is_feasible(day: &[u8], schedule: &[u8]) -> VerdictAnswer
    ensures { result ≡ schedule_lent full_day day.now schedule.now }
{
    scoring::schedule_is_feasible(day, schedule).into()
}

#[unsafe(no_mangle)]
pub extern "C" fn cendravoka_satisfies_constraints_assignment(
    day: &[u8],
    schedule: &[u8],
    plan: &[u8],
) -> VerdictAnswer
    ensures { result ≡ assignment_lent full_day day.now schedule.now plan.now }
{
    scoring::satisfies_constraints_assignment(day, schedule, plan).into()
}

#[unsafe(no_mangle)]
pub extern "C" fn cendravoka_is_feasible(day: &[u8], schedule: &[u8], plan: &[u8]) -> VerdictAnswer
    ensures { result ≡ plan_lent full_day day.now schedule.now plan.now }
{
    scoring::is_feasible(day, schedule, plan).into()
}

// `greedy` is yes where it is not 0.
#[tactic(auto, using(scoring::specs::Laws::evaluate_looked))]
#[unsafe(no_mangle)]
pub extern "C" fn cendravoka_evaluate(
    day: &[u8],
    solution: u32,
    schedule: &[u8],
    plan: &[u8],
    greedy: u32,
    preferences: &[u32],
    powers: &[f32],
) -> ScoreBitsAnswer
    ensures { result ≡ evaluate_bits day.now solution schedule.now plan.now greedy preferences.now powers.now }
{
    let by = Scoring {
        greedy: greedy != 0,
        preferences,
        powers,
    };
    scoring::evaluate(day, &solution_of(solution, schedule, plan), &by).into()
}
