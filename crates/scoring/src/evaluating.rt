// Scoring::evaluate.
ghost use Rattle.std.specs.Prelude.{◌≡◌, length, IfOk};
ghost use Rattle.refusal.specs.Number.{outcome};
ghost use Rattle.input_data.specs.Lengths.{full_day};
ghost use Rattle.scoring.specs.Answered.{parts_of, score_answered};
ghost use Rattle.scoring.specs.Handed.{beside_scoring, solution_handed, parts_scored, parts_lent};

use crate::reading::{read_parts, read_schedule};
use crate::solution::Solution;
use day_checks::{bad_preferences, check_day};
use input_data::{Beside, Day, FixedLimits, NOTHING, too_many};
use plan_score::Scoring;
use refusal::Refusal;
use score::Score;

// What a call tests of a score's tables.
fn beside_scoring(day: &Day, by: &Scoring) -> Beside
    ensures { result ≡ beside_scoring day.now by.now.preferences.now (length by.now.powers.now) }
{
    let most = day.max_preference();
    Beside {
        bad_lengths: (by.preferences.len() != day.preferences())
            | (by.powers.len() != most as usize + 1),
        bad_preferences: bad_preferences(most, by.preferences),
        ..NOTHING
    }
}

// The score of a solution, once all that it has has passed the tests of the call. What has no plan scores infinite twice.
#[tactic(auto, using(crate::specs::Laws::many_number, crate::specs::Laws::invalid_number, crate::specs::Laws::scheduling_number, crate::specs::Laws::complete_number, crate::specs::Laws::parts_weighed))]
fn score_solution(
    fixed: FixedLimits,
    day: &Day,
    solution: &Solution,
    by: &Scoring,
) -> Result<Score, Refusal>
    ensures number { outcome result ≡ solution_handed fixed.limits day.now (parts_of solution.now) by.now.preferences.now (length by.now.powers.now) }
    ensures score { IfOk result (λ s. s ≡ parts_scored day.now (parts_of solution.now) by.now.greedy by.now.preferences.now by.now.powers.now) }
{
    // Sizes come first: of a day that has too many no table is looked at, however long it is.
    if too_many(fixed.limits, day.choosers(), day.choices(), day.slots()) {
        return Err(Refusal::TooMany);
    }
    let beside = beside_scoring(day, by);
    match solution {
        Solution::Invalid => check_day(fixed.limits, day, beside)?,
        Solution::Scheduling(schedule) => {
            read_schedule(fixed, day, schedule, beside)?;
        }
        Solution::Complete(schedule, plan) => {
            let judged = read_parts(fixed, day, schedule, plan, beside)?;
            return Ok(by.evaluate(&judged));
        }
    }
    Ok(Score::infinite())
}

#[tactic(auto, using(crate::specs::Laws::score_unread, crate::specs::Laws::score_tested))]
fn evaluate_within(
    fixed: FixedLimits,
    day: &[u8],
    solution: &Solution,
    by: &Scoring,
) -> Result<Score, Refusal>
    ensures { score_answered result ≡ parts_lent fixed.limits day.now (parts_of solution.now) by.now.greedy by.now.preferences.now by.now.powers.now }
{
    let day = Day::read(day)?;
    score_solution(fixed, &day, solution, by)
}

// The score of a solution. What has no plan scores infinite twice.
pub fn evaluate(day: &[u8], solution: &Solution, by: &Scoring) -> Result<Score, Refusal>
    ensures { score_answered result ≡ parts_lent full_day day.now (parts_of solution.now) by.now.greedy by.now.preferences.now by.now.powers.now }
{
    evaluate_within(FixedLimits::full_day(), day, solution, by)
}
