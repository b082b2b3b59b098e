// The entries over the preference search.
ghost use Rattle.std.specs.Prelude.{◌≡◌};
ghost use Rattle.input_data.specs.Bytes.{flag_of};
ghost use Rattle.input_data.specs.Lengths.{full_day};
ghost use Rattle.preference_search.specs.Answered.{looked_at, told_by};
ghost use Rattle.preference_search.specs.Search.{told};
ghost use Rattle.assignment_solver.specs.Calls.{begin_lent, tell_lent};
ghost use Rattle.seating.specs.Searches.{result_of};

use preference_search::{SearchAnswer, Told};

// A number that is no result reads as incomplete.
fn told(number: u32, plan: &[u8]) -> Told<'_>
    ensures { told_by result ≡ looked_at (told (result_of number) plan.now) }
{
    match number {
        0 => Told::Feasible(plan),
        1 => Told::Infeasible,
        _ => Told::Incomplete,
    }
}

// `greedy` is yes where it is not 0.
#[unsafe(no_mangle)]
pub extern "C" fn cendravoka_begin(
    day: &[u8],
    schedule: &[u8],
    levels: &[u32],
    bound: u32,
    greedy: u32,
    cached: &[u8],
) -> SearchAnswer
    ensures { result ≡ begin_lent full_day day.now schedule.now levels.now bound (flag_of greedy) cached.now }
{
    assignment_solver::begin(day, schedule, levels, bound, greedy != 0, cached).into()
}

#[tactic(auto, using(assignment_solver::specs::Laws::tell_looked))]
#[unsafe(no_mangle)]
pub extern "C" fn cendravoka_tell(
    day: &[u8],
    search: &[u8],
    levels: &[u32],
    res: u32,
    plan: &[u8],
) -> SearchAnswer
    ensures { result ≡ tell_lent full_day day.now search.now levels.now (told (result_of res) plan.now) }
{
    assignment_solver::tell(day, search, levels, told(res, plan)).into()
}
