// A search is begun.
ghost use Rattle.std.specs.Prelude.{◌≡◌};
ghost use Rattle.input_data.specs.Lengths.{full_day};
ghost use Rattle.scheduling.specs.Handed.{schedule_of};
ghost use Rattle.preference_search.specs.Answered.{asked_by, search_answered};
ghost use Rattle.preference_search.specs.Steps.{begun_answer};
ghost use Rattle.assignment_solver.specs.Calls.{begin_lent};

use input_data::{Day, FixedLimits};
use preference_search::{Ask, Asked, Known, most_asks, start_of};
use preference_search_checks::{Opening, check_begin};
use preference_search_steps::{Setting, Standing, begin_levels, recall};
use refusal::Refusal;

// The first ask of tested input, or the end without an ask.
#[tactic(auto, using(preference_search::specs::Laws::start_most), unfolding(preference_search::specs::Steps::begun_answer, preference_search::specs::Steps::begun_step))]
fn begun(o: &Opening, bound: u32, greedy: bool) -> Asked
    ensures { asked_by result ≡ begun_answer o.now.day.now (schedule_of o.now.entries.now) o.now.levels.now bound greedy o.now.cached }
{
    let choices = o.day.choices();
    let entries = scheduling::kept(choices, o.entries);
    // A greedy search has no start.
    let start = if greedy { 0 } else { start_of(o.levels, bound) };
    let most_asks = most_asks(greedy, o.levels.len(), start);
    if o.cached.remembers(choices, &entries, greedy) {
        return recall(o.day.seats(), greedy, most_asks, entries, &o.cached);
    }
    if greedy {
        let ask = Ask {
            level: o.day.max_preference(),
            index: 0,
        };
        let known = Known::nothing(false);
        let standing = Standing::new(most_asks, entries, known, o.cached.copied());
        return standing.ask(Setting::Greedy, ask);
    }
    begin_levels(o.levels, start as u32, most_asks, entries, &o.cached)
}

#[tactic(auto, using(crate::specs::Laws::begin_unread, crate::specs::Laws::begin_refused, crate::specs::Laws::begin_done))]
fn begin_within(
    fixed: FixedLimits,
    day: &[u8],
    schedule: &[u8],
    levels: &[u32],
    bound: u32,
    greedy: bool,
    cached: &[u8],
) -> Result<Asked, Refusal>
    ensures { search_answered result ≡ begin_lent fixed.limits day.now schedule.now levels.now bound greedy cached.now }
{
    let day = Day::read(day)?;
    let opening = check_begin(fixed, &day, schedule, levels, cached)?;
    Ok(begun(&opening, bound, greedy))
}

// Begins a search for a plan of the schedule at the least level from the bound on. `cached` is what an
// earlier search of the same day remembered: that it is of the same day is the caller's duty, that it is
// of the same greedy setting is looked at.
pub fn begin(
    day: &[u8],
    schedule: &[u8],
    levels: &[u32],
    bound: u32,
    greedy: bool,
    cached: &[u8],
) -> Result<Asked, Refusal>
    ensures { search_answered result ≡ begin_lent full_day day.now schedule.now levels.now bound greedy cached.now }
{
    begin_within(
        FixedLimits::full_day(),
        day,
        schedule,
        levels,
        bound,
        greedy,
        cached,
    )
}
