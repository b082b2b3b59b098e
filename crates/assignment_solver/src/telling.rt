// A search is told the answer to its ask.
ghost use Rattle.std.specs.Prelude.{false, ◌≡◌};
ghost use Rattle.input_data.specs.Lengths.{full_day};
ghost use Rattle.preference_search.specs.Answered.{asked_by, search_answered, told_by};
ghost use Rattle.preference_search.specs.Laws.{Ranged};
ghost use Rattle.preference_search.specs.Steps.{most_asks_of, search_answer, told_answer, told_greedy, told_range};
ghost use Rattle.assignment_solver.specs.Calls.{tell_lent};

use input_data::{Day, FixedLimits};
use preference_search::{Asked, Known, Telling, Told};
use preference_search_checks::check_tell;
use preference_search_steps::{Setting, Standing, ask_again};
use refusal::Refusal;

// The answer to a greedy ask ends the search.
fn tell_greedy(t: &Telling) -> Asked
    ensures { asked_by result ≡ search_answer (most_asks_of t.now.levels.now t.now.search)
        (told_greedy t.now.day.now t.now.search (told_by t.now.told.now)) }
{
    let entries = scheduling::kept(t.day.choices(), t.search.schedule());
    let known = Known::learn_greedy(t.day.seats(), t.day.max_preference(), t.told);
    Standing::of(&t.search, t.levels, entries, known).end(Setting::Greedy)
}

// The answer at the middle of a range ends the search or narrows the range.
#[tactic(auto, using(crate::specs::Laws::told_asks, preference_search::specs::Laws::middle_least, preference_search::specs::Laws::middle_most))]
fn tell_range(t: &Telling) -> Asked
    requires { Ranged t.now.search t.now.levels.now }
    ensures { asked_by result ≡ search_answer (most_asks_of t.now.levels.now t.now.search)
        (told_range t.now.day.now t.now.search t.now.levels.now (told_by t.now.told.now)) }
{
    let entries = scheduling::kept(t.day.choices(), t.search.schedule());
    let range = t.search.range();
    let m = range.middle();
    if !t.told.is_feasible() && m < range.high {
        let mark = t.told.is_infeasible() & t.search.optimal();
        return ask_again(t.levels, &t.search, m + 1, entries, mark);
    }
    let known = Known::learn(t.day.seats(), t.levels[m as usize], &t.search, t.told);
    let standing = Standing::of(&t.search, t.levels, entries, known);
    if range.ends_at(m, t.told) {
        return standing.end(Setting::Levels(Some(range)));
    }
    standing.go_on(t.levels, range.after(m, t.told))
}

// What a tested answer makes of its search.
#[tactic(auto, unfolding(preference_search::specs::Steps::told_answer, preference_search::specs::Steps::told_step))]
fn step(t: &Telling) -> Asked
    requires { t.now.search.greedy ≡ false → Ranged t.now.search t.now.levels.now }
    ensures { asked_by result ≡ told_answer t.now.day.now t.now.search t.now.levels.now (told_by t.now.told.now) }
{
    if t.search.greedy() {
        return tell_greedy(t);
    }
    tell_range(t)
}

#[tactic(auto, using(crate::specs::Laws::tell_unread, crate::specs::Laws::tell_refused, crate::specs::Laws::tell_done, preference_search_checks::specs::Numbers::tell_range))]
fn tell_within(
    fixed: FixedLimits,
    day: &[u8],
    search: &[u8],
    levels: &[u32],
    told: &Told,
) -> Result<Asked, Refusal>
    ensures { search_answered result ≡ tell_lent fixed.limits day.now search.now levels.now (told_by told.now) }
{
    let day = Day::read(day)?;
    let telling = check_tell(fixed, &day, search, levels, told)?;
    Ok(step(&telling))
}

// Tells a search the answer to its ask.
pub fn tell(day: &[u8], search: &[u8], levels: &[u32], told: Told) -> Result<Asked, Refusal>
    ensures { search_answered result ≡ tell_lent full_day day.now search.now levels.now (told_by told.entry) }
{
    tell_within(FixedLimits::full_day(), day, search, levels, &told)
}
