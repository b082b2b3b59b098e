// The checks of begin and tell.
#![tactic(auto)]

mod opening;

ghost use Rattle.std.specs.Prelude.{◌≡◌, length, IfOk};
ghost use Rattle.refusal.specs.Number.{outcome};
ghost use Rattle.assignment.specs.Laws.{Small};
ghost use Rattle.preference_search.specs.Answered.{told_by};
ghost use Rattle.preference_search.specs.Bytes.{cached_in, search_in};
ghost use Rattle.preference_search.specs.Search.{is_feasible};
ghost use Rattle.preference_search_checks.specs.Checks.{bad_cached, bad_if, bad_plans, beside_levels, held_number, outside_cached, spent, wrong_length};
ghost use Rattle.preference_search_checks.specs.Read.{begin_read_number, tell_read_number};

use assignment::bad_plan_for;
use day_checks::check_day;
use input_data::{Beside, Day, FixedLimits, NOTHING};
pub use opening::Opening;
use preference_search::{LentCached, LentSearch, Telling, Told};
use refusal::Refusal;
use scheduling::{bad_slots, read_entries};

// 11 of what is remembered, if anything is.
fn outside_cached(day: &Day, cached: &LentCached) -> bool
    ensures { result ≡ outside_cached day.now cached.now }
{
    cached.is_there() & bad_slots(day.choices(), day.slots(), cached.schedule())
}

// 13 of what is remembered, if anything is.
fn bad_cached(day: &Day, cached: &LentCached) -> bool
    requires { Small day.now }
    ensures { result ≡ bad_cached day.now cached.now }
{
    let (choices, seats) = (day.choices(), day.seats());
    cached.is_there() && bad_plan_for(choices, seats, cached.schedule(), cached.plan())
}

fn beside(day: &Day, levels: &[u32], wrong: bool) -> Beside
    ensures { result ≡ beside_levels day.now levels.now wrong }
{
    Beside {
        bad_lengths: wrong,
        bad_levels: day_checks::bad_levels(day.max_preference(), levels),
        ..NOTHING
    }
}

// The schedule and what is remembered are handed on as they are read.
#[tactic(auto, using(input_data::specs::ReadLaws::day_refused, input_data::specs::ReadLaws::day_passed, crate::specs::Numbers::day_small, crate::specs::Numbers::day_few, crate::specs::Numbers::begin_cached), unfolding(crate::specs::Read::begin_read_number, input_data::specs::Checks::first_of))]
pub fn check_begin<'a>(
    fixed: FixedLimits,
    day: &'a Day<'a>,
    schedule: &'a [u8],
    levels: &'a [u32],
    cached: &'a [u8],
) -> Result<Opening<'a>, Refusal>
    ensures number { outcome result ≡ begin_read_number fixed.limits day.now schedule.now levels.now cached.now }
    ensures lent { IfOk result (λ o. (o.day.now ≡ day.now) × (o.levels.now ≡ levels.now)) }
    ensures read { IfOk result (λ o. (o.entries.now ≡ schedule.now) × (o.cached ≡ cached_in cached.now)) }
{
    let wrong = cached.len() != 546;
    let entries = read_entries(fixed.limits, day, schedule, beside(day, levels, wrong))?;
    let cached = LentCached::lent(cached);
    let outside = bad_slots(day.choices(), day.slots(), entries);
    if outside | outside_cached(day, &cached) {
        return Err(Refusal::Schedule);
    }
    if bad_cached(day, &cached) {
        return Err(Refusal::Plan);
    }
    Ok(Opening {
        day,
        entries,
        levels,
        cached,
    })
}

// 18. `count` is the count of levels.
#[tactic(auto, unfolding(crate::specs::Checks::spent_at))]
fn is_spent(search: &LentSearch, count: usize) -> bool
    ensures { result ≡ spent search.now count }
{
    let range = search.range();
    let bad_range = (range.low < range.start)
        | (range.high < range.low)
        | (count <= range.high as usize);
    !search.asking() | (256 < search.asks()) | (!search.greedy() & bad_range)
}

// 13 of a told plan, which is looked at where the result is feasible.
fn bad_told(t: &Telling) -> bool
    ensures { result ≡ bad_if t.now.day.now (is_feasible (told_by t.now.told.now).result) t.now.search.schedule (told_by t.now.told.now).plan }
{
    let (choices, seats) = (t.day.choices(), t.day.seats());
    match t.told {
        Told::Feasible(plan) => bad_plan_for(choices, seats, t.search.schedule(), plan),
        Told::Infeasible | Told::Incomplete => false,
    }
}

// 13 of the told plan and of the best so far.
fn bad_plans(t: &Telling) -> bool
    ensures { result ≡ bad_plans t.now.day.now t.now.search (told_by t.now.told.now) }
{
    let (choices, seats) = (t.day.choices(), t.day.seats());
    let found = t.search.found();
    bad_told(t) | (found && bad_plan_for(choices, seats, t.search.schedule(), t.search.plan()))
}

// 11, 13 and 18 of what a search holds and is told.
#[tactic(auto, unfolding(crate::specs::Checks::held_number, input_data::specs::Checks::first_of))]
fn check_held(t: &Telling) -> Result<(), Refusal>
    ensures { outcome result ≡ held_number t.now.day.now t.now.search (length t.now.levels.now) (told_by t.now.told.now) }
{
    let cached = t.search.cached();
    let outside = bad_slots(t.day.choices(), t.day.slots(), t.search.schedule());
    if outside | outside_cached(t.day, &cached) {
        return Err(Refusal::Schedule);
    }
    if bad_plans(t) | bad_cached(t.day, &cached) {
        return Err(Refusal::Plan);
    }
    if is_spent(&t.search, t.levels.len()) {
        return Err(Refusal::Search);
    }
    Ok(())
}

// 2 of a told plan, which is looked at where the result is feasible.
fn wrong_length(fixed: FixedLimits, told: &Told) -> bool
    ensures { result ≡ wrong_length fixed.limits (told_by told.now) }
{
    match told {
        Told::Feasible(plan) => plan.len() != fixed.plan_length(),
        Told::Infeasible | Told::Incomplete => false,
    }
}

// The search is handed on as it is read.
#[tactic(auto, using(input_data::specs::ReadLaws::day_refused, input_data::specs::ReadLaws::day_passed, crate::specs::Numbers::tell_passed, crate::specs::Numbers::day_few, crate::specs::Numbers::tell_search), unfolding(crate::specs::Read::tell_read_number))]
pub fn check_tell<'a>(
    fixed: FixedLimits,
    day: &'a Day<'a>,
    search: &'a [u8],
    levels: &'a [u32],
    told: &'a Told<'a>,
) -> Result<Telling<'a>, Refusal>
    ensures number { outcome result ≡ tell_read_number fixed.limits day.now search.now levels.now (told_by told.now) }
    ensures lent { IfOk result (λ t. (t.day.now ≡ day.now) × (t.levels.now ≡ levels.now) × (t.told.now ≡ told.now)) }
    ensures read { IfOk result (λ t. t.search ≡ search_in search.now) }
{
    let wrong = (search.len() != 1114) | wrong_length(fixed, told);
    check_day(fixed.limits, day, beside(day, levels, wrong))?;
    let telling = Telling {
        day,
        search: LentSearch::lent(search),
        levels,
        told,
    };
    check_held(&telling)?;
    Ok(telling)
}
