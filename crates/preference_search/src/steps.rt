// The parts of a step: where a search starts, what an answer teaches, what is left of the range.
ghost use Rattle.std.specs.Prelude.{position, leb, true, false, ◌≡◌, ◌<◌, ◌≤◌, length};
ghost use Rattle.assignment.specs.Calls.{seats};
ghost use Rattle.preference_search.specs.Answered.{range_after, told_by};
ghost use Rattle.preference_search.specs.Laws.{is_infeasible};
ghost use Rattle.preference_search.specs.Search.{ends_at, found_at, is_feasible, learnt, learnt_greedy, marked, middle, nothing, start_of};
ghost use Rattle.preference_search.specs.Steps.{known_by};

use crate::lent::LentSearch;
use crate::{Known, Range, Told};

impl Known {
    // Nothing, with this optimal mark.
    pub fn nothing(mark: bool) -> Known
        ensures { result ≡ marked nothing mark }
    {
        Known {
            found: false,
            level: 0,
            plan: [0u8; 512],
            optimal: mark,
        }
    }

    // A plan that was found at a level.
    pub fn found_at(seats: usize, level: u32, plan: &[u8], mark: bool) -> Known
        requires { seats ≤ length plan.now }
        ensures { result ≡ found_at seats level plan.now mark }
    {
        Known {
            found: true,
            level,
            plan: assignment::kept_plan(seats, plan),
            optimal: mark,
        }
    }

    // What a search knows once it is told the answer at a level.
    pub fn learn(seats: usize, level: u32, search: &LentSearch, told: &Told) -> Known
        requires { is_feasible (told_by told.now).result ≡ true → seats ≤ length (told_by told.now).plan }
        ensures { result ≡ learnt seats level (known_by search.now) (told_by told.now) }
    {
        match told {
            Told::Feasible(plan) => Known::found_at(seats, level, plan, search.optimal()),
            Told::Infeasible => search.known(search.optimal()),
            Told::Incomplete => search.known(false),
        }
    }

    // The same of a greedy search.
    pub fn learn_greedy(seats: usize, level: u32, told: &Told) -> Known
        requires { is_feasible (told_by told.now).result ≡ true → seats ≤ length (told_by told.now).plan }
        ensures { result ≡ learnt_greedy seats level (told_by told.now) }
    {
        match told {
            Told::Feasible(plan) => Known::found_at(seats, level, plan, true),
            Told::Infeasible | Told::Incomplete => Known::nothing(false),
        }
    }
}

impl<'a> Told<'a> {
    pub fn is_feasible(&self) -> bool
        ensures { result ≡ is_feasible (told_by self.now).result }
    {
        matches!(self, Told::Feasible(_))
    }

    pub fn is_infeasible(&self) -> bool
        ensures { result ≡ is_infeasible (told_by self.now).result }
    {
        matches!(self, Told::Infeasible)
    }
}

impl Range {
    #[tactic(auto, unfolding(crate::specs::Search::middle))]
    pub fn middle(self) -> u32
        requires { self.low ≤ self.high }
        ensures { result ≡ middle self.low self.high }
    {
        self.low + (self.high - self.low) / 2
    }

    // Whether the answer at m ends the search: feasible at the start.
    pub fn ends_at(self, m: u32, told: &Told) -> bool
        ensures { result ≡ ends_at self.start m (told_by told.now).result }
    {
        match told {
            Told::Feasible(_) => m == self.start,
            Told::Infeasible | Told::Incomplete => false,
        }
    }

    // What the answer at m leaves of it.
    pub fn after(self, m: u32, told: &Told) -> Range
        requires { (is_feasible (told_by told.now).result ≡ true → 0 < m) × (is_feasible (told_by told.now).result ≡ false → m < 256) }
        ensures { result ≡ range_after self m (told_by told.now).result }
    {
        match told {
            Told::Feasible(_) => Range {
                high: m - 1,
                ..self
            },
            Told::Infeasible | Told::Incomplete => Range { low: m + 1, ..self },
        }
    }
}

// The first level at or above the bound.
fn first_level(levels: &[u32], bound: u32) -> Option<usize>
    ensures { result ≡ position (leb bound) levels.now }
{
    levels.iter().position(|level| bound <= *level)
}

// That, else the last index; 0 without levels.
#[tactic(auto, using(crate::specs::Laws::start_is))]
pub fn start_of(levels: &[u32], bound: u32) -> usize
    ensures { result ≡ start_of levels.now bound }
{
    first_level(levels, bound).unwrap_or(levels.len().saturating_sub(1))
}
