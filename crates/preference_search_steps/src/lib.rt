// The steps of a search: the next ask, the end, what is remembered, the answer from memory.
#![tactic(auto)]

mod setting;

ghost use Rattle.std.specs.Prelude.{true, false, ◌+◌, ◌-◌, ◌≡◌, ◌<◌, ◌≤◌, length};
ghost use Rattle.preference_search.specs.Answered.{asked_by};
ghost use Rattle.preference_search.specs.Laws.{Ranged};
ghost use Rattle.preference_search.specs.Search.{found_at};
ghost use Rattle.preference_search.specs.Steps.{step, search_answer, asked_again, begun_levels, most_asks_of, next, remembered, search_with};
ghost use Rattle.preference_search_steps.specs.Standing.{over_at, search_at};

use preference_search::{
    Ask, Asked, CachedAssignment, Known, LentCached, LentSearch, Range, Search, most_asks,
};
use scheduling::Scheduling;
pub use setting::Setting;

// Where a search stands: how many asks it has made and makes at most, its schedule, what it knows and what it remembers.
#[derive(Clone, Copy)]
pub struct Standing {
    pub asks: u32,
    pub most_asks: u32,
    pub entries: [u8; 32],
    pub known: Known,
    pub cached: CachedAssignment,
}

impl Standing {
    // Before the first ask.
    pub fn new(
        most_asks: u32,
        entries: [u8; 32],
        known: Known,
        cached: CachedAssignment,
    ) -> Standing
        ensures { (result.asks ≡ 0) × (result.most_asks ≡ most_asks)
            × (result.entries ≡ entries) × (result.known ≡ known) × (result.cached ≡ cached) }
    {
        Standing {
            asks: 0,
            most_asks,
            entries,
            known,
            cached,
        }
    }

    // Of a lent search over these levels, with what it knows now.
    pub fn of(search: &LentSearch, levels: &[u32], entries: [u8; 32], known: Known) -> Standing
        requires { length levels.now ≤ 256 }
        ensures { (result.asks ≡ search.now.asks) × (result.most_asks ≡ most_asks_of levels.now search.now)
            × (result.entries ≡ entries) × (result.known ≡ known) × (result.cached ≡ search.now.cached) }
    {
        Standing {
            asks: search.asks(),
            most_asks: most_asks(search.greedy(), levels.len(), search.range().start as usize),
            entries,
            known,
            cached: search.cached().copied(),
        }
    }

    // Remembers a plan that was found and is optimal.
    fn remember(self, greedy: bool) -> CachedAssignment
        ensures { result ≡ remembered greedy self.entries self.known self.cached }
    {
        if self.known.found & self.known.optimal {
            // The prover takes an array field into a literal by a variable only.
            let (entries, plan) = (self.entries, self.known.plan);
            return CachedAssignment {
                there: true,
                greedy,
                schedule: Scheduling { entries },
                plan,
            };
        }
        self.cached
    }

    fn search(self, asking: bool, setting: Setting) -> Search
        ensures { result ≡ search_at asking setting self.asks self.entries self.known self.cached }
    {
        let Standing {
            asks,
            most_asks: _,
            entries,
            known,
            cached,
        } = self;
        let Range { start, low, high } = setting.range();
        let Known {
            found,
            level,
            plan,
            optimal,
        } = known;
        Search {
            asking,
            greedy: setting.is_greedy(),
            found,
            optimal,
            asks,
            level,
            start,
            low,
            high,
            schedule: Scheduling { entries },
            plan,
            cached,
        }
    }

    // An ask. It is counted.
    pub fn ask(self, setting: Setting, ask: Ask) -> Asked
        requires { self.asks < u32.MAX }
        ensures { asked_by result ≡ search_answer self.most_asks
            (step ask.level ask.index (search_at true setting (self.asks + 1) self.entries self.known self.cached)) }
    {
        let counted = Standing {
            asks: self.asks + 1,
            ..self
        };
        Asked {
            ask: Some(ask),
            most_asks: self.most_asks,
            search: counted.search(true, setting),
        }
    }

    // An end at which nothing is put in place of what is remembered.
    pub fn rest(self, setting: Setting) -> Asked
        ensures { asked_by result ≡ search_answer self.most_asks
            (step 0 0 (search_at false setting self.asks self.entries self.known self.cached)) }
    {
        Asked {
            ask: None,
            most_asks: self.most_asks,
            search: self.search(false, setting),
        }
    }

    // The end of a search.
    pub fn end(self, setting: Setting) -> Asked
        ensures { asked_by result ≡ search_answer self.most_asks (over_at setting self.asks self.entries self.known self.cached) }
    {
        let ended = Standing {
            cached: self.remember(setting.is_greedy()),
            ..self
        };
        ended.rest(setting)
    }

    // The next ask of a range, or its end.
    #[tactic(auto, using(preference_search::specs::Laws::middle_most), unfolding(preference_search::specs::Steps::next))]
    pub fn go_on(self, levels: &[u32], range: Range) -> Asked
        requires { (range.high < length levels.now) × (length levels.now ≤ 256) × (self.asks ≤ 256) }
        ensures { asked_by result ≡ search_answer self.most_asks
            (next levels.now self.asks range.start range.low range.high self.entries self.known self.cached) }
    {
        let setting = Setting::Levels(Some(range));
        if range.high < range.low {
            return self.end(setting);
        }
        let m = range.middle();
        let ask = Ask {
            level: levels[m as usize],
            index: m,
        };
        self.ask(setting, ask)
    }
}

// The next ask of a range above its middle, where the best plan so far stays: most asks are such, so the answer is
// made from the lent bytes at once.
#[tactic(auto, using(preference_search::specs::Laws::middle_most))]
pub fn ask_again(
    levels: &[u32],
    search: &LentSearch,
    low: u32,
    entries: [u8; 32],
    mark: bool,
) -> Asked
    requires { Ranged search.now levels.now × (low ≤ search.now.high) }
    ensures { asked_by result ≡ search_answer (most_asks_of levels.now search.now)
        (asked_again levels.now search.now low search.now.high entries mark) }
{
    let range = Range {
        low,
        ..search.range()
    };
    let m = range.middle();
    let ask = Ask {
        level: levels[m as usize],
        index: m,
    };
    let standing = Standing::of(search, levels, entries, search.known(mark));
    standing.ask(Setting::Levels(Some(range)), ask)
}

// What is remembered: optimal, without an ask and without a level.
pub fn recall(
    seats: usize,
    greedy: bool,
    most_asks: u32,
    entries: [u8; 32],
    cached: &LentCached,
) -> Asked
    requires { seats ≤ 512 }
    ensures { asked_by result ≡ search_answer most_asks (step 0 0 (search_with false greedy 0 0 0 0 entries
        (found_at seats 0 cached.now.plan true) cached.now)) }
{
    let known = Known::found_at(seats, 0, cached.plan(), true);
    let standing = Standing::new(most_asks, entries, known, cached.copied());
    standing.rest(Setting::without_range(greedy))
}

// The search over levels from this index on; without levels it ends at once.
#[tactic(auto, unfolding(preference_search::specs::Steps::begun_levels))]
pub fn begin_levels(
    levels: &[u32],
    start: u32,
    most_asks: u32,
    entries: [u8; 32],
    cached: &LentCached,
) -> Asked
    requires { (length levels.now ≤ 256) × (start ≤ length levels.now - 1) }
    ensures { asked_by result ≡ search_answer most_asks (begun_levels levels.now start entries cached.now) }
{
    let standing = Standing::new(most_asks, entries, Known::nothing(true), cached.copied());
    if levels.is_empty() {
        return standing.rest(Setting::Levels(None));
    }
    let range = Range {
        start,
        low: start,
        high: (levels.len() - 1) as u32,
    };
    standing.go_on(levels, range)
}
