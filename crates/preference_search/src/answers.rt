// The answer that the result of a call stands for.
ghost use Rattle.std.specs.Prelude.{◌≡◌};
ghost use Rattle.preference_search.specs.Answered.{search_answered};
ghost use Rattle.preference_search.specs.Steps.{no_search};

use crate::{Ask, Asked, CachedAssignment, Search, SearchAnswer};
use refusal::Refusal;
use scheduling::Scheduling;

// Zeros, which are a search that has ended. Kept apart: an answer that is not refused is then stored once less.
#[inline(never)]
fn no_search() -> Search
    ensures { result ≡ no_search }
{
    Search {
        asking: false,
        greedy: false,
        found: false,
        optimal: false,
        asks: 0,
        level: 0,
        start: 0,
        low: 0,
        high: 0,
        schedule: Scheduling { entries: [0u8; 32] },
        plan: [0u8; 512],
        cached: CachedAssignment {
            there: false,
            greedy: false,
            schedule: Scheduling { entries: [0u8; 32] },
            plan: [0u8; 512],
        },
    }
}

impl From<Result<Asked, Refusal>> for SearchAnswer {
    ghost from_gives = { λ r a. a ≡ search_answered r };

    fn from(res: Result<Asked, Refusal>) -> SearchAnswer {
        match res {
            Ok(asked) => {
                let ask = asked.ask.unwrap_or(Ask { level: 0, index: 0 });
                SearchAnswer {
                    number: 0,
                    level: ask.level,
                    index: ask.index,
                    search: asked.search,
                    most_asks: asked.most_asks,
                }
            }
            Err(refusal) => SearchAnswer {
                number: u32::from(refusal),
                level: 0,
                index: 0,
                search: no_search(),
                most_asks: 0,
            },
        }
    }
}
