// A search and what it remembers as a call is lent them: bytes, which contracts see as the structs that they stand for.
ghost use Rattle.std.specs.Prelude.{◌≡◌};
ghost use Rattle.preference_search.specs.Answered.{range_by};
ghost use Rattle.preference_search.specs.Bytes.{IsCached, IsSearch, cached_in, search_in};
ghost use Rattle.preference_search.specs.Search.{marked};
ghost use Rattle.preference_search.specs.Steps.{is_equal, known_by, remembers};

use crate::{CachedAssignment, Known, Range};
use input_data::{flag, word};
use scheduling::Scheduling;
use std::marker::Model;

// Whether two schedules are equal, over the day's choices.
#[tactic(auto, using(crate::specs::Laws::equal_parts))]
fn is_equal(choices: usize, a: &[u8; 32], b: &[u8; 32]) -> bool
    ensures { result ≡ is_equal choices a.now b.now }
{
    let n = choices.min(32);
    a[..n] == b[..n]
}

#[derive(Drop)]
pub struct LentCached<'a> {
    bytes: &'a [u8],
}

impl<'a> Model for LentCached<'a> {
    ghost use Rattle.preference_search.specs.Bytes.{IsCached, cached_in};
    ghost use Rattle.preference_search.specs.declared.CachedAssignment.{CachedAssignment};

    ghost Value = { CachedAssignment };

    ghost view = { λ c. cached_in c.bytes.now };

    ghost invariant = { λ c. IsCached c.bytes.now };
}

impl<'a> LentCached<'a> {
    pub fn lent(bytes: &'a [u8]) -> LentCached<'a>
        requires { IsCached bytes.now }
        ensures { result ≡ cached_in bytes.now }
    {
        LentCached { bytes }
    }

    pub fn is_there(&self) -> bool
        ensures { result ≡ self.now.there }
    {
        flag(self.bytes, 0)
    }

    pub fn schedule(&self) -> &'a [u8; 32]
        ensures { result.now ≡ self.now.schedule.entries }
    {
        self.bytes[2..34].as_array().unwrap()
    }

    pub fn plan(&self) -> &'a [u8; 512]
        ensures { result.now ≡ self.now.plan }
    {
        self.bytes[34..546].as_array().unwrap()
    }

    // Whether it answers a search of this schedule with this greedy setting.
    #[tactic(auto, unfolding(crate::specs::Steps::remembers))]
    pub fn remembers(&self, choices: usize, entries: &[u8; 32], greedy: bool) -> bool
        ensures { result ≡ remembers choices entries.now greedy self.now }
    {
        self.is_there()
            & (greedy == flag(self.bytes, 1))
            & is_equal(choices, entries, self.schedule())
    }

    // As an answer holds it.
    pub fn copied(&self) -> CachedAssignment
        ensures { result ≡ self.now }
    {
        CachedAssignment {
            there: flag(self.bytes, 0),
            greedy: flag(self.bytes, 1),
            schedule: Scheduling {
                entries: *self.schedule(),
            },
            plan: *self.plan(),
        }
    }
}

#[derive(Drop)]
pub struct LentSearch<'a> {
    bytes: &'a [u8],
}

impl<'a> Model for LentSearch<'a> {
    ghost use Rattle.preference_search.specs.Bytes.{IsSearch, search_in};
    ghost use Rattle.preference_search.specs.declared.Search.{Search};

    ghost Value = { Search };

    ghost view = { λ s. search_in s.bytes.now };

    ghost invariant = { λ s. IsSearch s.bytes.now };
}

impl<'a> LentSearch<'a> {
    pub fn lent(bytes: &'a [u8]) -> LentSearch<'a>
        requires { IsSearch bytes.now }
        ensures { result ≡ search_in bytes.now }
    {
        LentSearch { bytes }
    }

    pub fn asking(&self) -> bool
        ensures { result ≡ self.now.asking }
    {
        flag(self.bytes, 0)
    }

    pub fn greedy(&self) -> bool
        ensures { result ≡ self.now.greedy }
    {
        flag(self.bytes, 1)
    }

    pub fn found(&self) -> bool
        ensures { result ≡ self.now.found }
    {
        flag(self.bytes, 2)
    }

    pub fn optimal(&self) -> bool
        ensures { result ≡ self.now.optimal }
    {
        flag(self.bytes, 3)
    }

    pub fn asks(&self) -> u32
        ensures { result ≡ self.now.asks }
    {
        word(self.bytes, 4)
    }

    pub fn range(&self) -> Range
        ensures { result ≡ range_by self.now }
    {
        Range {
            start: word(self.bytes, 12),
            low: word(self.bytes, 16),
            high: word(self.bytes, 20),
        }
    }

    pub fn schedule(&self) -> &'a [u8; 32]
        ensures { result.now ≡ self.now.schedule.entries }
    {
        self.bytes[24..56].as_array().unwrap()
    }

    pub fn plan(&self) -> &'a [u8; 512]
        ensures { result.now ≡ self.now.plan }
    {
        self.bytes[56..568].as_array().unwrap()
    }

    // What it remembers.
    pub fn cached(&self) -> LentCached<'a>
        ensures { result ≡ self.now.cached }
    {
        LentCached::lent(&self.bytes[568..1114])
    }

    // What it knows, with this optimal mark.
    pub fn known(&self, mark: bool) -> Known
        ensures { result ≡ marked (known_by self.now) mark }
    {
        Known {
            found: flag(self.bytes, 2),
            level: word(self.bytes, 8),
            plan: *self.plan(),
            optimal: mark,
        }
    }
}
