// The setting of a search.
ghost use Rattle.std.specs.Prelude.{◌≡◌};
ghost use Rattle.preference_search_steps.specs.Standing.{is_greedy, no_range, range_of};

use preference_search::Range;

// Greedy, or over levels, with what is left of the range. One that ends before its first ask has no range.
#[derive(Clone, Copy)]
pub enum Setting {
    Greedy,
    Levels(Option<Range>),
}

impl Setting {
    // That of a search that ends before its first ask.
    pub(crate) fn without_range(greedy: bool) -> Setting
        ensures { (is_greedy result ≡ greedy) × (range_of result ≡ no_range) }
    {
        if greedy {
            return Setting::Greedy;
        }
        Setting::Levels(None)
    }

    pub(crate) fn is_greedy(self) -> bool
        ensures { result ≡ is_greedy self }
    {
        matches!(self, Setting::Greedy)
    }

    // The range as C reads it: zeros where there is none.
    pub(crate) fn range(self) -> Range
        ensures { result ≡ range_of self }
    {
        match self {
            Setting::Levels(Some(range)) => range,
            Setting::Levels(None) | Setting::Greedy => Range {
                start: 0,
                low: 0,
                high: 0,
            },
        }
    }
}
