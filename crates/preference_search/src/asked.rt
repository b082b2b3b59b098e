// What begin and tell give.
ghost use Rattle.std.specs.Prelude.{◌≡◌};
ghost use Rattle.std.specs.Option.{is_some};

use crate::Search;

// The level that a search asks for, with its index.
#[derive(Clone, Copy)]
pub struct Ask {
    pub level: u32,
    pub index: u32,
}

// A search, its ask where it waits for the answer to one, and the most asks that it makes, from its begin on.
#[derive(Clone, Copy)]
pub struct Asked {
    pub ask: Option<Ask>,
    pub most_asks: u32,
    pub search: Search,
    ghost waits: { search.asking ≡ is_some ask },
}
