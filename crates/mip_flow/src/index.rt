// The numbers of the seats' edges, by chooser and choice.
ghost use Rattle.std.specs.Prelude.{◌≡◌, ◌<◌, IfSome};
ghost use Rattle.mip_flow.specs.Index.{unnumbered, numbered_next};
ghost use Rattle.mip_flow.specs.IndexLaws.{edge_in};

use std::marker::Model;

// The first `count` numbers are given. A chooser and a choice without an edge have a number that none has.
#[derive(Drop)]
pub struct EdgeIndex {
    numbers: [u16; 2048],
    count: usize,
}

impl Model for EdgeIndex {
    ghost use Rattle.mip_flow.specs.Index.{EdgeNumbers};

    ghost Value = { EdgeNumbers };

    ghost view = { λ i. record { numbers = i.numbers; count = i.count } };
}

impl EdgeIndex {
    // No edge has a number.
    pub fn none() -> EdgeIndex
        ensures { result ≡ unnumbered }
    {
        EdgeIndex {
            numbers: [65535; 2048],
            count: 0,
        }
    }

    // The edge of chooser c to choice k, if there is one.
    pub fn edge(&self, c: usize, k: usize) -> Option<usize>
        requires { (c < 64) × (k < 32) }
        ensures number { result ≡ edge_in self.now c k }
        ensures small { IfSome result (λ e. e < 65536) }
    {
        let e = self.numbers[32 * c + k] as usize;
        (e < self.count).then_some(e)
    }

    // The edge of chooser c to choice k has the next number.
    pub fn push(&mut self, c: usize, k: usize)
        requires { (c < 64) × (k < 32) × (self.old.count < 65535) }
        ensures { self.new ≡ numbered_next self.old c k }
    {
        self.numbers[32 * c + k] = self.count as u16;
        self.count += 1;
    }
}
