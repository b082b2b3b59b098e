// Node numbers by formula.
ghost use Rattle.std.specs.Prelude.{◌≡◌, ◌<◌};
ghost use Rattle.mip_flow_static_data.specs.Nodes.{chooser_node, choice_node, slot_node};
ghost use Rattle.mip_flow.specs.Edges.{SmallSizes};

use input_data::Sizes;

// The nodes of sizes that the fixed memory holds.
#[derive(Clone, Copy)]
pub struct Nodes {
    pub sizes: Sizes,
    ghost small: { SmallSizes sizes },
}

impl Nodes {
    // The node of chooser c in slot s.
    pub fn chooser(self, c: usize, s: usize) -> usize
        requires { (c < self.sizes.choosers) × (s < self.sizes.slots) }
        ensures { (result ≡ chooser_node self.sizes c s) × (result < 512) }
    {
        c * self.sizes.slots + s
    }

    // The node of choice k.
    pub fn choice(self, k: usize) -> usize
        requires { k < self.sizes.choices }
        ensures { (result ≡ choice_node self.sizes k) × (result < 544) }
    {
        self.sizes.choosers * self.sizes.slots + k
    }

    // The node of slot s.
    pub fn slot(self, s: usize) -> usize
        requires { s < 8 }
        ensures { (result ≡ slot_node self.sizes s) × (result < 552) }
    {
        self.sizes.choosers * self.sizes.slots + self.sizes.choices + s
    }
}
