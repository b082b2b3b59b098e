// Which seats have an edge, and what it costs.
ghost use Rattle.std.specs.Prelude.{◌≡◌, ◌<◌, pos, length, get_or};
ghost use Rattle.mip_flow.specs.Edges.{offer, preference_of, is_open, Offered};

use crate::Nodes;
use input_data::Sizes;
use model_buffers::LentInput;
use std::marker::Model;

// What decides which seats are open, and what they cost. Contracts see the lists that it lends.
#[derive(Drop)]
pub struct Offer<'a, 'b> {
    sizes: Sizes,
    limit: u32,
    preferences: &'a [u32],
    blocks: &'b [bool; 2048],
    costs: &'a [i64],
}

impl<'a, 'b> Model for Offer<'a, 'b> {
    ghost use Rattle.mip_flow.specs.Edges.{Offer, offer, Offered};

    ghost Value = { Offer };

    ghost view = { λ o. offer o.sizes o.limit o.preferences.now o.blocks.now o.costs.now };

    ghost invariant = { λ o. Offered (offer o.sizes o.limit o.preferences.now o.blocks.now o.costs.now) };
}

impl<'a, 'b> Offer<'a, 'b> {
    // The tables of a call, and the blocks of its state.
    pub fn of(sizes: Sizes, input: &LentInput<'a>, blocks: &'b [bool; 2048]) -> Offer<'a, 'b>
        requires { Offered (offer sizes input.now.limit input.now.preferences.now blocks.now input.now.costs.now) }
        ensures { result ≡ offer sizes input.now.limit input.now.preferences.now blocks.now input.now.costs.now }
    {
        Offer {
            sizes,
            limit: input.limit,
            preferences: input.preferences,
            blocks,
            costs: input.costs,
        }
    }

    pub fn nodes(&self) -> Nodes
        ensures { result.sizes ≡ self.now.sizes }
    {
        Nodes { sizes: self.sizes }
    }

    pub fn choosers(&self) -> usize
        ensures { result ≡ self.now.sizes.choosers }
    {
        self.sizes.choosers
    }

    pub fn slots(&self) -> usize
        ensures { result ≡ self.now.sizes.slots }
    {
        self.sizes.slots
    }

    // The preference of chooser c for choice k. It has a cost.
    #[tactic(auto, unfolding(crate::specs::Edges::preference_of))]
    fn preference(&self, c: usize, k: usize) -> u32
        requires { (c < self.now.sizes.choosers) × (k < self.now.sizes.choices) }
        ensures { (result ≡ preference_of self.now c k) × (result < length self.now.costs) }
    {
        self.preferences[c * self.sizes.choices + k]
    }

    // A seat has an edge if the preference is at most the limit and no block applies.
    #[tactic(auto, unfolding(crate::specs::Edges::is_open))]
    pub fn has_edge(&self, c: usize, k: usize) -> bool
        requires { (c < self.now.sizes.choosers) × (k < self.now.sizes.choices) }
        ensures { result ≡ is_open self.now c k }
    {
        let preference = self.preference(c, k);
        (preference <= self.limit) & !self.blocks[32 * c + k]
    }

    // What an edge costs: the cost of the preference.
    pub fn cost(&self, c: usize, k: usize) -> i64
        requires { (c < self.now.sizes.choosers) × (k < self.now.sizes.choices) }
        ensures { result ≡ get_or self.now.costs (preference_of self.now c k) (pos 0) }
    {
        let preference = self.preference(c, k);
        self.costs[preference as usize]
    }
}
