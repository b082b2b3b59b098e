// add_keyed_edge of mip_flow.rs: one edge, that of a seat or that of a scheduled choice, is stored.
ghost use Rattle.std.specs.Prelude.{◌<◌};
ghost use Rattle.mip_flow.specs.Edges.{seat_at, place_at};
ghost use Rattle.mip_flow.specs.Lent.{StoresSeats, StoresChoices};
ghost use Rattle.mip_flow.specs.Stored.{choices_of, Room, SeatRoom};

use crate::ScheduledChoices;
use mip_flow::{EdgeIndex, Offer};
use model_buffers::Edges;
use scheduling::slot_in;

// Stores the edge of chooser c in slot s to choice k, and its number in the index, if the preference is at
// most the limit and no block applies.
pub fn put_seat(
    offer: &Offer,
    c: usize,
    s: usize,
    k: usize,
    edges: &mut Edges,
    index: &mut EdgeIndex,
)
    requires { (c < offer.now.sizes.choosers) × (s < offer.now.sizes.slots) × (k < offer.now.sizes.choices)
        × SeatRoom edges.old index.old 1 }
    ensures { StoresSeats offer.now (seat_at offer.now c s k) edges index }
{
    if !offer.has_edge(c, k) {
        return;
    }
    let nodes = offer.nodes();
    let from = nodes.chooser(c, s);
    let to = nodes.choice(k);
    edges.push(from, to, 1, offer.cost(c, k));
    index.push(c, k);
}

// Stores the edge of choice k to its slot, if it has one. It costs nothing.
pub fn put_choice(choices: &ScheduledChoices, k: usize, edges: &mut Edges)
    requires { (k < choices.now.nodes.sizes.choices) × Room edges.old 1 }
    ensures { StoresChoices (choices_of choices.now.nodes.sizes choices.now.schedule.now choices.now.day.now.mins choices.now.day.now.maxs)
        (place_at choices.now.schedule.now k) edges }
{
    let Some(slot) = slot_in(choices.schedule[k]) else {
        return;
    };
    let from = choices.nodes.choice(k);
    let to = choices.nodes.slot(slot);
    let width = choices.day.max(k) - choices.day.min(k);
    edges.push(from, to, width, 0);
}
