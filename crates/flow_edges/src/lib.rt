// assignment_solver.rs, solve_with_limit: the edges of the open seats, by chooser, slot and place in the
// slot's list, then those of the scheduled choices.
#![tactic(auto)]

mod edges;

ghost use Rattle.std.specs.Prelude.{◌≡◌, ◌*◌, ◌<◌};
ghost use Rattle.counting.specs.Fold.{sum_to};
ghost use Rattle.slot_lists.specs.Parts.{list_length, list_entry, Listed};
ghost use Rattle.model_buffers.specs.Stored.{edges_with};
ghost use Rattle.mip_flow.specs.Edges.{slot_seats_at, chooser_seats, open_seats, scheduled};
ghost use Rattle.mip_flow.specs.Lent.{StoresSeats, StoresChoices};
ghost use Rattle.mip_flow.specs.Stored.{choices_of, Placed, Room, SeatRoom};

use edges::{put_choice, put_seat};
use input_data::Day;
use mip_flow::{EdgeIndex, Nodes, Offer};
use model_buffers::Edges;
use slot_lists::SlotLists;

// What decides which seats are open, and the slots' lists, which put them in their order.
#[derive(Clone, Copy)]
pub struct OpenSeats<'a> {
    pub offer: &'a Offer<'a, 'a>,
    pub lists: &'a SlotLists<'a>,
    ghost listed: { Listed offer.now.sizes.slots offer.now.sizes.choices lists.now },
}

// A schedule of a day's choices, in whose slots each choice has room.
#[derive(Clone, Copy)]
pub struct ScheduledChoices<'a> {
    pub nodes: Nodes,
    pub schedule: &'a [u8; 32],
    pub day: &'a Day<'a>,
    ghost placed: { Placed (choices_of nodes.sizes schedule.now day.now.mins day.now.maxs) },
}

// Stores the edges of chooser c in slot s, by position of its list.
#[tactic(auto, using(mip_flow::specs::Stored::seats_laws))]
fn put_slot_seats(seats: &OpenSeats, c: usize, s: usize, edges: &mut Edges, index: &mut EdgeIndex)
    requires { (c < seats.now.offer.now.sizes.choosers) × (s < seats.now.offer.now.sizes.slots)
        × SeatRoom edges.old index.old (list_length seats.now.lists.now s) }
    ensures { StoresSeats seats.now.offer.now
        (slot_seats_at seats.now.offer.now (list_length seats.now.lists.now) (list_entry seats.now.lists.now) c s) edges index }
{
    let list = seats.lists.list(s);
    for k in list {
        put_seat(seats.offer, c, s, *k as usize, edges, index);
    }
}

// Stores the edges of chooser c, slot by slot.
#[tactic(auto, using(mip_flow::specs::Stored::seats_laws), unfolding(mip_flow::specs::Edges::chooser_seats))]
fn put_chooser_seats(seats: &OpenSeats, c: usize, edges: &mut Edges, index: &mut EdgeIndex)
    requires { (c < seats.now.offer.now.sizes.choosers)
        × SeatRoom edges.old index.old (sum_to seats.now.offer.now.sizes.slots (list_length seats.now.lists.now)) }
    ensures { StoresSeats seats.now.offer.now
        (chooser_seats seats.now.offer.now (list_length seats.now.lists.now) (list_entry seats.now.lists.now) c) edges index }
{
    for s in 0..seats.offer.slots() {
        put_slot_seats(seats, c, s, edges, index);
    }
}

// Stores the edges of all open seats, chooser by chooser.
#[tactic(auto, using(mip_flow::specs::Stored::seats_laws), unfolding(mip_flow::specs::Edges::open_seats))]
pub fn put_seats(seats: &OpenSeats, edges: &mut Edges, index: &mut EdgeIndex)
    requires { SeatRoom edges.old index.old (seats.now.offer.now.sizes.choosers * sum_to seats.now.offer.now.sizes.slots (list_length seats.now.lists.now)) }
    ensures stores { StoresSeats seats.now.offer.now
        (open_seats seats.now.offer.now (list_length seats.now.lists.now) (list_entry seats.now.lists.now)) edges index }
    ensures same { edges.new ≡ edges_with edges.old edges.new }
{
    for c in 0..seats.offer.choosers() {
        put_chooser_seats(seats, c, edges, index);
    }
}

// Stores the edges of the scheduled choices, upward.
#[tactic(auto, using(mip_flow::specs::Stored::choices_laws), unfolding(mip_flow::specs::Edges::scheduled))]
pub fn put_choices(choices: &ScheduledChoices, edges: &mut Edges)
    requires { Room edges.old choices.now.nodes.sizes.choices }
    ensures stores { StoresChoices (choices_of choices.now.nodes.sizes choices.now.schedule.now choices.now.day.now.mins choices.now.day.now.maxs)
        (scheduled choices.now.nodes.sizes.choices choices.now.schedule.now) edges }
    ensures same { edges.new ≡ edges_with edges.old edges.new }
{
    for k in 0..choices.nodes.sizes.choices {
        put_choice(choices, k, edges);
    }
}
