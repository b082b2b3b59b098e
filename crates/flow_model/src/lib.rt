// assignment_solver.rs, solve_with_limit: the input of a call is tested, and its flow model written into
// the lent buffers.
#![tactic(auto)]

mod input;
mod model;

use input_data::Sizes;
use mip_flow::EdgeIndex;
pub use model::enter;
use model_buffers::Counts;
use slot_lists::SlotLists;

// A model that stands in the lent buffers: the slots' lists that it was made by, the numbers of its
// seats' edges, and how much of the buffers it uses.
#[derive(Drop)]
pub struct FlowModel<'a> {
    pub sizes: Sizes,
    pub lists: SlotLists<'a>,
    pub index: EdgeIndex,
    pub counts: Counts,
}

// How much of the buffers a model uses of which nothing is written yet.
const NONE_USED: Counts = Counts {
    edges: 0,
    entries: 0,
    groups: 0,
    blocked: 0,
};
