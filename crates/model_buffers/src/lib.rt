// The buffers that a model is written to: check 2 of their lengths and of the tables beside them, and
// the answer that says how much of them is used.
#![tactic(auto)]

mod answer;
mod buffers;
mod edges;
mod groups;

ghost use Rattle.std.specs.Prelude.{◌≡◌, not, ◌||◌, eqb, length};
ghost use Rattle.input_data.specs.Lengths.{preferences_length, costs_length};
ghost use Rattle.model_buffers.specs.Lengths.{short_edges, short_groups, short_buffers, short_values};

pub use buffers::LentBuffers;
pub use edges::Edges;
pub use groups::{Groups, push};
use input_data::{Day, FixedLimits};

// How long the eight lent buffers of a model are.
#[derive(Clone, Copy)]
pub struct Lengths {
    pub supplies: usize,
    pub from: usize,
    pub to: usize,
    pub max: usize,
    pub cost: usize,
    pub entries: usize,
    pub ends: usize,
    pub blocked: usize,
}

// What a call that builds a model is lent beside the day and the state: the preference limit, the
// preferences and their costs, and the slots' lists.
#[derive(Clone, Copy)]
pub struct LentInput<'a> {
    pub limit: u32,
    pub preferences: &'a [u32],
    pub costs: &'a [i64],
    pub lists: &'a [u8],
}

// How much of the buffers a model uses.
#[derive(Clone, Copy)]
pub struct Counts {
    pub edges: usize,
    pub entries: usize,
    pub groups: usize,
    pub blocked: usize,
}

// The number of the answer, and how much of the buffers the model uses; zeros where refused.
#[repr(C)]
#[derive(Clone, Copy)]
pub struct ModelAnswer {
    pub number: u32,
    pub edges: usize,
    pub entries: usize,
    pub groups: usize,
    pub blocked: usize,
}

fn short_edges(fixed: FixedLimits, lengths: Lengths) -> bool
    ensures { result ≡ short_edges fixed.limits lengths }
{
    let edges = fixed.edges_length();
    (lengths.from < edges) | (lengths.to < edges) | (lengths.max < edges) | (lengths.cost < edges)
}

fn short_groups(lengths: Lengths) -> bool
    ensures { result ≡ short_groups lengths }
{
    (lengths.entries < 4096) | (lengths.ends < 2048) | (lengths.blocked < 4096)
}

// 2. One of the buffers is shorter than its named length.
pub fn short_buffers(fixed: FixedLimits, lengths: Lengths) -> bool
    ensures { result ≡ short_buffers fixed.limits lengths }
{
    (lengths.supplies < fixed.supplies_length())
        | short_edges(fixed, lengths)
        | short_groups(lengths)
}

// 2. The values or the plan are shorter than their named lengths.
pub fn short_values(fixed: FixedLimits, values: usize, plan: usize) -> bool
    ensures { result ≡ short_values fixed.limits values plan }
{
    (values < fixed.edges_length()) | (plan < fixed.plan_length())
}

// 2. The preferences or the costs have not exactly their length.
pub fn wrong_tables(day: &Day, input: &LentInput) -> bool
    ensures { result ≡ (not (eqb (length input.now.preferences.now) (preferences_length day.now))
        || not (eqb (length input.now.costs.now) (costs_length day.now))) }
{
    (input.preferences.len() != day.preferences())
        | (input.costs.len() != day.max_preference() as usize + 1)
}
