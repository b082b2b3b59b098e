// create_edge_group_or_block_edges of mip_flow.rs: edges that are named together form a group if all are
// there; otherwise those that are there are blocked.
#![tactic(auto)]

ghost use Rattle.std.specs.Prelude.{◌≡◌, ℕ, [], ◌∷◌, ◌+◌, ◌<◌, ◌≤◌, IfSome, length};
ghost use Rattle.counting.specs.Calls.{TakesBelow, AgreesBelow};
ghost use Rattle.counting.specs.Fold.{table_to};
ghost use Rattle.model_buffers.specs.Stored.{Filled};
ghost use Rattle.edge_groups.specs.Groups.{Room};
ghost use Rattle.edge_groups.specs.Lent.{Stores};
ghost use Rattle.edge_groups.specs.Together.{one_there, edge_list, GivesSmall, PutsThose};

use input_data::Sizes;
use mip_flow::EdgeIndex;
use model_buffers::{Groups, push};

// What decides which edges are named together, and which of them are there.
#[derive(Clone, Copy)]
pub struct GroupInput<'a> {
    pub sizes: Sizes,
    pub schedule: &'a [u8; 32],
    pub index: &'a EdgeIndex,
    ghost few: { sizes.choosers ≤ 64 },
}

// Stores an edge if it is there.
#[tactic(auto, using(model_buffers::specs::StoredLaws::filled_none))]
fn put_edge(edge: Option<usize>, buffer: &mut [u16], used: &mut usize)
    requires { IfSome edge (λ e. e < 65536) × (used.old < length buffer.old) }
    ensures { Filled buffer.old used.old (edge_list edge) buffer.new used.new }
{
    if let Some(e) = edge {
        push(buffer, used, e);
    }
}

// Stores those of edge(0), edge(1), .., edge(n - 1) that are there.
fn put_present<F: Fn(usize) -> Option<usize>>(
    n: usize,
    edge: F,
    buffer: &mut [u16],
    used: &mut usize,
)
    requires { TakesBelow (F.pre edge) n × GivesSmall (F.post edge) n × (used.old + n ≤ length buffer.old) }
    ensures { PutsThose (F.post edge) n buffer.old used.old n buffer.new used.new }
{
    for i in 0..n {
        put_edge(edge(i), buffer, used);
    }
}

// The edges edge(0), edge(1), .., edge(n - 1) form a group if all are there; otherwise those that are there
// are blocked.
pub fn group_or_block<F: Fn(usize) -> Option<usize>>(n: usize, edge: F, groups: &mut Groups)
    requires { TakesBelow (F.pre edge) n × GivesSmall (F.post edge) n × Room groups.old n 1 }
    ensures { (count : ℕ) (name : ℕ → ℕ) → AgreesBelow (F.post edge) n (one_there count name) → Stores count (table_to n name ∷ []) groups }
{
    let all = counting::all_below(
        n,
        |i|
            requires { F.pre edge i }
        { edge(i).is_some() },
    );
    if all {
        put_present(n, edge, groups.entries, &mut groups.entries_used);
        groups.close();
    } else {
        put_present(n, edge, groups.blocked, &mut groups.blocked_used);
    }
}
