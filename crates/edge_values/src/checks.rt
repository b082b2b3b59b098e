// Checks 14 to 16. No walk over a table ends early, so that it is quick.
ghost use Rattle.std.specs.Prelude.{◌≡◌, length};
ghost use Rattle.counting.specs.Fold.{any_to};
ghost use Rattle.model_buffers.specs.Lent.{held};
ghost use Rattle.edge_values.specs.Values.{some_outside, some_used, is_uneven};
ghost use Rattle.edge_values.specs.Checks.{Naming, uneven_part};
ghost use Rattle.edge_values.specs.Number.{Checkable};

use model_buffers::{Counts, LentBuffers};

// Values that are proposed for the edges of a finished model: its number of nodes, how much of the lent
// buffers it uses, and the buffers that hold it.
#[derive(Clone, Copy)]
pub struct ProposedValues<'a, 'b> {
    pub nodes: usize,
    pub counts: Counts,
    pub model: &'a LentBuffers<'b>,
    pub values: &'a [i32],
    ghost checkable: { Checkable nodes counts (held model.now) (length values.now) },
}

// Two edges of a group differ: one differs from the first.
#[tactic(auto, using(crate::specs::Checks::uneven_empty))]
fn is_uneven(group: &[u16], values: &[i32]) -> bool
    requires { Naming (length group.now) group.now (length values.now) }
    ensures { result ≡ is_uneven values.now group.now }
{
    let Some(first) = group.first() else {
        return false;
    };
    let first = values[*first as usize];
    counting::any_below(group.len(), |i| values[group[i] as usize] != first)
}

impl ProposedValues<'_, '_> {
    // 14. An edge value lies outside 0 to the edge's max.
    #[tactic(auto, unfolding(crate::specs::Values::some_outside))]
    pub fn some_outside(&self) -> bool
        ensures { result ≡ some_outside self.now.counts.edges self.now.model.now.max.now self.now.values.now }
    {
        let model = self.model;
        counting::any_below(
            self.counts.edges,
            |e| (self.values[e] < 0) | (self.values[e] > model.max[e] as i32),
        )
    }

    // 15. A blocked edge has a value other than 0.
    #[tactic(auto, unfolding(crate::specs::Values::some_used, counting::specs::Ints::eq_z))]
    pub fn some_used(&self) -> bool
        ensures { result ≡ some_used self.now.counts.blocked self.now.model.now.blocked.now self.now.values.now }
    {
        let model = self.model;
        counting::any_below(
            self.counts.blocked,
            |i| self.values[model.blocked[i] as usize] != 0,
        )
    }

    // 16. Two edges of one group differ. Each group begins where the one before it ends.
    pub fn some_uneven(&self) -> bool
        ensures { result ≡ any_to self.now.counts.groups (uneven_part self.now.values.now self.now.model.now.entries.now self.now.model.now.ends.now) }
    {
        let model = self.model;
        let mut bad = false;
        let mut start = 0;
        for end in &model.ends[..self.counts.groups] {
            let stop = *end as usize;
            bad |= is_uneven(&model.entries[start..stop], self.values);
            start = stop;
        }
        bad
    }
}
