// Checks 14 to 17, in their order.
ghost use Rattle.std.specs.Prelude.{◌≡◌, length};
ghost use Rattle.refusal.specs.Number.{outcome};
ghost use Rattle.model_buffers.specs.Lent.{held};
ghost use Rattle.mip_flow_static_data.specs.Nodes.{node_count};
ghost use Rattle.edge_values.specs.Number.{Checkable, buffer_number};

use crate::checks::ProposedValues;
use input_data::Sizes;
use model_buffers::{Counts, LentBuffers};
use refusal::Refusal;

// The first of 14 to 17 that applies. The buffers hold a finished model, which uses so much of them.
#[tactic(auto, unfolding(crate::specs::Number::buffer_number, input_data::specs::Checks::first_of))]
pub fn check_edge_values(
    sizes: Sizes,
    counts: Counts,
    model: &LentBuffers,
    values: &[i32],
) -> Result<(), Refusal>
    requires { Checkable (node_count sizes) counts (held model.now) (length values.now) }
    ensures { outcome result ≡ buffer_number (node_count sizes) counts (held model.now) values.now }
{
    let proposed = ProposedValues {
        nodes: sizes.choosers * sizes.slots + sizes.choices + sizes.slots,
        counts,
        model: &*model,
        values: &*values,
    };
    if proposed.some_outside() {
        return Err(Refusal::Values);
    }
    if proposed.some_used() {
        return Err(Refusal::Blocked);
    }
    if proposed.some_uneven() {
        return Err(Refusal::Uneven);
    }
    if proposed.some_unbalanced() {
        return Err(Refusal::Unbalanced);
    }
    Ok(())
}
