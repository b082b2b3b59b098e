// Edge values that are proposed from outside: checked against the model, and decoded.
ghost use Rattle.input_data.specs.Lengths.{full_day};
ghost use Rattle.flow_model.specs.Calls.{ValuesChecked};
ghost use Rattle.flow_model.specs.Lent.{call_input};

use decoding::{AcceptedValues, EdgeValues, decode};
use edge_values::check_edge_values;
use flow_model::enter;
use input_data::FixedLimits;
use model_buffers::{Counts, LentBuffers, LentInput, short_values};
use refusal::Refusal;

// Checks and decodes within limits.
fn check_values_within(
    fixed: FixedLimits,
    day: &[u8],
    state: &[u8],
    input: &LentInput,
    values: &[i32],
    buffers: &mut LentBuffers,
    plan: &mut [u8],
) -> Result<Counts, Refusal>
    ensures { ValuesChecked fixed.limits day.now state.now (call_input day.now state.now input.now) values.now
        buffers.old plan.old buffers.new plan.new result }
{
    let short = short_values(fixed, values.len(), plan.len());
    let model = enter(fixed, day, state, input, short, buffers)?;
    check_edge_values(model.sizes, model.counts, buffers, values)?;
    let edges = EdgeValues {
        index: &model.index,
        values,
    };
    let accepted = AcceptedValues {
        sizes: model.sizes,
        lists: model.lists,
        edges,
    };
    decode(&accepted, plan);
    Ok(model.counts)
}

// Builds the model, checks the values against it, and decodes them into the plan.
pub fn check_values(
    day: &[u8],
    state: &[u8],
    input: &LentInput,
    values: &[i32],
    buffers: &mut LentBuffers,
    plan: &mut [u8],
) -> Result<Counts, Refusal>
    ensures { ValuesChecked full_day day.now state.now (call_input day.now state.now input.now) values.now
        buffers.old plan.old buffers.new plan.new result }
{
    check_values_within(
        FixedLimits::full_day(),
        day,
        state,
        input,
        values,
        buffers,
        plan,
    )
}
