// The flow model of a state at a preference limit.
ghost use Rattle.input_data.specs.Lengths.{full_day};
ghost use Rattle.flow_model.specs.Calls.{ModelBuilt};
ghost use Rattle.flow_model.specs.Lent.{call_input};

use flow_model::enter;
use input_data::FixedLimits;
use model_buffers::{Counts, LentBuffers, LentInput};
use refusal::Refusal;

// Builds the model within limits.
fn build_model_within(
    fixed: FixedLimits,
    day: &[u8],
    state: &[u8],
    input: &LentInput,
    buffers: &mut LentBuffers,
) -> Result<Counts, Refusal>
    ensures { ModelBuilt fixed.limits day.now state.now (call_input day.now state.now input.now) buffers.old buffers.new result }
{
    let model = enter(fixed, day, state, input, false, buffers)?;
    Ok(model.counts)
}

// Builds the model of a day, a state and its slot lists, at a preference limit.
pub fn build_model(
    day: &[u8],
    state: &[u8],
    input: &LentInput,
    buffers: &mut LentBuffers,
) -> Result<Counts, Refusal>
    ensures { ModelBuilt full_day day.now state.now (call_input day.now state.now input.now) buffers.old buffers.new result }
{
    build_model_within(FixedLimits::full_day(), day, state, input, buffers)
}
