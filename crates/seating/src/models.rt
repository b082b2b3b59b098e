// The entries that build a model and check values against it.
ghost use Rattle.input_data.specs.Lengths.{full_day};
ghost use Rattle.model_buffers.specs.Buffers.{buffers};
ghost use Rattle.flow_model.specs.Lent.{lent_input};
ghost use Rattle.flow_model.specs.Calls.{ModelLent, ValuesLent};

use model_buffers::{LentBuffers, LentInput, ModelAnswer};

#[unsafe(no_mangle)]
pub extern "C" fn cendravoka_model(
    day: &[u8],
    state: &[u8],
    limit: u32,
    preferences: &[u32],
    costs: &[i64],
    lists: &[u8],
    supplies: &mut [i32],
    from: &mut [u16],
    to: &mut [u16],
    max: &mut [u32],
    cost: &mut [i64],
    entries: &mut [u16],
    ends: &mut [u16],
    blocked: &mut [u16],
) -> ModelAnswer
    ensures { ModelLent full_day day.now state.now (lent_input day.now state.now limit preferences.now costs.now lists.now)
        (buffers supplies.old from.old to.old max.old cost.old entries.old ends.old blocked.old)
        (buffers supplies.new from.new to.new max.new cost.new entries.new ends.new blocked.new) result }
{
    let input = LentInput {
        limit,
        preferences,
        costs,
        lists,
    };
    let mut buffers = LentBuffers {
        supplies,
        from,
        to,
        max,
        cost,
        entries,
        ends,
        blocked,
    };
    solve_with_limit::build_model(day, state, &input, &mut buffers).into()
}

#[unsafe(no_mangle)]
pub extern "C" fn cendravoka_check_values(
    day: &[u8],
    state: &[u8],
    limit: u32,
    preferences: &[u32],
    costs: &[i64],
    lists: &[u8],
    values: &[i32],
    supplies: &mut [i32],
    from: &mut [u16],
    to: &mut [u16],
    max: &mut [u32],
    cost: &mut [i64],
    entries: &mut [u16],
    ends: &mut [u16],
    blocked: &mut [u16],
    plan: &mut [u8],
) -> ModelAnswer
    ensures { ValuesLent full_day day.now state.now (lent_input day.now state.now limit preferences.now costs.now lists.now) values.now
        (buffers supplies.old from.old to.old max.old cost.old entries.old ends.old blocked.old) plan.old
        (buffers supplies.new from.new to.new max.new cost.new entries.new ends.new blocked.new) plan.new result }
{
    let input = LentInput {
        limit,
        preferences,
        costs,
        lists,
    };
    let mut buffers = LentBuffers {
        supplies,
        from,
        to,
        max,
        cost,
        entries,
        ends,
        blocked,
    };
    solve_with_limit::check_values(day, state, &input, values, &mut buffers, plan).into()
}
