// The flow model of a state at a preference limit, in the lent buffers.
ghost use Rattle.std.specs.Prelude.{◌≡◌};
ghost use Rattle.model_buffers.specs.Buffers.{lengths_of};
ghost use Rattle.model_buffers.specs.Lent.{held};
ghost use Rattle.plans.specs.Model.{sizes_of};
ghost use Rattle.flow_model.specs.Lent.{input_of, call_input, IsLists, Buildable, ModelMade, EnteredLent};

use crate::input::check_input;
use crate::{FlowModel, NONE_USED};
use create_edge_groups::put_groups;
use flow_edges::{OpenSeats, ScheduledChoices, put_choices, put_seats};
use input_data::{Day, FixedLimits, Limits, Sizes};
use mip_flow::{EdgeIndex, Offer};
use mip_flow_static_data::put_supplies;
use model_buffers::{Counts, Edges, Groups, LentBuffers, LentInput};
use refusal::Refusal;
use schedule_state::{AssignmentScheduleState, LentState};
use scheduling::kept;
use slot_lists::SlotLists;

// The day's sizes, and the stride of its slots' lists.
fn sizes_of(limits: Limits, day: &Day) -> Sizes
    ensures { result ≡ sizes_of limits day.now }
{
    Sizes {
        stride: limits.choices,
        choosers: day.choosers(),
        choices: day.choices(),
        slots: day.slots(),
    }
}

// Writes the model of tested input into the buffers. Inlined, as `enter` is: a model holds 4 KB of
// numbers, which would be copied out of either.
#[inline(always)]
fn put_model<'a>(
    limits: Limits,
    day: &Day,
    state: &AssignmentScheduleState,
    input: &LentInput,
    lists: SlotLists<'a>,
    buffers: &mut LentBuffers,
) -> FlowModel<'a>
    requires { Buildable limits (input_of day.now state.now input.now) (lengths_of (held buffers.old))
        × IsLists limits (input_of day.now state.now input.now) lists }
    ensures { ModelMade limits (input_of day.now state.now input.now) buffers.old buffers.new result }
{
    let sizes = sizes_of(limits, day);
    let schedule = kept(sizes.choices, &state.schedule.entries);
    let offer = Offer::of(sizes, input, &state.blocks);
    let mut model = FlowModel {
        sizes,
        lists,
        index: EdgeIndex::none(),
        counts: NONE_USED,
    };
    put_supplies(sizes, &schedule, day, &state.covered, buffers.supplies);
    let mut edges = Edges {
        from: buffers.from,
        to: buffers.to,
        max: buffers.max,
        cost: buffers.cost,
        used: 0,
    };
    let seats = OpenSeats {
        offer: &offer,
        lists: &lists,
    };
    put_seats(&seats, &mut edges, &mut model.index);
    let choices = ScheduledChoices {
        nodes: offer.nodes(),
        schedule: &schedule,
        day: &*day,
    };
    put_choices(&choices, &mut edges);
    let mut groups = Groups {
        entries: buffers.entries,
        ends: buffers.ends,
        blocked: buffers.blocked,
        entries_used: 0,
        ends_used: 0,
        blocked_used: 0,
    };
    put_groups(sizes, &schedule, day, &model.index, &lists, &mut groups);
    model.counts = Counts {
        edges: edges.used,
        entries: groups.entries_used,
        groups: groups.ends_used,
        blocked: groups.blocked_used,
    };
    model
}

// Tests the input of a call and writes its model, within limits. `short`: another buffer that the call is
// lent is too short.
#[inline(always)]
pub fn enter<'a>(
    fixed: FixedLimits,
    day: &[u8],
    state: &[u8],
    input: &LentInput<'a>,
    short: bool,
    buffers: &mut LentBuffers,
) -> Result<FlowModel<'a>, Refusal>
    ensures { EnteredLent fixed.limits day.now state.now (call_input day.now state.now input.now) short buffers.old buffers.new result }
{
    let day = Day::read(day)?;
    let sums = check_input(fixed, &day, state, input, buffers.lengths(), short)?;
    let lens = sums.lens;
    let lists = SlotLists {
        bytes: input.lists,
        stride: fixed.limits.choices,
        lens,
    };
    let state = LentState::of(state).decoded();
    Ok(put_model(fixed.limits, &day, &state, input, lists, buffers))
}
