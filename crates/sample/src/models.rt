// The rows on models, on the values of their edges, and on plans.
use crate::layouts::schedule_of;
use crate::lines::{Listed, Outcome, Printed, Verdict};
use crate::states::built;
use model_buffers::{Counts, LentBuffers, LentInput};
use refusal::Refusal;
use scoring::{Scoring, Solution};
use std::io;

const PREFERENCES: [u32; 6] = [0, 1, 0, 0, 2, 1];

// The costs are cubes (SPEC 13.1).
const COSTS: [i64; 3] = [1, 8, 27];

// The buffers that a model is written into.
#[derive(Drop)]
struct Buffers {
    supplies: [i32; 552],
    from: [u16; 2080],
    to: [u16; 2080],
    max: [u32; 2080],
    cost: [i64; 2080],
    entries: [u16; 4096],
    ends: [u16; 2048],
    blocked: [u16; 4096],
}

impl Buffers {
    fn new() -> Buffers {
        Buffers {
            supplies: [0; 552],
            from: [0; 2080],
            to: [0; 2080],
            max: [0; 2080],
            cost: [0; 2080],
            entries: [0; 4096],
            ends: [0; 2048],
            blocked: [0; 4096],
        }
    }
}

// These buffers, lent to a call.
macro_rules! lent {
    ($b:ident) => {
        LentBuffers {
            supplies: &mut $b.supplies,
            from: &mut $b.from,
            to: &mut $b.to,
            max: &mut $b.max,
            cost: &mut $b.cost,
            entries: &mut $b.entries,
            ends: &mut $b.ends,
            blocked: &mut $b.blocked,
        }
    };
}

// What a call is lent beside the day and the state, at limit 1.
fn input(lists: &[u8]) -> LentInput<'_> {
    LentInput {
        limit: 1,
        preferences: &PREFERENCES,
        costs: &COSTS,
        lists,
    }
}

// Edges 0 to 5 have 0 1 1 1 1 0, edge 6 has the given value, and edge 7 has 0.
fn values(edge_six: i32) -> [i32; 2080] {
    let mut all = [0; 2080];
    all[1] = 1;
    all[2] = 1;
    all[3] = 1;
    all[4] = 1;
    all[6] = edge_six;
    all
}

fn rows_of_edges(rt: &HostRuntime, count: usize, b: &Buffers) -> io::Result<()> {
    for i in 0..count.min(2080) {
        println!(rt;
            "edge {i}: from {} to {}, at most {}, cost {}",
            b.from[i], b.to[i], b.max[i], b.cost[i],
        )?;
    }
    Ok(())
}

// Each group in braces: its entries go from the last group's end to its own.
fn rows_of_groups(rt: &HostRuntime, counts: Counts, b: &Buffers) -> io::Result<()> {
    print!(rt; "groups")?;
    let mut start = 0;
    for end in b.ends.iter().take(counts.groups) {
        let end = *end as usize;
        let group = Listed(b.entries.get(start..end).unwrap_or(&[]));
        print!(rt; " {{{group} }}")?;
        start = end;
    }
    let blocked = Listed(&b.blocked[..counts.blocked.min(4096)]);
    println!(rt; "\nblocked{blocked}")
}

// The model at limit 1, as it stands in its buffers.
fn model(day: &[u8; 2044], b: &mut Buffers) -> Result<Counts, Refusal> {
    let mut lists = [0; 256];
    let state = built(day, &mut lists)?;
    solve_with_limit::build_model(day, &state, &input(&lists), &mut lent!(b))
}

// Whether it is accepted, and then the rows on it.
fn rows_of_built<F: FnOnce(Counts, &Buffers) -> io::Result<()>>(
    rt: &HostRuntime,
    text: &str,
    day: &[u8; 2044],
    rows: F,
) -> io::Result<()>
    requires { F.IsAlwaysCallable rows }
{
    let mut b = Buffers::new();
    let made = model(day, &mut b);
    println!(rt; "{text}: {}", Outcome(&made))?;
    let Ok(counts) = made else { return Ok(()) };
    rows(counts, &b)
}

// Its supplies and edges.
pub(crate) fn rows_of_model(rt: &HostRuntime, text: &str, day: &[u8; 2044]) -> io::Result<()> {
    rows_of_built(rt, text, day, |counts, b| {
        // A node for each chooser in each slot, each choice and each slot: 9.
        println!(rt; "supplies{}", Listed(&b.supplies[..9]))?;
        rows_of_edges(rt, counts.edges, b)
    })
}

// Its groups and blocked edges.
pub(crate) fn rows_of_tied_model(rt: &HostRuntime, text: &str, day: &[u8; 2044]) -> io::Result<()> {
    rows_of_built(rt, text, day, |counts, b| rows_of_groups(rt, counts, b))
}

// Whether these values are accepted at limit 1; then the plan that they decode to is put.
fn checked(
    day: &[u8; 2044],
    values: &[i32; 2080],
    plan: &mut [u8; 512],
) -> Result<Counts, Refusal> {
    let mut lists = [0; 256];
    let state = built(day, &mut lists)?;
    let mut b = Buffers::new();
    solve_with_limit::check_values(day, &state, &input(&lists), values, &mut lent!(b), plan)
}

fn row_of_score(
    rt: &HostRuntime,
    day: &[u8; 2044],
    schedule: &[u8; 32],
    plan: &[u8; 512],
) -> io::Result<()> {
    let by = Scoring {
        greedy: false,
        preferences: &PREFERENCES,
        powers: &[0.0, 1.0, 8.0],
    };
    match scoring::evaluate(day, &Solution::Complete(schedule, plan), &by) {
        Ok(score) => {
            let major = score::bits(score.major);
            let minor = score::bits(score.minor);
            println!(rt; "score {}, bits {major:08x} {minor:08x}", Printed(score))
        }
        Err(refusal) => println!(rt; "score refused: {refusal}"),
    }
}

// The verdicts on the schedule and on a plan, and the plan's score.
fn rows_of_verdict(rt: &HostRuntime, day: &[u8; 2044], plan: &[u8; 512]) -> io::Result<()> {
    let schedule = schedule_of(0, 0, 1);
    let scheduled = Verdict(scoring::schedule_is_feasible(day, &schedule));
    let planned = Verdict(scoring::is_feasible(day, &schedule, plan));
    println!(rt; "schedule feasible: {scheduled}")?;
    println!(rt; "plan feasible: {planned}")?;
    row_of_score(rt, day, &schedule, plan)
}

// What both choosers have, slot by slot, and who has choice 2.
fn rows_of_plan(rt: &HostRuntime, day: &[u8; 2044], plan: &[u8; 512]) -> io::Result<()> {
    let mut roster = [0; 512];
    println!(rt; "chooser 0: choices{}", Listed(&plan[..2]))?;
    println!(rt; "chooser 1: choices{}", Listed(&plan[2..4]))?;
    let length = rosters::choosers_ordered(day, plan, 2, &mut roster).unwrap_or(0);
    println!(rt; "choice 2: choosers{}", Listed(&roster[..length.min(512)]))
}

// Values with this one at edge 6, and what the library says of them.
pub(crate) fn row_of_edge_six(
    rt: &HostRuntime,
    day: &[u8; 2044],
    value: i32,
    plan: &mut [u8; 512],
) -> io::Result<()> {
    let values = values(value);
    let outcome = checked(day, &values, plan);
    println!(rt; "values{}: {}", Listed(&values[..8]), Outcome(&outcome))
}

// Values that are accepted, and what can be said of their plan.
pub(crate) fn rows_of_values(rt: &HostRuntime, day: &[u8; 2044]) -> io::Result<()> {
    let mut plan = [0; 512];
    row_of_edge_six(rt, day, 1, &mut plan)?;
    rows_of_plan(rt, day, &plan)?;
    rows_of_verdict(rt, day, &plan)
}
