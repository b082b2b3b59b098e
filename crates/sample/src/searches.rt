// The rows on the preference search.
use crate::layouts::{day_of, schedule_of, search_bytes};
use preference_search::{Asked, Told};
use std::io;

const LEVELS: [u32; 5] = [0, 1, 2, 3, 4];

// A solver that finds this plan at the last two levels only.
fn answer_at(level: u32, plan: &[u8]) -> Told<'_> {
    if 3 <= level {
        return Told::Feasible(plan);
    }
    Told::Infeasible
}

// Tells a search the answer to its ask. One that has ended, or is refused, stays as it is.
fn step(rt: &HostRuntime, asked: Asked) -> io::Result<Asked> {
    let Some(ask) = asked.ask else {
        return Ok(asked);
    };
    print!(rt; " {}", ask.level)?;
    let day = day_of(2, 4, 0);
    let bytes = search_bytes(asked.search);
    let mut plan = [0; 512];
    plan[0] = 1;
    plan[1] = 2;
    plan[3] = 2;
    let told = answer_at(ask.level, &plan);
    match assignment_solver::tell(&day, &bytes, &LEVELS, told) {
        Ok(next) => Ok(next),
        Err(refusal) => {
            print!(rt; " (refused: {refusal})")?;
            Ok(asked)
        }
    }
}

// A search from a bound on, over five levels, as it is left. It asks no more often than it says.
fn row_of_search(rt: &HostRuntime, bound: u32) -> io::Result<[u8; 1114]> {
    let day = day_of(2, 4, 0);
    let schedule = schedule_of(0, 0, 1);
    print!(rt; "levels 0 1 2 3 4, the last two feasible, from {bound} on: asks at")?;
    let mut asked = match assignment_solver::begin(
        &day, &schedule, &LEVELS, bound, false, &[0; 546],
    ) {
        Ok(asked) => asked,
        Err(refusal) => {
            println!(rt; " nothing, refused: {refusal}")?;
            return Ok([0; 1114]);
        }
    };
    for _ in 0..asked.most_asks {
        asked = step(rt, asked)?;
    }
    let search = asked.search;
    println!(rt;
        "; {} in all, {} at most; answer {}",
        search.asks, asked.most_asks, search.level
    )?;
    Ok(search_bytes(search))
}

// What a search is begun with.
#[derive(Clone, Copy)]
struct Begin<'a> {
    max_preference: u32,
    levels: &'a [u32],
    bound: u32,
    greedy: bool,
    cached: &'a [u8],
}

// How many asks a search has made when it is begun, and how many it makes at most.
fn row_of_begin(rt: &HostRuntime, name: &str, begin: Begin) -> io::Result<()> {
    let day = day_of(2, begin.max_preference, 0);
    let schedule = schedule_of(0, 0, 1);
    match assignment_solver::begin(
        &day,
        &schedule,
        begin.levels,
        begin.bound,
        begin.greedy,
        begin.cached,
    ) {
        Ok(asked) => {
            println!(rt;
                "begun {name}: asks made {}, at most {}",
                asked.search.asks, asked.most_asks
            )
        }
        Err(refusal) => println!(rt; "begun {name}: refused: {refusal}"),
    }
}

// As many levels as there may be, and none; greedy with levels and without.
fn rows_of_begins(rt: &HostRuntime) -> io::Result<()> {
    let all: [u32; 256] = counting::table(0, |level| level as u32);
    let rows: [(&str, u32, &[u32], bool); 4] = [
        ("over 256 levels", 255, &all, false),
        ("without levels", 4, &[], false),
        ("greedy, over five levels", 4, &LEVELS, true),
        ("greedy, without levels", 4, &[], true),
    ];
    for (name, max_preference, levels, greedy) in rows {
        let begin = Begin {
            max_preference,
            levels,
            bound: 0,
            greedy,
            cached: &[0; 546],
        };
        row_of_begin(rt, name, begin)?;
    }
    Ok(())
}

// The search of an equal schedule, with what a search of the first one remembers.
fn row_of_memory(rt: &HostRuntime, left: &[u8; 1114], name: &str, bound: u32) -> io::Result<()> {
    let begin = Begin {
        max_preference: 4,
        levels: &LEVELS,
        bound,
        greedy: false,
        cached: &left[568..],
    };
    row_of_begin(rt, name, begin)
}

pub(crate) fn rows_of_searches(rt: &HostRuntime) -> io::Result<()> {
    let left = row_of_search(rt, 0)?;
    row_of_search(rt, 5)?;
    rows_of_begins(rt)?;
    row_of_memory(rt, &left, "again with the first memory, from 0 on", 0)?;
    row_of_memory(rt, &left, "again with the first memory, from 5 on", 5)
}
