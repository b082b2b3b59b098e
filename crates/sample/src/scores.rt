// The rows on scores and on negation.
use crate::lines::{Named, Parts, Printed};
use constraint::Constraint;
use score::Score;
use std::io;

// The three scores, each of which is less than the next and the last less than the first.
fn first() -> Score {
    Score {
        major: 1.0,
        minor: 3.0,
    }
}

fn second() -> Score {
    Score {
        major: 2.0,
        minor: 1.0,
    }
}

fn third() -> Score {
    Score {
        major: score::greedy_major(),
        minor: 2.0,
    }
}

pub(crate) fn row_of_zeros(rt: &HostRuntime) -> io::Result<()> {
    let negative = Score {
        major: 1.0,
        minor: -0.0,
    };
    let positive = Score {
        major: 1.0,
        minor: 0.0,
    };
    let order = Named(negative.cmp(positive));
    println!(rt; "minor -0.0 before +0.0 with equal majors: {order}")
}

fn row_of_two(rt: &HostRuntime, left: Score, right: Score) -> io::Result<()> {
    println!(rt;
        "{} < {}: {}",
        Printed(left),
        Printed(right),
        Named(left.cmp(right))
    )
}

// In a cycle the best hangs on the order: the first is kept until a later one is less.
pub(crate) fn row_of_best(rt: &HostRuntime) -> io::Result<()> {
    let one = first();
    let two = second();
    let three = third();
    print!(rt;
        "best of {}, {}, {}: ",
        Printed(one),
        Printed(two),
        Printed(three)
    )?;
    let floats = [
        one.major,
        one.minor,
        two.major,
        two.minor,
        three.major,
        three.minor,
    ];
    match score::best(&floats, 3) {
        Ok(Some(ranked)) => {
            println!(rt;
                "position {}, score {}",
                ranked.position,
                Printed(ranked.score)
            )
        }
        Ok(None) => println!(rt; "none"),
        Err(refusal) => println!(rt; "refused: {refusal}"),
    }
}

pub(crate) fn rows_of_negation(rt: &HostRuntime) -> io::Result<()> {
    let limit = Constraint::of(6, 0, 4, 2, 2, -2);
    println!(rt; "size limit Leq: {}", Parts(limit))?;
    match limit.negation() {
        Ok(negated) => println!(rt; "its negation, number 0: {}", Parts(negated)),
        Err(refusal) => println!(rt; "its negation is refused: {refusal}"),
    }
}

// The cycle of three scores: a NaN as a major leaves the minors to decide.
pub(crate) fn rows_of_order(rt: &HostRuntime) -> io::Result<()> {
    row_of_two(rt, first(), second())?;
    row_of_two(rt, second(), third())?;
    row_of_two(rt, third(), first())
}
