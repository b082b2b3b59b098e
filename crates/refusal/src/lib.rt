// Why a call refuses what it is handed, and the number that says so at the boundary.
#![tactic(auto)]

ghost use Rattle.std.specs.Prelude.{◌≡◌};
ghost use Rattle.refusal.specs.Number.{number};

use std::error::Error;
use std::fmt;

// What is wrong with the input, each at the number that document 01 gives it. A call answers with the first that
// applies.
#[derive(Clone, Copy, Debug, PartialEq, Eq, Hash)]
pub enum Refusal {
    TooMany = 1,
    Lengths = 2,
    Sizes = 3,
    Preferences = 4,
    Levels = 5,
    Costs = 6,
    TooManyConstraints = 7,
    Kinds = 8,
    Operands = 9,
    Groups = 10,
    Schedule = 11,
    State = 12,
    Plan = 13,
    Values = 14,
    Blocked = 15,
    Uneven = 16,
    Unbalanced = 17,
    Search = 18,
}

impl From<Refusal> for u32 {
    ghost from_gives = { λ r n. n ≡ number r };

    fn from(refusal: Refusal) -> u32 {
        refusal as u32
    }
}

impl fmt::Display for Refusal {
    fn fmt<W: fmt::Write>(&self, f: &mut fmt::Formatter<W>) -> fmt::Result {
        f.write_str(match self {
            Refusal::TooMany =>
                "there are more choosers, choices, slots or scores than a call takes",
            Refusal::Lengths => "something that is lent has not its length",
            Refusal::Sizes => "a choice's min is above its max, or its max above 1000",
            Refusal::Preferences =>
                "max_preference is above 255, or a preference above max_preference",
            Refusal::Levels =>
                "the levels do not ascend, or there are too many, or one is above max_preference",
            Refusal::Costs => "a cost is negative or too large",
            Refusal::TooManyConstraints => "a list has more than 32 constraints",
            Refusal::Kinds => "a constraint's kind is not one of its list",
            Refusal::Operands =>
                "a constraint does not fit its kind, or what is asked about is not of the day",
            Refusal::Groups =>
                "there are too many dependent groups or members, or a member is no choice",
            Refusal::Schedule => "a schedule names a slot that the day has not",
            Refusal::State => "a state is not consistent with its own schedule",
            Refusal::Plan => "a seat of a plan is no choice of the day, or one without a slot",
            Refusal::Values => "an edge's value is outside 0 to its max",
            Refusal::Blocked => "a blocked edge is used",
            Refusal::Uneven => "two edges of a group have different values",
            Refusal::Unbalanced => "a node is out of balance",
            Refusal::Search => "a search that is told a result is not asking, or its range is bad",
        })
    }
}

impl Error for Refusal {}
