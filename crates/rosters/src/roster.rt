// The walk that fills a roster, row after row.
ghost use Rattle.std.specs.Prelude.{◌≡◌, ◌<◌, ◌≤◌, length};
ghost use Rattle.counting.specs.WrittenLaws.{Put, one_buffer};
ghost use Rattle.rosters.specs.Filled.{pushed, Lists};
ghost use Rattle.rosters.specs.Answered.{roster_answered};
ghost use Rattle.rosters.specs.Rows.{row_of, run_of, is_outside, Rostered};
ghost use Rattle.rosters.specs.Laws.{rows_in, chooser_in, listed, RowIn, RosterIn};

use assignment::{Seats, check_plan};
use input_data::{Day, FixedLimits};
use refusal::Refusal;

// The choosers of a choice, or the choices of a chooser.
#[derive(Clone, Copy)]
pub enum Roster {
    ChoosersOf(usize),
    ChoicesOf(usize),
}

// The row of the plan that begins at `base`: `value` is listed once for each slot in which its seat is the choice.
#[derive(Clone, Copy)]
pub struct Row {
    pub base: usize,
    pub choice: usize,
    pub value: u8,
}

impl Roster {
    // 9. The choice or the chooser is not of the day.
    fn is_outside(self, day: &Day) -> bool
        ensures { result ≡ is_outside self day.now }
    {
        match self {
            Roster::ChoosersOf(choice) => day.choices() <= choice,
            Roster::ChoicesOf(chooser) => day.choosers() <= chooser,
        }
    }

    // How many may be listed.
    fn rows(self, seats: &Seats) -> usize
        ensures { result ≡ rows_in self seats.now }
    {
        match self {
            Roster::ChoosersOf(_) => seats.choosers,
            Roster::ChoicesOf(_) => seats.choices,
        }
    }

    // The row of the i-th that may be listed.
    fn row(self, seats: &Seats, i: usize) -> Row
        requires { (i < 64) × (chooser_in self i < seats.now.choosers) }
        ensures { result ≡ row_of self seats.now.slots i }
    {
        let value = i as u8;
        match self {
            Roster::ChoosersOf(choice) => Row {
                base: i * seats.slots,
                choice,
                value,
            },
            Roster::ChoicesOf(chooser) => Row {
                base: chooser * seats.slots,
                choice: i,
                value,
            },
        }
    }
}

// A lent roster, and how much of its front is filled.
#[derive(Drop)]
struct Filled<'a> {
    roster: &'a mut [u8],
    used: usize,
}

impl<'a> Filled<'a> {
    // Lists a value after those that are there.
    fn push(&mut self, value: u8)
        requires { self.old.used < length self.old.roster.now }
        ensures { self.new ≡ pushed self.old value }
    {
        self.roster[self.used] = value;
        self.used += 1;
    }
}

fn put_row(seats: &Seats, row: Row, filled: &mut Filled)
    requires { RowIn seats.now row filled.old.used (length filled.old.roster.now) }
    ensures { Lists filled.old (run_of seats.now.slots seats.now.plan.now row) filled.new }
{
    for seat in &seats.plan[row.base..row.base + seats.slots] {
        if *seat as usize == row.choice {
            filled.push(row.value);
        }
    }
}

fn put_rows(seats: &Seats, of: Roster, roster: &mut [u8]) -> usize
    requires { RosterIn of seats.now (length roster.old) }
    ensures { Put (one_buffer _) roster.old 0 (listed of seats.now) roster.new result }
{
    let mut filled = Filled { roster, used: 0 };
    for i in 0..of.rows(seats) {
        put_row(seats, of.row(seats, i), &mut filled);
    }
    filled.used
}

pub fn roster_within(
    fixed: FixedLimits,
    day: &[u8],
    plan: &[u8],
    of: Roster,
    roster: &mut [u8],
) -> Result<usize, Refusal>
    ensures { Rostered fixed.limits day.now plan.now of roster.old roster.new (roster_answered result) }
{
    let day = Day::read(day)?;
    let short = roster.len() < fixed.plan_length();
    let seats = check_plan(fixed, &day, plan, short, of.is_outside(&day))?;
    Ok(put_rows(&seats, of, roster))
}
