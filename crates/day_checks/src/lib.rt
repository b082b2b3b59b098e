// Checks 3 to 10 of a day, and the order of all.
#![tactic(auto)]

ghost use Rattle.std.specs.Prelude.{◌≡◌};
ghost use Rattle.refusal.specs.Number.{outcome};
ghost use Rattle.input_data.specs.Checks.{bad_choices, member_count, bad_groups, late_number, day_number};

use constraints::{bad_kinds, bad_operands};
use counting::any_of;
use input_data::{Beside, Day, Limits, too_many};
use refusal::Refusal;

mod constraints;
mod tables;

pub use tables::{bad_costs, bad_levels, bad_preferences};

// 3.
fn bad_choices(day: &Day) -> bool
    ensures { result ≡ bad_choices day.now.choices day.now.mins day.now.maxs }
{
    any_of::<32, _>(
        day.choices(),
        |i| (day.max(i) < day.min(i)) | (1000 < day.max(i)),
    )
}

// The members of all groups together. The sum of 16 lengths of 32 bits fits.
#[tactic(auto, using(counting::specs::FoldLaws::fold_more, counting::specs::FoldLaws::fold_none))]
fn member_count(day: &Day) -> u64
    ensures { result ≡ member_count day.now.groups day.now.lengths }
{
    let mut sum = 0;
    for i in 0..day.groups().min(16) {
        sum += day.group_length(i) as u64;
    }
    sum
}

// 10.
fn bad_groups(day: &Day) -> bool
    ensures { result ≡ bad_groups day.now.choices day.now.groups day.now.lengths day.now.members }
{
    let count = member_count(day);
    let choices = day.choices();
    (16 < day.groups())
        | ((32 < count) | any_of::<32, _>(count as usize, |i| choices <= day.member(i) as usize))
}

// Checks 7 to 10.
#[tactic(auto, using(input_data::specs::ByNumber::eight_nine), unfolding(input_data::specs::Checks::late_number, input_data::specs::Checks::first_of))]
fn check_late(day: &Day, asked: bool) -> Result<(), Refusal>
    ensures { outcome result ≡ late_number day.now asked 0 }
{
    let scheduling = day.scheduling();
    let assignment = day.assignment();
    if (32 < scheduling.count()) | (32 < assignment.count()) {
        return Err(Refusal::TooManyConstraints);
    }
    if bad_kinds(1, 6, &scheduling) | bad_kinds(65536, 65539, &assignment) {
        return Err(Refusal::Kinds);
    }
    if bad_operands(day) | asked {
        return Err(Refusal::Operands);
    }
    if bad_groups(day) {
        return Err(Refusal::Groups);
    }
    Ok(())
}

// Checks 1 to 10, with what a call tests beside the day.
#[tactic(auto, unfolding(input_data::specs::Checks::day_number, input_data::specs::Checks::first_of))]
pub fn check_day(limits: Limits, day: &Day, beside: Beside) -> Result<(), Refusal>
    ensures { outcome result ≡ day_number limits day.now beside 0 }
{
    if too_many(limits, day.choosers(), day.choices(), day.slots()) {
        return Err(Refusal::TooMany);
    }
    if beside.bad_lengths {
        return Err(Refusal::Lengths);
    }
    if bad_choices(day) {
        return Err(Refusal::Sizes);
    }
    if (255 < day.max_preference()) | beside.bad_preferences {
        return Err(Refusal::Preferences);
    }
    if beside.bad_levels {
        return Err(Refusal::Levels);
    }
    if beside.bad_costs {
        return Err(Refusal::Costs);
    }
    check_late(day, beside.bad_asked)
}
