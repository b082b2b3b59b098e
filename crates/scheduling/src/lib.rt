// scheduling.rs: a schedule, its slots, and check 11.
#![tactic(auto)]

ghost use Rattle.std.specs.Prelude.{◌≡◌, IfOk};
ghost use Rattle.refusal.specs.Number.{outcome};
ghost use Rattle.input_data.specs.Bytes.{wider};
ghost use Rattle.input_data.specs.Checks.{day_number};
ghost use Rattle.scheduling.specs.Handed.{not_schedule};
ghost use Rattle.scheduling.specs.Schedule.{slot_in, bad_slots, kept};

use counting::{any_of, front};
use day_checks::check_day;
use input_data::{Beside, Day, Limits};
use refusal::Refusal;

// A schedule gives each choice one slot or none: an entry is 0 for none, and s + 1 for slot s.
// Entries past the day's choices are ignored.
#[repr(C)]
#[derive(Clone, Copy, Debug)]
pub struct Scheduling {
    pub entries: [u8; 32],
}

// The slot that an entry names, or none.
pub fn slot_in(entry: u8) -> Option<usize>
    ensures { result ≡ slot_in entry }
{
    entry.checked_sub(1).map(|s| s as usize)
}

// 11. A schedule names a slot that the day has not.
pub fn bad_slots(choices: usize, slots: usize, entries: &[u8; 32]) -> bool
    ensures { result ≡ bad_slots choices slots entries.now }
{
    any_of::<32, _>(choices, |i| slots < entries[i] as usize)
}

// The schedule as it is handed back: none past the day's choices.
pub fn kept(choices: usize, entries: &[u8; 32]) -> [u8; 32]
    ensures { result ≡ kept choices entries.now }
{
    front(entries, choices)
}

// The entries that a schedule's bytes stand for, where the day is accepted and what is lent beside it has its lengths.
#[tactic(auto, using(crate::specs::HandedLaws::lengths_right))]
#[inline]
pub fn read_entries<'a>(
    limits: Limits,
    day: &Day,
    schedule: &'a [u8],
    beside: Beside,
) -> Result<&'a [u8; 32], Refusal>
    ensures number { outcome result ≡ day_number limits day.now (wider (not_schedule schedule.now) beside) 0 }
    ensures entries { IfOk result (λ e. e.now ≡ schedule.now) }
{
    let entries = schedule.as_array::<32>();
    let bad_lengths = entries.is_none() | beside.bad_lengths;
    check_day(
        limits,
        day,
        Beside {
            bad_lengths,
            ..beside
        },
    )?;
    Ok(entries.unwrap())
}
