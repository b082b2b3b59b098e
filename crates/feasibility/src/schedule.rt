// Scheduling::is_feasible of a schedule that was accepted.
ghost use Rattle.std.specs.Prelude.{◌≡◌, ◌≤◌};
ghost use Rattle.feasibility.specs.Feasible.{all_placed, schedule_feasible};
ghost use Rattle.feasibility.specs.Laws.{sums_seat, Schedulable, Weighable, SizeSums};

use input_data::Day;

// The sums of min and of max of each slot.
#[derive(Drop)]
struct SlotSizes {
    mins: [u32; 8],
    maxs: [u32; 8],
}

impl SlotSizes {
    // Both in one walk over the choices.
    fn of(day: &Day, entries: &[u8; 32]) -> SlotSizes
        requires { Weighable day.now entries.now day.now.choices }
        ensures { SizeSums day.now entries.now day.now.choices result.mins result.maxs }
    {
        let n = day.choices();
        let (mins, maxs) = slot_lists::sums(entries, n, |k| day.min(k), |k| day.max(k));
        SlotSizes { mins, maxs }
    }

    // Whether the choosers are from the sum of min to the sum of max in every slot.
    fn seat_all(&self, day: &Day) -> bool
        requires { day.now.slots ≤ 8 }
        ensures { result ≡ sums_seat day.now.choosers day.now.slots self.now.mins self.now.maxs }
    {
        let choosers = day.choosers();
        counting::all_below(day.slots(), |s| {
            (self.mins[s] as usize <= choosers) & (choosers <= self.maxs[s] as usize)
        })
    }
}

// Whether every choice without the optional mark has a slot.
#[tactic(auto, unfolding(crate::specs::Feasible::all_placed))]
fn all_placed(day: &Day, entries: &[u8; 32]) -> bool
    requires { day.now.choices ≤ 32 }
    ensures { result ≡ all_placed day.now entries.now }
{
    counting::all_below(day.choices(), |k| (entries[k] != 0) | day.optional(k))
}

// The test of a schedule that was looked at.
#[tactic(auto, using(crate::specs::Laws::seated_sums), unfolding(crate::specs::Feasible::schedule_feasible))]
pub fn schedule_holds(day: &Day, entries: &[u8; 32]) -> bool
    requires { Schedulable day.now entries.now }
    ensures { result ≡ schedule_feasible day.now entries.now }
{
    let seated = SlotSizes::of(day, entries).seat_all(day);
    let placed = all_placed(day, entries);
    placed & seated & satisfies_constraints::scheduling_met(day, entries)
}
