// assignment_solver.rs: the slots' lists, each in its own part of a lent buffer, the sums of the slots' choices,
// and whether the lists hold a schedule.
#![tactic(auto)]

mod lists;

ghost use Rattle.std.specs.Prelude.{◌≡◌, ℕ, length};
ghost use Rattle.counting.specs.Calls.{AgreesBelow};
ghost use Rattle.scheduling.specs.Schedule.{entry_at};
ghost use Rattle.slot_lists.specs.ListsLaws.{removed};
ghost use Rattle.slot_lists.specs.Sums.{no_sums};
ghost use Rattle.slot_lists.specs.SumsLaws.{added, Sums, Adds, Weighs, Slotted, Light, AreSums};
ghost use Rattle.slot_lists.specs.Held.{misheld};
ghost use Rattle.slot_lists.specs.Marks.{Looks, Noted};

pub use lists::SlotLists;
use scheduling::slot_in;

// The lengths of the slots' lists, and their covered counts.
#[derive(Clone, Copy)]
pub struct SlotSums {
    pub lens: [u32; 8],
    pub covered: [u32; 8],
}

impl SlotSums {
    // The sums where no choice has a slot.
    pub fn none() -> SlotSums
        ensures { result ≡ no_sums }
    {
        SlotSums {
            lens: [0; 8],
            covered: [0; 8],
        }
    }
}

// A choice leaves a list. The last one moves into its place, and nothing else is written.
#[tactic(auto, using(crate::specs::ListsLaws::removed_at, crate::specs::ListsLaws::removed_none))]
pub fn remove(list: &mut [u8], choice: u8)
    ensures { list.new ≡ removed choice list.old }
{
    if let Some(at) = list.iter().position(|k| *k == choice) {
        list[at] = list[list.len() - 1];
    }
}

// Adds a weight to the sum of the slot that an entry names.
fn add(sums: &mut [u32; 8], entry: u8, weight: u32)
    requires { Adds entry weight sums.old }
    ensures { sums.new ≡ added entry weight sums.old }
{
    if let Some(slot) = slot_in(entry) {
        sums[slot] += weight;
    }
}

// Two weights of the choices are summed for each slot, in one walk: two walks take up to 1.6 times as long. Inlined,
// so that what was just summed is not copied, which would wait for it.
#[inline(always)]
pub fn sums<A: Fn(usize) -> u32, B: Fn(usize) -> u32>(
    entries: &[u8; 32],
    n: usize,
    a: A,
    b: B,
) -> ([u32; 8], [u32; 8])
    requires slots { Slotted entries.now n }
    requires first { Light (A.pre a) (A.post a) n }
    requires second { Light (B.pre b) (B.post b) n }
    ensures first { (w : ℕ → ℕ) → AgreesBelow (A.post a) n w → Sums w (entry_at entries.now) n result.0 }
    ensures second { (w : ℕ → ℕ) → AgreesBelow (B.post b) n w → Sums w (entry_at entries.now) n result.1 }
{
    let mut first = [0; 8];
    let mut second = [0; 8];
    for k in 0..n {
        add(&mut first, entries[k], a(k));
        add(&mut second, entries[k], b(k));
    }
    (first, second)
}

// The lengths of the slots' lists, and their covered counts.
#[inline(always)]
pub fn weigh(entries: &[u8; 32], mins: &[u32; 32], n: usize) -> SlotSums
    requires { Weighs entries.now mins.now n }
    ensures { AreSums (entry_at mins.now) (entry_at entries.now) n result }
{
    let (lens, covered) = sums(entries, n, |_| 1, |k| mins[k]);
    SlotSums { lens, covered }
}

// The choices of a list are marked with its slot's entry. A byte of a lent list may be no choice at all:
// every byte has a place.
fn mark_list(marks: &mut [u8; 256], list: &[u8], entry: u8)
    ensures { Noted list.now (length list.now) entry marks.old marks.new }
{
    for k in list {
        marks[*k as usize] = entry;
    }
}

// Whether the lists do not hold exactly the choices of the schedule. As many choices are marked as the
// schedule has in its slots, so that each stands once where its mark is its entry.
pub fn is_misheld(lists: &SlotLists, entries: &[u8; 32], slots: usize, n: usize) -> bool
    requires { Looks n slots entries.now lists.now }
    ensures { result ≡ misheld lists.now.stride (entry_at entries.now) n slots lists.now.bytes.now }
{
    let mut marks = [0u8; 256];
    for s in 0..slots {
        mark_list(&mut marks, lists.list(s), s as u8 + 1);
    }
    counting::any_below(n, |k| marks[k] != entries[k])
}
