// Check 12: a state that is handed in is held against its own schedule.
ghost use Rattle.std.specs.Prelude.{◌≡◌, ◌<◌, ◌≤◌, length};
ghost use Rattle.counting.specs.Fold.{any_to};
ghost use Rattle.schedule_state.specs.State.{is_blocked, unlike_at, cells_of, misblocked_row, misblocked, misblocked_in, sums_of, miscounted_in, inconsistent};
ghost use Rattle.schedule_state.specs.Good.{Small, Holdable};

use crate::state::LentState;
use blocks::fill_blocks;
use counting::any_below;
use input_data::{Day, FixedLimits};
use slot_lists::{SlotLists, SlotSums, is_misheld};

// Whether a state's blocks are not those of a table for a chooser, in the day's choices.
fn row_differs(state: &LentState, right: &[bool; 2048], chooser: usize, choices: usize) -> bool
    requires { (chooser < 64) × (choices ≤ 32) }
    ensures { result ≡ misblocked_row (cells_of right.now) choices state.now.blocks chooser }
{
    let base = 32 * chooser;
    any_below(choices, |k| state.blocks(base + k) != right[base + k])
}

// Whether they differ anywhere. No early exit, so that the walk is quick.
fn tables_differ(state: &LentState, right: &[bool; 2048]) -> bool
    ensures { result ≡ any_to 2048 (unlike_at state.now.blocks right.now) }
{
    any_below(2048, |p| state.blocks(p) != right[p])
}

// Whether they differ for one of the day's choosers. Tables that do not differ anywhere, as those
// that were handed out, need no closer look.
#[tactic(auto, using(crate::specs::Good::nowhere_unlike), unfolding(crate::specs::State::misblocked))]
fn blocks_differ(state: &LentState, right: &[bool; 2048], choosers: usize, choices: usize) -> bool
    requires { (choosers ≤ 64) × (choices ≤ 32) }
    ensures { result ≡ misblocked (cells_of right.now) choosers choices state.now.blocks }
{
    tables_differ(state, right) && any_below(choosers, |c| row_differs(state, right, c, choices))
}

// Whether anything is blocked in a state.
fn any_blocked(state: &LentState) -> bool
    ensures { result ≡ any_to 2048 (is_blocked state.now.blocks) }
{
    any_below(2048, |p| state.blocks(p))
}

// Whether a state's blocks are not those of its schedule. Without assignment constraints nothing is blocked.
#[tactic(auto, using(blocks::specs::BlocksLaws::unfilled, crate::specs::Good::none_misblocked, crate::specs::Good::blocked_in))]
fn is_misblocked(day: &Day, state: &LentState, entries: &[u8; 32]) -> bool
    requires { Small day.now }
    ensures { result ≡ misblocked_in day.now entries.now state.now.blocks }
{
    if day.assignment().count() == 0 && !any_blocked(state) {
        return false;
    }
    let mut fresh = [false; 2048];
    fill_blocks(&mut fresh, day, entries);
    blocks_differ(state, &fresh, day.choosers(), day.choices())
}

// Whether a state's covered counts are not these sums, in one of the day's slots.
#[tactic(auto, unfolding(crate::specs::State::miscounted_in))]
fn sums_differ(state: &LentState, right: &[u32; 8], slots: usize) -> bool
    requires { slots ≤ 8 }
    ensures { result ≡ miscounted_in (sums_of right.now) slots state.now.covered }
{
    any_below(slots, |s| state.covered(s) != right[s])
}

// 12: what a state says is held against its own schedule, by its entries and their sums.
#[tactic(auto, using(crate::specs::Good::small_day, crate::specs::Good::looks, crate::specs::Good::inconsistent_is))]
pub fn is_inconsistent(
    fixed: FixedLimits,
    day: &Day,
    state: &LentState,
    entries: &[u8; 32],
    sums: &SlotSums,
    lists: &[u8],
) -> bool
    requires { Holdable fixed.limits day.now state.now entries.now sums.now (length lists.now) }
    ensures { result ≡ inconsistent fixed.limits day.now state.now lists.now }
{
    let lists = SlotLists {
        bytes: lists,
        stride: fixed.limits.choices,
        lens: sums.lens,
    };
    let slots = day.slots();
    is_misheld(&lists, entries, slots, day.choices())
        | sums_differ(state, &sums.covered, slots)
        | is_misblocked(day, state, entries)
}
