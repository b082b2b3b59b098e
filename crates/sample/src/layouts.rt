// Days, states and searches as the bytes in which they are lent. include/cendravoka.h has the layouts.
ghost use Rattle.std.specs.Prelude.{◌<◌, ◌≤◌, ◌+◌, ◌*◌, length};

use preference_search::{CachedAssignment, Search};
use schedule_state::AssignmentScheduleState;

// Puts bytes from a place on.
fn put_bytes(to: &mut [u8], at: usize, bytes: &[u8])
    requires { at + length bytes.now ≤ length to.old }
{
    to[at..at + bytes.len()].copy_from_slice(bytes);
}

// Puts numbers from a place on, each with its lowest byte first.
fn put_words(to: &mut [u8], at: usize, words: &[u32])
    requires { at + 4 * length words.now ≤ length to.old }
{
    for i in 0..words.len() {
        put_bytes(to, at + 4 * i, &words[i].to_le_bytes());
    }
}

// A day of 2 slots and choices 0 (1 to 1), 1 (0 to 2), 2 (2 to 2). Its list of assignment constraints, of
// which it has the first `constraints`, begins with ChoosersHaveSameChoices of choosers 0 and 1.
pub(crate) fn day_of(choosers: u32, max_preference: u32, constraints: u32) -> [u8; 2044] {
    let sizes = [choosers, 3, 2, max_preference, 0, constraints];
    let mins = [1, 0, 2];
    let maxs = [1, 2, 2];
    let same_choices = [65539, 0, 3, 1];
    let mut day = [0; 2044];
    put_words(&mut day, 0, &sizes);
    put_words(&mut day, 28, &mins);
    put_words(&mut day, 156, &maxs);
    put_words(&mut day, 1276, &same_choices);
    day
}

// Choices 0, 1 and 2 in these slots. An entry is the slot's number and 1.
pub(crate) fn schedule_of(first: u8, second: u8, third: u8) -> [u8; 32]
    requires { (first < 8) × (second < 8) × (third < 8) }
{
    let mut entries = [0; 32];
    entries[0] = first + 1;
    entries[1] = second + 1;
    entries[2] = third + 1;
    entries
}

// A state as it is lent on.
pub(crate) fn state_bytes(state: AssignmentScheduleState) -> [u8; 2112] {
    let mut bytes = [0; 2112];
    put_bytes(&mut bytes, 0, &state.schedule.entries);
    put_words(&mut bytes, 32, &state.covered);
    put_bytes(&mut bytes, 64, &state.blocks.map(u8::from));
    bytes
}

fn put_cached(to: &mut [u8; 1114], cached: CachedAssignment) {
    put_bytes(to, 568, &[u8::from(cached.there), u8::from(cached.greedy)]);
    put_bytes(to, 570, &cached.schedule.entries);
    put_bytes(to, 602, &cached.plan);
}

// The flags and the numbers at a search's front.
fn put_front(to: &mut [u8; 1114], search: Search) {
    let flags = [search.asking, search.greedy, search.found, search.optimal];
    let numbers = [
        search.asks,
        search.level,
        search.start,
        search.low,
        search.high,
    ];
    put_bytes(to, 0, &flags.map(u8::from));
    put_words(to, 4, &numbers);
}

// A search as it is lent on.
pub(crate) fn search_bytes(search: Search) -> [u8; 1114] {
    let mut bytes = [0; 1114];
    put_front(&mut bytes, search);
    put_bytes(&mut bytes, 24, &search.schedule.entries);
    put_bytes(&mut bytes, 56, &search.plan);
    put_cached(&mut bytes, search.cached);
    bytes
}
