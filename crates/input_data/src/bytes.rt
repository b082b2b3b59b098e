// Numbers and flags read where they lie in lent bytes.
#![tactic(auto, unfolding(crate::specs::Bytes::word_at))]

ghost use Rattle.std.specs.Prelude.{◌≡◌, ◌+◌, ◌*◌, ◌<◌, ◌≤◌, length};
ghost use Rattle.counting.specs.Fold.{table_to};
ghost use Rattle.input_data.specs.Bytes.{word_at, signed_of, flag_at, numbers_in};
ghost use Rattle.input_data.specs.BytesLaws.{word_from};

use crate::ConstraintNumbers;
use counting::table;

// Four bytes, the least first.
pub fn word(b: &[u8], at: usize) -> u32
    requires { at + 4 ≤ length b.now }
    ensures { result ≡ word_at b.now at }
{
    u32::from_le_bytes([b[at], b[at + 1], b[at + 2], b[at + 3]])
}

// A flag byte is yes where it is not 0.
pub fn flag(b: &[u8], at: usize) -> bool
    requires { at < length b.now }
    ensures { result ≡ flag_at b.now at }
{
    b[at] != 0
}

// The signed number of 32 bits.
pub fn signed(x: u32) -> i32
    ensures { result ≡ signed_of x }
{
    x.cast_signed()
}

// The numbers that stand from `at` on.
pub fn words<const N: usize>(b: &[u8], at: usize) -> [u32; N]
    requires { at + 4 * N ≤ length b.now }
    ensures { result ≡ table_to N (word_from b.now at) }
{
    table(0, |i| word(b, at + 4 * i))
}

// The numbers of a constraint of the list whose entries begin at `at`.
#[tactic(auto, using(counting::specs::Signed::back), unfolding(crate::specs::Bytes::numbers_in))]
pub fn numbers_at(day: &[u8], at: usize, j: usize) -> ConstraintNumbers
    requires { (at + 768 ≤ length day.now) × (j < 32) }
    ensures { result ≡ numbers_in day.now at j }
{
    let p = at + 24 * j;
    ConstraintNumbers {
        kind: word(day, p),
        left: word(day, p + 4),
        target_case: word(day, p + 8),
        target: word(day, p + 12),
        extra_case: word(day, p + 16),
        extra: signed(word(day, p + 20)),
    }
}
