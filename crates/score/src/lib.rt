// score.rs: scores, their order, and the best of a list.
#![tactic(auto)]

ghost use Rattle.std.specs.Prelude.{◌≡◌, true, false, ◌||◌, ◌+◌, ◌*◌, ◌<◌, ◌≤◌, ◌-◌, length};
ghost use Rattle.std.specs.Float.{nan, binary32, total_cmp};
ghost use Rattle.std.specs.Float.Ieee.{to_bits, is_nan};
ghost use Rattle.score.specs.Order.{infinite_twice, finite_score, finite_order, score_order, is_less};
ghost use Rattle.score.specs.Answered.{best_answered};
ghost use Rattle.score.specs.Best.{best_to};
ghost use Rattle.score.specs.Listed.{score_at, scores_in, best_in};

use refusal::Refusal;
use std::cmp::Ordering;

// A score: less is better.
#[derive(Clone, Copy, Debug)]
pub struct Score {
    pub major: f32,
    pub minor: f32,
}

// A score and its place in a list.
#[derive(Clone, Copy, Debug)]
pub struct Ranked {
    pub position: usize,
    pub score: Score,
}

// The major of a greedy plan.
pub fn greedy_major() -> f32
    ensures { result ≡ nan }
{
    f32::NAN
}

// The bits of a float: 7FC00000 hexadecimal for NaN, whose bits in memory are not fixed.
pub fn bits(x: f32) -> u32
    ensures { result ≡ to_bits binary32 x }
{
    if x.is_nan() { 0x7fc0_0000 } else { x.to_bits() }
}

// Two numbers, of which neither is NaN, by totalOrder.
fn compare_numbers(x: f32, y: f32) -> Ordering
    requires { (is_nan x ≡ false) × (is_nan y ≡ false) }
    ensures { result ≡ total_cmp x y }
{
    x.total_cmp(&y)
}

impl Score {
    // The score of anything without a feasible plan.
    pub fn infinite() -> Score
        ensures { result ≡ infinite_twice }
    {
        Score {
            major: f32::INFINITY,
            minor: f32::INFINITY,
        }
    }

    pub fn is_finite(self) -> bool
        ensures { result ≡ finite_score self }
    {
        self.minor.is_finite() & (self.major.is_finite() | self.major.is_nan())
    }

    // Whether a major is NaN, be it the other's.
    fn has_nan_beside(self, other: Score) -> bool
        ensures { result ≡ (is_nan self.major || is_nan other.major) }
    {
        self.major.is_nan() | other.major.is_nan()
    }

    // Two finite scores: majors first, and minors alone where a major is NaN.
    fn cmp_finite(self, other: Score) -> Ordering
        requires { (finite_score self ≡ true) × (finite_score other ≡ true) }
        ensures { result ≡ finite_order self other }
    {
        if self.has_nan_beside(other) {
            return compare_numbers(self.minor, other.minor);
        }
        match compare_numbers(self.major, other.major) {
            Ordering::Less => Ordering::Less,
            Ordering::Greater => Ordering::Greater,
            Ordering::Equal => compare_numbers(self.minor, other.minor),
        }
    }

    // No Ord: a NaN as a major leaves the minors to decide, so that three scores may be less than one another in a circle.
    #[tactic(auto, unfolding(crate::specs::Order::score_order))]
    pub fn cmp(self, other: Score) -> Ordering
        ensures { result ≡ score_order self other }
    {
        match (self.is_finite(), other.is_finite()) {
            (true, true) => self.cmp_finite(other),
            (true, false) => Ordering::Less,
            (false, true) => Ordering::Greater,
            (false, false) => Ordering::Equal,
        }
    }

    fn is_less(self, other: Score) -> bool
        ensures { result ≡ is_less (score_order self other) }
    {
        self.cmp(other).is_lt()
    }
}

// The score at a place of a list of floats: major, minor, major, minor, ..
fn score_at(floats: &[f32], place: usize) -> Score
    requires { (place < 64) × (2 * place + 1 < length floats.now) }
    ensures { result ≡ score_at floats.now place }
{
    let at = 2 * place;
    Score {
        major: floats[at],
        minor: floats[at + 1],
    }
}

// The best of at least one score, read where it lies. A later one is taken only where it is less.
fn best_among(floats: &[f32], count: usize) -> Ranked
    requires { (0 < count) × (count ≤ 64) × (length floats.now ≡ 2 * count) }
    ensures { result ≡ best_to (scores_in floats.now count) (count - 1) }
{
    let mut best = Ranked {
        position: 0,
        score: score_at(floats, 0),
    };
    for position in 1..count {
        let score = score_at(floats, position);
        if score.is_less(best.score) {
            best = Ranked { position, score };
        }
    }
    best
}

// The best of `count` scores, listed as major, minor, major, minor, ..; an empty list has none. It is refused where there
// are more than 64, and where these are not listed exactly.
#[tactic(auto, using(crate::specs::ListedLaws::in_empty, crate::specs::ListedLaws::in_done), unfolding(crate::specs::Listed::best_in))]
pub fn best(floats: &[f32], count: usize) -> Result<Option<Ranked>, Refusal>
    ensures { best_answered result ≡ best_in floats.now count }
{
    if count > 64 {
        return Err(Refusal::TooMany);
    }
    if floats.len() != 2 * count {
        return Err(Refusal::Lengths);
    }
    if count == 0 {
        return Ok(None);
    }
    Ok(Some(best_among(floats, count)))
}
