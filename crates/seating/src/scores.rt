// The entries over score.rs. Scores leave as bits, so that NaN's are fixed.
ghost use Rattle.std.specs.Prelude.{◌≡◌};
ghost use Rattle.score.specs.Order.{infinite_twice, finite_score, score_order, order_number};
ghost use Rattle.score.specs.Listed.{best_in};
ghost use Rattle.score.specs.Answered.{best_answered};
ghost use Rattle.seating.specs.Scores.{score, score_bits, best_bits};
ghost use Rattle.seating.specs.ScoresLaws.{Near};

use refusal::Refusal;
use score::{Ranked, Score};

#[repr(C)]
#[derive(Clone, Copy, Debug)]
pub struct ScoreBits {
    pub major: u32,
    pub minor: u32,
}

#[repr(C)]
#[derive(Clone, Copy, Debug)]
pub struct BestBits {
    pub number: u32,
    pub found: u32,
    pub position: u32,
    pub score: ScoreBits,
}

impl From<Score> for ScoreBits {
    ghost from_gives = { λ s bits. bits ≡ score_bits s };

    fn from(s: Score) -> ScoreBits {
        ScoreBits {
            major: score::bits(s.major),
            minor: score::bits(s.minor),
        }
    }
}

#[unsafe(no_mangle)]
pub extern "C" fn cendravoka_is_finite(major: f32, minor: f32) -> bool
    ensures { result ≡ finite_score (score major minor) }
{
    Score { major, minor }.is_finite()
}

#[unsafe(no_mangle)]
pub extern "C" fn cendravoka_compare(
    left_major: f32,
    left_minor: f32,
    right_major: f32,
    right_minor: f32,
) -> i32
    ensures { result ≡ order_number (score_order (score left_major left_minor) (score right_major right_minor)) }
{
    let left = Score {
        major: left_major,
        minor: left_minor,
    };
    let right = Score {
        major: right_major,
        minor: right_minor,
    };
    left.cmp(right) as i32
}

// The best of a list in numbers: its number, whether there is one, its place and its bits.
fn best_bits(answer: Result<Option<Ranked>, Refusal>) -> BestBits
    requires { Near (best_answered answer) }
    ensures { result ≡ best_bits (best_answered answer) }
{
    let none = BestBits {
        number: 0,
        found: 0,
        position: 0,
        score: ScoreBits { major: 0, minor: 0 },
    };
    match answer {
        Ok(Some(best)) => BestBits {
            number: 0,
            found: 1,
            position: best.position as u32,
            score: best.score.into(),
        },
        Ok(None) => none,
        Err(refusal) => BestBits {
            number: u32::from(refusal),
            ..none
        },
    }
}

#[tactic(auto, using(crate::specs::ScoresLaws::near))]
#[unsafe(no_mangle)]
pub extern "C" fn cendravoka_best(scores: &[f32], count: usize) -> BestBits
    ensures { result ≡ best_bits (best_in scores.now count) }
{
    best_bits(score::best(scores, count))
}

#[unsafe(no_mangle)]
pub extern "C" fn cendravoka_infinite() -> ScoreBits
    ensures { result ≡ score_bits infinite_twice }
{
    Score::infinite().into()
}

#[unsafe(no_mangle)]
pub extern "C" fn cendravoka_greedy_major() -> u32
    ensures { result ≡ 0x7fc0_0000 }
{
    score::bits(score::greedy_major())
}
