// The most asks that a search makes.
ghost use Rattle.std.specs.Prelude.{◌≡◌, ◌≤◌};
ghost use Rattle.preference_search.specs.Search.{binary_digits, most_asks};

#[tactic(auto, using(crate::specs::Digits::digits_leading))]
fn binary_digits(n: usize) -> u32
    requires { n ≤ 256 }
    ensures { result ≡ binary_digits n }
{
    32 - u32::leading_zeros(n as u32)
}

// The most asks of a search over `count` levels that starts at this index, or of a greedy one.
pub fn most_asks(greedy: bool, count: usize, start: usize) -> u32
    requires { count ≤ 256 }
    ensures { result ≡ most_asks greedy count start }
{
    if greedy {
        return 1;
    }
    binary_digits(count.saturating_sub(start))
}
