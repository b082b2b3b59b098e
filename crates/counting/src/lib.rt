// What every crate counts with: tests of the numbers below a bound, and tables of their values.
#![tactic(auto)]

ghost use Rattle.std.specs.Prelude.{◌≡◌, ◌<◌, ◌≤◌, ltb, length, get_or, ℕ, Bool, min};
ghost use Rattle.counting.specs.Calls.{TakesBelow, AgreesBelow, AgreesTwo};
ghost use Rattle.counting.specs.Fold.{gate, fold_to, any_to, all_to, count_to, some_below, table_to};

// What f gives at 0, 1, .., n - 1, taken together one after the other. No early exit, so that the walk is quick.
pub fn fold_below<A, T, F: Fn(usize) -> T, G: Fn(A, T) -> A>(n: usize, start: A, f: F, op: G) -> A
    requires takes { TakesBelow (F.pre f) n }
    requires pairs { (x : A) (y : T) → G.pre op x y }
    ensures { (of : ℕ → T) (by : A → T → A) → AgreesBelow (F.post f) n of → AgreesTwo (G.post op) by → result ≡ fold_to by start n of }
{
    let mut all = start;
    for k in 0..n {
        all = op(all, f(k));
    }
    all
}

// Whether one of 0, 1, .., n - 1 passes a test.
pub fn any_below<F: Fn(usize) -> bool>(n: usize, test: F) -> bool
    requires { TakesBelow (F.pre test) n }
    ensures { (f : ℕ → Bool) → AgreesBelow (F.post test) n f → result ≡ any_to n f }
{
    fold_below(n, false, test, |any, passes| any | passes)
}

// Whether all of them pass it.
pub fn all_below<F: Fn(usize) -> bool>(n: usize, test: F) -> bool
    requires { TakesBelow (F.pre test) n }
    ensures { (f : ℕ → Bool) → AgreesBelow (F.post test) n f → result ≡ all_to n f }
{
    fold_below(n, true, test, |all, passes| all & passes)
}

// How many of them pass it. The count is a byte, so that a walk over bytes is quick.
pub fn count_below<F: Fn(usize) -> bool>(n: usize, test: F) -> u8
    requires { TakesBelow (F.pre test) n × (n < 256) }
    ensures counts { (f : ℕ → Bool) → AgreesBelow (F.post test) n f → result ≡ count_to n f }
    ensures few { result ≤ n }
{
    let mut count = 0;
    for k in 0..n {
        count += u8::from(test(k));
    }
    count
}

// Whether one of the first n places of an array of MOST passes a test.
pub fn any_of<const MOST: usize, F: Fn(usize) -> bool>(n: usize, test: F) -> bool
    requires { TakesBelow (F.pre test) MOST }
    ensures { (f : ℕ → Bool) → AgreesBelow (F.post test) MOST f → result ≡ some_below MOST n f }
{
    any_below(n.min(MOST), test)
}

// The array of f 0, f 1, .., f (N - 1).
pub fn table<T: Copy, const N: usize, F: Fn(usize) -> T>(fill: T, f: F) -> [T; N]
    requires { TakesBelow (F.pre f) N }
    ensures { (of : ℕ → T) → AgreesBelow (F.post f) N of → result ≡ table_to N of }
{
    let mut out = [fill; N];
    for k in 0..N {
        out[k] = f(k);
    }
    out
}

// The first n bytes as an array, with zeros behind them.
pub fn front<const N: usize>(bytes: &[u8], n: usize) -> [u8; N]
    requires { min n N ≤ length bytes.now }
    ensures { result ≡ table_to N (λ k. gate (ltb k n) (get_or bytes.now k 0)) }
{
    let m = n.min(N);
    let mut out = [0; N];
    out[..m].copy_from_slice(&bytes[..m]);
    out
}
