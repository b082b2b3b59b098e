// mip_flow_static_data.rs: what each node of the flow model supplies. Node numbers are by formula.
#![tactic(auto)]

ghost use Rattle.std.specs.Prelude.{◌≡◌, ℕ, ◌+◌, ◌≤◌, length};
ghost use Rattle.counting.specs.Calls.{TakesBelow, AgreesBelow};
ghost use Rattle.counting.specs.Fold.{table_to};
ghost use Rattle.counting.specs.Written.{written};
ghost use Rattle.mip_flow_static_data.specs.Nodes.{supplies, Supplying};

use input_data::{Day, Sizes};

// Stores f(0), f(1), .., f(n - 1) from place `at` on.
fn put_each<T: Copy, F: Fn(usize) -> T>(out: &mut [T], at: usize, n: usize, f: F)
    requires room { at + n ≤ length out.old }
    requires takes { TakesBelow (F.pre f) n }
    ensures { (of : ℕ → T) → AgreesBelow (F.post f) n of → out.new ≡ written out.old at (table_to n of) }
{
    for k in 0..n {
        out[at + k] = f(k);
    }
}

// What each node supplies, node by node.
pub fn put_supplies(
    sizes: Sizes,
    schedule: &[u8; 32],
    day: &Day,
    covered: &[u32; 8],
    out: &mut [i32],
)
    requires { Supplying sizes day.now.mins covered.now (length out.old) }
    ensures { out.new ≡ written out.old 0 (supplies sizes schedule.now day.now.mins covered.now) }
{
    let n = sizes.choosers * sizes.slots;
    let choosers = sizes.choosers as i32;
    // a chooser in a slot supplies 1
    put_each(out, 0, n, |_| 1);
    // a scheduled choice takes in its min at least, another nothing
    put_each(out, n, sizes.choices, |k| {
        if schedule[k] == 0 {
            0
        } else {
            -(day.min(k) as i32)
        }
    });
    put_each(out, n + sizes.choices, sizes.slots, |s| {
        covered[s] as i32 - choosers
    });
}
