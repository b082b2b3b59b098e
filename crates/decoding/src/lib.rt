// The plan that edge values decode to.
#![tactic(auto)]

mod values;

ghost use Rattle.std.specs.Prelude.{◌≡◌, ◌*◌, ◌<◌, ◌≤◌, length};
ghost use Rattle.counting.specs.Written.{written};
ghost use Rattle.decoding.specs.Decoding.{Decoding, decoded_row, decoded_plan};

use input_data::Sizes;
use slot_lists::SlotLists;
pub use values::EdgeValues;

// Values that were accepted: every chooser has in every slot a listed choice whose edge has 1.
#[derive(Clone, Copy)]
pub struct AcceptedValues<'a, 'b> {
    pub sizes: Sizes,
    pub lists: SlotLists<'a>,
    pub edges: EdgeValues<'b>,
    ghost decoding: { Decoding sizes lists edges },
}

// What the chooser has, slot by slot.
fn put_row(accepted: &AcceptedValues, plan: &mut [u8], chooser: usize)
    requires { (chooser < accepted.now.sizes.choosers) × (accepted.now.sizes.choosers * accepted.now.sizes.slots ≤ length plan.old) }
    ensures { plan.new ≡ written plan.old (chooser * accepted.now.sizes.slots)
        (decoded_row accepted.now.sizes accepted.now.lists accepted.now.edges chooser) }
{
    let at = chooser * accepted.sizes.slots;
    for s in 0..accepted.sizes.slots {
        plan[at + s] = accepted.edges.choice_of(accepted.lists.list(s), chooser);
    }
}

// The plan, chooser by chooser.
pub fn decode(accepted: &AcceptedValues, plan: &mut [u8])
    requires { accepted.now.sizes.choosers * accepted.now.sizes.slots ≤ length plan.old }
    ensures { plan.new ≡ written plan.old 0 (decoded_plan accepted.now.sizes accepted.now.lists accepted.now.edges) }
{
    for c in 0..accepted.sizes.choosers {
        put_row(accepted, plan, c);
    }
}
