// create_edge_groups of assignment_solver.rs: what constraints and dependent groups name, in their order.
#![tactic(auto)]

mod pairs;

ghost use Rattle.std.specs.Prelude.{◌≡◌};
ghost use Rattle.slot_lists.specs.Parts.{list_length, list_entry};
ghost use Rattle.model_buffers.specs.Stored.{groups_with};
ghost use Rattle.mip_flow.specs.IndexLaws.{number_at};
ghost use Rattle.edge_groups.specs.Grouping.{Dependent, Grouping};
ghost use Rattle.edge_groups.specs.Groups.{Room};
ghost use Rattle.edge_groups.specs.Input.{number_of, StoresNamed};
ghost use Rattle.edge_groups.specs.Lent.{Stores};
ghost use Rattle.edge_groups.specs.Names.{dependent_names, names};

use dependent_groups::put_group;
use edge_groups::GroupInput;
use input_data::{Day, Sizes};
use mip_flow::EdgeIndex;
use model_buffers::Groups;
use pairs::{ListedInput, put_constraints};
use slot_lists::SlotLists;

// All dependent groups, one after the other.
#[tactic(auto, using(edge_groups::specs::Bounds::start_none, edge_groups::specs::Stored::groups_laws), unfolding(edge_groups::specs::Names::dependent_names))]
fn put_dependent(input: &GroupInput, day: &Day, groups: &mut Groups)
    requires { Dependent day.now × Room groups.old 2048 1024 }
    ensures { StoresNamed input.now (dependent_names (number_of input.now) input.now.sizes input.now.schedule.now
        day.now.groups day.now.lengths day.now.members) groups }
{
    let members: [u32; 32] = counting::table(0, |i| day.member(i));
    let mut start = 0;
    for g in 0..day.groups() {
        let end = start + day.group_length(g) as usize;
        put_group(input, &members[start..end], groups);
        start = end;
    }
}

// Stores the groups and the blocked edges of a state: those that constraints name, then those of
// dependent groups.
#[tactic(auto, using(edge_groups::specs::Stored::groups_append), unfolding(edge_groups::specs::Names::names))]
pub fn put_groups(
    sizes: Sizes,
    schedule: &[u8; 32],
    day: &Day,
    index: &EdgeIndex,
    lists: &SlotLists,
    groups: &mut Groups,
)
    requires { Grouping sizes lists.now day.now groups.old }
    ensures stores { Stores index.now.count (names (number_at index.now.numbers) sizes schedule.now (list_length lists.now) (list_entry lists.now)
        day.now.assignment day.now.groups day.now.lengths day.now.members) groups }
    ensures same { groups.new ≡ groups_with groups.old groups.new }
{
    let group = GroupInput {
        sizes,
        schedule,
        index,
    };
    let input = ListedInput { group, lists };
    put_constraints(&input, &day.assignment(), groups);
    put_dependent(&group, day, groups);
}
