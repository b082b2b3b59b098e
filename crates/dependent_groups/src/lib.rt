// create_edge_groups of assignment_solver.rs, a dependent group: for each chooser, the edges to the
// scheduled members.
#![tactic(auto)]

ghost use Rattle.std.specs.Prelude.{◌≡◌, ◌*◌, ◌≤◌, length};
ghost use Rattle.counting.specs.Fold.{join_to};
ghost use Rattle.edge_groups.specs.Grouping.{Choices};
ghost use Rattle.edge_groups.specs.Groups.{Room};
ghost use Rattle.edge_groups.specs.Input.{number_of, StoresNamed};
ghost use Rattle.edge_groups.specs.Names.{group_names_of};
ghost use Rattle.dependent_groups.specs.Members.{scheduled_members, member_names, Inside, Holds};

use edge_groups::{GroupInput, group_or_block};
use model_buffers::Groups;

// The members of a dependent group that have a slot, in their order. No others name edges. Where there is
// room for the edges that a group may name, it has 64 members at most.
#[derive(Clone, Copy)]
struct Members {
    choices: [u32; 64],
    count: usize,
    ghost inside: { Inside choices count },
}

// The scheduled members of a group.
fn scheduled(schedule: &[u8; 32], group: &[u32]) -> Members
    requires { Choices group.now × (length group.now ≤ 64) }
    ensures { Holds result.choices result.count (scheduled_members schedule.now group.now) (length group.now) }
{
    let mut choices = [0; 64];
    let mut count = 0;
    for k in group {
        if schedule[*k as usize] != 0 {
            choices[count] = *k;
            count += 1;
        }
    }
    Members { choices, count }
}

// The edges of all choosers, one after the other.
#[tactic(auto, using(edge_groups::specs::Stored::groups_laws))]
fn put_choosers(input: &GroupInput, members: &Members, groups: &mut Groups)
    requires { Room groups.old (input.now.sizes.choosers * members.now.count) input.now.sizes.choosers }
    ensures { StoresNamed input.now (join_to input.now.sizes.choosers
        (member_names (number_of input.now) members.now.choices members.now.count)) groups }
{
    for c in 0..input.sizes.choosers {
        group_or_block(
            members.count,
            |i| input.index.edge(c, members.choices[i] as usize),
            groups,
        );
    }
}

// A dependent group, unless its length is 1.
#[tactic(auto, using(edge_groups::specs::Grouping::group_one, edge_groups::specs::Grouping::group_other, edge_groups::specs::Stored::groups_none))]
pub fn put_group(input: &GroupInput, group: &[u32], groups: &mut Groups)
    requires { Choices group.now × Room groups.old (length group.now * 64) 64 }
    ensures { StoresNamed input.now (group_names_of (number_of input.now) input.now.sizes input.now.schedule.now group.now) groups }
{
    if group.len() == 1 {
        return;
    }
    let members = scheduled(input.schedule, group);
    put_choosers(input, &members, groups);
}
