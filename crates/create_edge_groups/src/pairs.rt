// ChoosersHaveSameChoices: for each slot and listed choice, the edges of two choosers.
ghost use Rattle.std.specs.Prelude.{◌*◌, ◌<◌};
ghost use Rattle.slot_lists.specs.Parts.{list_length, list_entry, Listed};
ghost use Rattle.edge_groups.specs.Grouping.{NamesChoosers, ListNamesChoosers};
ghost use Rattle.edge_groups.specs.Groups.{Room};
ghost use Rattle.edge_groups.specs.Input.{number_of, StoresNamed};
ghost use Rattle.edge_groups.specs.Names.{slot_names_at, same_choices_names, constraint_names, constraints_names};

use constraint::{Constraint, ConstraintType};
use edge_groups::{GroupInput, group_or_block};
use input_data::Constraints;
use model_buffers::Groups;
use slot_lists::SlotLists;

// What constraints name edges by: the slots' lists too, whose order they follow.
#[derive(Clone, Copy)]
pub struct ListedInput<'a, 'b> {
    pub group: GroupInput<'a>,
    pub lists: &'b SlotLists<'b>,
    ghost listed: { Listed group.sizes.slots 32 lists.now },
}

// The edges of choosers a and b to the choices of slot s.
#[tactic(auto, using(edge_groups::specs::Stored::groups_laws))]
fn put_slot(input: &ListedInput, a: usize, b: usize, s: usize, groups: &mut Groups)
    requires { (a < 64) × (b < 64) × (s < input.now.group.sizes.slots)
        × Room groups.old (list_length input.now.lists.now s * 2) (list_length input.now.lists.now s) }
    ensures { StoresNamed input.now.group (slot_names_at (number_of input.now.group)
        (list_length input.now.lists.now) (list_entry input.now.lists.now) a b s) groups }
{
    let list = input.lists.list(s);
    for k in list {
        let k = *k as usize;
        group_or_block(2, |i| input.group.index.edge([a, b][i], k), groups);
    }
}

// The edges of choosers a and b, slot by slot.
#[tactic(auto, using(edge_groups::specs::Stored::groups_laws), unfolding(edge_groups::specs::Names::same_choices_names))]
fn put_same_choices(input: &ListedInput, a: usize, b: usize, groups: &mut Groups)
    requires { (a < 64) × (b < 64) × Room groups.old 64 32 }
    ensures { StoresNamed input.now.group (same_choices_names (number_of input.now.group) input.now.group.sizes
        (list_length input.now.lists.now) (list_entry input.now.lists.now) a b) groups }
{
    for s in 0..input.group.sizes.slots {
        put_slot(input, a, b, s, groups);
    }
}

// What a constraint names. Only one kind names edges.
#[tactic(auto, using(edge_groups::specs::Grouping::names_none, edge_groups::specs::Grouping::names_same, edge_groups::specs::Stored::groups_none))]
fn put_constraint(input: &ListedInput, c: Constraint, groups: &mut Groups)
    requires { NamesChoosers c × Room groups.old 64 32 }
    ensures { StoresNamed input.now.group (constraint_names (number_of input.now.group) input.now.group.sizes
        (list_length input.now.lists.now) (list_entry input.now.lists.now) c) groups }
{
    match c.kind {
        ConstraintType::ChoosersHaveSameChoices => {
            put_same_choices(input, c.left, c.right.operand(), groups)
        }
        _ => {}
    }
}

// What a list of constraints names, constraint by constraint.
#[tactic(auto, using(edge_groups::specs::Stored::groups_laws), unfolding(edge_groups::specs::Names::constraints_names))]
pub fn put_constraints(input: &ListedInput, list: &Constraints, groups: &mut Groups)
    requires { ListNamesChoosers list.now × Room groups.old 2048 1024 }
    ensures { StoresNamed input.now.group (constraints_names (number_of input.now.group) input.now.group.sizes
        (list_length input.now.lists.now) (list_entry input.now.lists.now) list.now) groups }
{
    for j in 0..list.count() {
        put_constraint(input, Constraint::from(list.get(j)), groups);
    }
}
