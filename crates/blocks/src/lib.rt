// assignment_solver.rs: the edges that a schedule blocks, constraint by constraint.
#![tactic(auto)]

ghost use Rattle.std.specs.Prelude.{◌<◌};
ghost use Rattle.constraint.specs.Kind.{kind_number};
ghost use Rattle.constraint.specs.Cases.{target_operand};
ghost use Rattle.blocks.specs.BlocksLaws.{beside_for, Blocked, Blocks, Blockable, Unfilled};
ghost use Rattle.blocks.specs.Blocks.{blocks_by, blocked_by};

use constraint::{Constraint, ConstraintType};
use input_data::Day;

// The choices beside choice x in its slot are blocked for a chooser. x has a slot.
fn block_beside(blocks: &mut [bool; 2048], entries: &[u8; 32], chooser: usize, x: usize)
    requires { (chooser < 64) × (x < 32) }
    ensures { Blocked (beside_for entries.now chooser x) blocks.old blocks.new }
{
    let slot = entries[x];
    let base = 32 * chooser;
    for k in 0..32 {
        blocks[base + k] |= (entries[k] == slot) & (k != x);
    }
}

// What one constraint blocks. Only two kinds block anything.
fn block_constraint(blocks: &mut [bool; 2048], entries: &[u8; 32], c: Constraint)
    requires { Blockable (kind_number c.kind) c.left (target_operand c.right) }
    ensures { Blocked (blocks_by c entries.now) blocks.old blocks.new }
{
    let x = c.right.operand();
    match c.kind {
        ConstraintType::ChooserIsInChoice => {
            if entries[x] != 0 {
                block_beside(blocks, entries, c.left, x);
            }
        }
        ConstraintType::ChooserIsNotInChoice => blocks[32 * c.left + x] = true,
        _ => {}
    }
}

// The blocks of a schedule, in a table in which nothing is blocked yet: what each assignment constraint blocks.
pub fn fill_blocks(blocks: &mut [bool; 2048], day: &Day, entries: &[u8; 32])
    requires { Unfilled day.now.assignment blocks.old }
    ensures { Blocks (blocked_by day.now.assignment entries.now) blocks.new }
{
    let assignment = day.assignment();
    for j in 0..assignment.count() {
        let constraint = Constraint::from(assignment.get(j));
        block_constraint(blocks, entries, constraint);
    }
}
