//! The groups of statements, by the numbers of these.
ghost use Rattle.std.specs.Prelude.{◌≡◌, ◌<◌, ◌≤◌, ℕ, None, Some, length, vec_len, IfOk, OnOk};
ghost use Rattle.std.proofs.Math.ListN.{get_or};
ghost use Rattle.oc_tree.specs.Places.{block_of};
ghost use Rattle.oc_tree.specs.Checked.{group_of};
ghost use Rattle.oc_region.specs.Views.{group_with};

use crate::places::is_in_block;
use oc_effects::effects::Effects;
use oc_tree::tree::{BlockId, StmtId};
use std::alloc::{AllocError, Global};

/// A group, by its first and its last statement.
pub type Group = (StmtId, StmtId);

/// The group of a statement, which is known or is this one. The group stands in the block.
fn group_with(
    effects: &Effects,
    group: Group,
    block: BlockId,
    s: StmtId,
    known: Option<Group>,
) -> Option<Group>
    requires { block_of effects.now.program group.0 ≡ Some block }
    ensures { result ≡ group_with effects.now.program group s known }
{
    if known.is_some() {
        return known;
    }
    if group.0 <= s && s <= group.1 && is_in_block(effects, s, block) {
        Some(group)
    } else {
        None
    }
}

/// The statements directly in a group get it, unless they have one.
fn fill(effects: &Effects, group: Group, table: &mut [Option<Group>])
    requires { group.1 < length table.old }
    ensures { (s : ℕ)
        → get_or table.new s None
        ≡ group_with effects.now.program group s (get_or table.old s None) }
{
    let Some(block) = effects.block_of(group.0) else {
        return;
    };
    for i in group.0 as usize..group.1 as usize + 1 {
        table[i] = group_with(effects, group, block, i as StmtId, table[i]);
    }
}

/// Makes room for the statements below a number.
fn grow(table: &mut Vec<Option<Group>>, len: usize) -> Result<(), AllocError>
    ensures room { OnOk result (len ≤ vec_len table.new) }
    ensures same { OnOk result
        ((s : ℕ) → get_or table.new.items s None ≡ get_or table.old.items s None) }
{
    while table.len() < len {
        table.push(None)?;
    }
    Ok(())
}

/// The group of each statement of a program, in one pass over the groups.
pub fn group_table(alloc: Global, effects: &Effects) -> Result<Vec<Option<Group>>, AllocError>
    ensures { IfOk result (λ t. (s : ℕ)
        → get_or t.items s None ≡ group_of effects.now.program effects.now.groups s) }
{
    let mut table = Vec::new(alloc);
    for group in effects.checked().groups() {
        grow(&mut table, group.1 as usize + 1)?;
        fill(effects, *group, &mut table);
    }
    Ok(table)
}
