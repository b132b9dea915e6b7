//! The groups of the expansion: a written statement with its temporaries.
ghost use Rattle.std.specs.Prelude.{◌≡◌, ◌<◌, ◌^◌, ◌+◌, ◌++◌, OnOk, IfOk, map, sum_by};
ghost use Rattle.oc_tree.specs.View.{block_view, else_view, function_view, kind_view};
ghost use Rattle.oc_tree.specs.Expansion.{block_groups, block_size, else_groups, else_size, functions_groups, inner_groups, inner_size};

use oc_tree::pulls::own_pulls;
use oc_tree::tree::{Block, Function, StmtId, StmtKind};
use std::alloc::{AllocError, Global};

/// Adds the groups of the statements inside a statement, and answers the next number.
#[cycle(groups)]
fn inner_groups(
    kind: &StmtKind,
    first: u32,
    groups: &mut Vec<(StmtId, StmtId)>,
) -> Result<u32, AllocError>
    requires { first + inner_size (kind_view kind.now) < 2 ^ 32 }
    ensures groups { OnOk result
        (groups.new.items ≡ groups.old.items ++ inner_groups first (kind_view kind.now)) }
    ensures next { IfOk result (λ n. n ≡ first + inner_size (kind_view kind.now)) }
{
    match kind {
        StmtKind::If {
            then,
            otherwise,
            ..
        } => {
            let next = block_groups(then, first, groups)?;
            else_groups(otherwise, next, groups)
        }
        StmtKind::For { body, .. } | StmtKind::While { body, .. } => block_groups(
            body, first, groups,
        ),
        _ => Ok(first),
    }
}

/// Adds the groups of an `else`, and answers the next number.
#[cycle(groups)]
fn else_groups(
    otherwise: &Option<Block>,
    first: u32,
    groups: &mut Vec<(StmtId, StmtId)>,
) -> Result<u32, AllocError>
    requires { first + else_size (else_view otherwise.now) < 2 ^ 32 }
    ensures groups { OnOk result
        (groups.new.items ≡ groups.old.items ++ else_groups first (else_view otherwise.now)) }
    ensures next { IfOk result (λ n. n ≡ first + else_size (else_view otherwise.now)) }
{
    match otherwise {
        Some(block) => block_groups(block, first, groups),
        None => Ok(first),
    }
}

/// Adds the groups of a block whose first statement has the number `first`, and answers the next
/// number.
#[cycle(groups)]
pub fn block_groups(
    block: &Block,
    first: u32,
    groups: &mut Vec<(StmtId, StmtId)>,
) -> Result<u32, AllocError>
    requires { first + block_size (block_view block.now) < 2 ^ 32 }
    ensures groups { OnOk result
        (groups.new.items ≡ groups.old.items ++ block_groups first (block_view block.now)) }
    ensures next { IfOk result (λ n. n ≡ first + block_size (block_view block.now)) }
{
    let mut next = first;
    for statement in &block.statements {
        let last = next + own_pulls(&statement.kind);
        groups.push((next, last))?;
        next = inner_groups(&statement.kind, last + 1, groups)?;
    }
    Ok(next)
}

/// The groups of functions, by their first statements.
pub fn functions_groups(
    alloc: Global,
    functions: &[Function],
) -> Result<Vec<(StmtId, StmtId)>, AllocError>
    requires { sum_by (λ f. block_size f.body) (map function_view functions.now) + 1 < 2 ^ 32 }
    ensures { IfOk result (λ g. g.items ≡ functions_groups 1 (map function_view functions.now)) }
{
    let mut groups = Vec::new(alloc);
    let mut next = 1;
    for function in functions {
        next = block_groups(&function.body, next, &mut groups)?;
    }
    Ok(groups)
}
