//! What is left of statements with no block inside, and their own pulls.
ghost use Rattle.std.specs.Prelude.{◌≡◌, ◌<◌, ◌^◌, ◌+◌, ◌++◌, map, OnOk, IfOk};
ghost use Rattle.oc_tree.specs.Tree.{assign, assign_deref, assign_index, call_only, consistent, emit, for_in, fresh, let_array, let_to, return, sense_only};
ghost use Rattle.oc_tree.specs.View.{block_view, call_view, expr_view, kind_view, right_view};
ghost use Rattle.oc_tree.specs.Expansion.{left_call, left_expr, left_right, pulled, pulled_call, pulled_expr, pulled_right};
ghost use Rattle.oc_tree.specs.Pulls.{call_pulls, expr_pulls, right_pulls};

use crate::parts::{left_call, left_expr, left_right};
use oc_tree::name::Name;
use oc_tree::tree::{Block, Call, Expr, Right, StmtKind, ValueKind};
use std::alloc::{AllocError, Global};

// Each adds its pulls, and `k`, the number of the next pull, counts them.

/// What is left of a `let`.
pub fn left_let(
    alloc: Global,
    k: &mut u32,
    pulls: &mut Vec<Right>,
    mutable: bool,
    name: &Name,
    kind: Option<ValueKind>,
    right: &Right,
) -> Result<StmtKind, AllocError>
    requires { k.old + right_pulls (right_view right.now) < 2 ^ 32 }
    ensures left { IfOk result
        (λ r. kind_view r
        ≡ let_to mutable name.now kind (left_right k.old (right_view right.now))) }
    ensures pulled { OnOk result
        (map right_view pulls.new.items
        ≡ map right_view pulls.old.items ++ pulled_right k.old (right_view right.now)) }
    ensures next { OnOk result (k.new ≡ k.old + right_pulls (right_view right.now)) }
{
    let name = name.try_clone(alloc)?;
    let right = left_right(alloc, k, pulls, right)?;
    Ok(StmtKind::Let {
        mutable,
        name,
        kind,
        right,
    })
}

/// What is left of an assignment.
pub fn left_assign(
    alloc: Global,
    k: &mut u32,
    pulls: &mut Vec<Right>,
    name: &Name,
    right: &Right,
) -> Result<StmtKind, AllocError>
    requires { k.old + right_pulls (right_view right.now) < 2 ^ 32 }
    ensures left { IfOk result
        (λ r. kind_view r ≡ assign name.now (left_right k.old (right_view right.now))) }
    ensures pulled { OnOk result
        (map right_view pulls.new.items
        ≡ map right_view pulls.old.items ++ pulled_right k.old (right_view right.now)) }
    ensures next { OnOk result (k.new ≡ k.old + right_pulls (right_view right.now)) }
{
    let name = name.try_clone(alloc)?;
    let right = left_right(alloc, k, pulls, right)?;
    Ok(StmtKind::Assign { name, right })
}

/// What is left of an assignment to an element.
pub fn left_assign_index(
    alloc: Global,
    k: &mut u32,
    pulls: &mut Vec<Right>,
    name: &Name,
    index: &Expr,
    right: &Right,
) -> Result<StmtKind, AllocError>
    requires { k.old + (expr_pulls (expr_view index.now) + right_pulls (right_view right.now))
        < 2 ^ 32 }
    ensures left { IfOk result
        (λ r. kind_view r ≡ assign_index name.now (left_expr k.old (expr_view index.now))
        (left_right (k.old + expr_pulls (expr_view index.now)) (right_view right.now))) }
    ensures pulled { OnOk result
        (map right_view pulls.new.items
        ≡ map right_view pulls.old.items ++ pulled_expr k.old (expr_view index.now)
        ++ pulled_right (k.old + expr_pulls (expr_view index.now)) (right_view right.now)) }
    ensures next { OnOk result
        (k.new
        ≡ k.old + (expr_pulls (expr_view index.now) + right_pulls (right_view right.now))) }
{
    let name = name.try_clone(alloc)?;
    let index = left_expr(alloc, k, pulls, index)?;
    let right = left_right(alloc, k, pulls, right)?;
    Ok(StmtKind::AssignIndex { name, index, right })
}

/// What is left of an assignment to the target of a reference.
pub fn left_assign_deref(
    alloc: Global,
    k: &mut u32,
    pulls: &mut Vec<Right>,
    name: &Name,
    right: &Right,
) -> Result<StmtKind, AllocError>
    requires { k.old + right_pulls (right_view right.now) < 2 ^ 32 }
    ensures left { IfOk result
        (λ r. kind_view r ≡ assign_deref name.now (left_right k.old (right_view right.now))) }
    ensures pulled { OnOk result
        (map right_view pulls.new.items
        ≡ map right_view pulls.old.items ++ pulled_right k.old (right_view right.now)) }
    ensures next { OnOk result (k.new ≡ k.old + right_pulls (right_view right.now)) }
{
    let name = name.try_clone(alloc)?;
    let right = left_right(alloc, k, pulls, right)?;
    Ok(StmtKind::AssignDeref { name, right })
}

/// What is left of a call that is a statement.
pub fn left_call_only(
    alloc: Global,
    k: &mut u32,
    pulls: &mut Vec<Right>,
    call: &Call,
) -> Result<StmtKind, AllocError>
    requires { k.old + call_pulls (call_view call.now) < 2 ^ 32 }
    ensures left { IfOk result
        (λ r. kind_view r ≡ call_only (left_call k.old (call_view call.now))) }
    ensures pulled { OnOk result
        (map right_view pulls.new.items
        ≡ map right_view pulls.old.items ++ pulled_call k.old (call_view call.now)) }
    ensures next { OnOk result (k.new ≡ k.old + call_pulls (call_view call.now)) }
{
    let call = left_call(alloc, k, pulls, call)?;
    Ok(StmtKind::CallOnly { call })
}

/// What is left of an output.
pub fn left_emit(
    alloc: Global,
    k: &mut u32,
    pulls: &mut Vec<Right>,
    port: &Name,
    value: &Expr,
) -> Result<StmtKind, AllocError>
    requires { k.old + expr_pulls (expr_view value.now) < 2 ^ 32 }
    ensures left { IfOk result
        (λ r. kind_view r ≡ emit port.now (left_expr k.old (expr_view value.now))) }
    ensures pulled { OnOk result
        (map right_view pulls.new.items
        ≡ map right_view pulls.old.items ++ pulled_expr k.old (expr_view value.now)) }
    ensures next { OnOk result (k.new ≡ k.old + expr_pulls (expr_view value.now)) }
{
    let port = port.try_clone(alloc)?;
    let value = left_expr(alloc, k, pulls, value)?;
    Ok(StmtKind::Emit { port, value })
}

/// What is left of a `return`.
pub fn left_return(
    alloc: Global,
    k: &mut u32,
    pulls: &mut Vec<Right>,
    value: &Expr,
) -> Result<StmtKind, AllocError>
    requires { k.old + expr_pulls (expr_view value.now) < 2 ^ 32 }
    ensures left { IfOk result
        (λ r. kind_view r ≡ return (left_expr k.old (expr_view value.now))) }
    ensures pulled { OnOk result
        (map right_view pulls.new.items
        ≡ map right_view pulls.old.items ++ pulled_expr k.old (expr_view value.now)) }
    ensures next { OnOk result (k.new ≡ k.old + expr_pulls (expr_view value.now)) }
{
    let value = left_expr(alloc, k, pulls, value)?;
    Ok(StmtKind::Return { value })
}

/// The same declaration of an array.
pub fn let_array(
    alloc: Global,
    mutable: bool,
    name: &Name,
    kind: Option<ValueKind>,
    initial: i32,
    words: u32,
) -> Result<StmtKind, AllocError>
    ensures { IfOk result (λ r. kind_view r ≡ let_array mutable name.now kind initial words) }
{
    Ok(StmtKind::LetArray {
        mutable,
        name: name.try_clone(alloc)?,
        kind,
        initial,
        words,
    })
}

/// The same loop over numbers, with another body.
pub fn for_in(
    alloc: Global,
    name: &Name,
    from: i32,
    to: i32,
    body: Block,
) -> Result<StmtKind, AllocError>
    ensures { IfOk result (λ r. kind_view r ≡ for_in name.now from to (block_view body)) }
{
    Ok(StmtKind::For {
        name: name.try_clone(alloc)?,
        from,
        to,
        body,
    })
}

/// The same input that is a statement.
pub fn sense_only(alloc: Global, sensor: &Name) -> Result<StmtKind, AllocError>
    ensures { IfOk result (λ r. kind_view r ≡ sense_only sensor.now) }
{
    Ok(StmtKind::SenseOnly {
        sensor: sensor.try_clone(alloc)?,
    })
}

/// The same annotation `fresh`.
pub fn fresh(alloc: Global, name: &Name) -> Result<StmtKind, AllocError>
    ensures { IfOk result (λ r. kind_view r ≡ fresh name.now) }
{
    Ok(StmtKind::Fresh {
        name: name.try_clone(alloc)?,
    })
}

/// The same annotation `consistent`.
pub fn consistent(alloc: Global, name: &Name, id: i32) -> Result<StmtKind, AllocError>
    ensures { IfOk result (λ r. kind_view r ≡ consistent name.now id) }
{
    Ok(StmtKind::Consistent {
        name: name.try_clone(alloc)?,
        id,
    })
}
