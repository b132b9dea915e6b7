//! The statements of a block in one list, and the calls of a statement.
ghost use Rattle.std.specs.Prelude.{◌≡◌, ◌++◌, OnOk, IfOk};
ghost use Rattle.std.specs.List.{flat_map};
ghost use Rattle.oc_tree.specs.View.{arg_view, block_view, call_view, else_view, expr_view, function_view, kind_view, right_view};
ghost use Rattle.oc_tree.specs.Calls.{arg_calls, block_kinds, body_calls, call_calls, else_kinds, expr_calls, hides, kind_hides, kind_kinds, own_calls, right_calls};
ghost use Rattle.oc_names.specs.Seen.{name_seen};
ghost use Rattle.oc_reach.specs.Views.{calls_seen, kinds_seen};

use oc_tree::name::Name;
use oc_tree::tree::{Arg, Block, Call, Expr, Function, Right, StmtKind};
use std::alloc::{AllocError, Global};

/// Adds the calls in an expression, in the order in which they end. Err is want of memory.
#[cycle(calls)]
fn expr_calls<'a>(expr: &'a Expr, calls: &mut Vec<&'a Call>) -> Result<(), AllocError>
    ensures { OnOk result
        (calls_seen calls.new.items
        ≡ calls_seen calls.old.items ++ expr_calls (expr_view expr.now)) }
{
    match expr {
        Expr::Number { .. }
        | Expr::Truth { .. }
        | Expr::Variable { .. }
        | Expr::Deref { .. }
        | Expr::Sense { .. } => Ok(()),
        Expr::Index { index, .. } => expr_calls(index, calls),
        Expr::Unary { inner, .. } => expr_calls(inner, calls),
        Expr::Binary { left, right, .. } => {
            expr_calls(left, calls)?;
            expr_calls(right, calls)
        }
        Expr::Call { call } => call_calls(call, calls),
    }
}

/// Adds the calls in an argument, in the order in which they end. Err is want of memory.
#[cycle(calls)]
fn arg_calls<'a>(arg: &'a Arg, calls: &mut Vec<&'a Call>) -> Result<(), AllocError>
    ensures { OnOk result
        (calls_seen calls.new.items ≡ calls_seen calls.old.items ++ arg_calls (arg_view arg.now)) }
{
    match arg {
        Arg::Value { value } => expr_calls(value, calls),
        Arg::Shared { .. } | Arg::Mutable { .. } => Ok(()),
    }
}

// The calls in the arguments, and then the call.
#[cycle(calls)]
fn call_calls<'a>(call: &'a Call, calls: &mut Vec<&'a Call>) -> Result<(), AllocError>
    ensures { OnOk result
        (calls_seen calls.new.items
        ≡ calls_seen calls.old.items ++ call_calls (call_view call.now)) }
{
    for arg in &call.args {
        arg_calls(arg, calls)?;
    }
    calls.push(call)?;
    Ok(())
}

/// Adds the calls on the right side of a `let` or an assignment, in the order in which they end.
/// Err is want of memory.
fn right_calls<'a>(right: &'a Right, calls: &mut Vec<&'a Call>) -> Result<(), AllocError>
    ensures { OnOk result
        (calls_seen calls.new.items
        ≡ calls_seen calls.old.items ++ right_calls (right_view right.now)) }
{
    match right {
        Right::Value { value } => expr_calls(value, calls),
        Right::Sense { .. } => Ok(()),
        Right::Call { call } => call_calls(call, calls),
    }
}

/// Adds the calls of a statement itself, in the order in which they end.
pub fn own_calls<'a>(kind: &'a StmtKind, calls: &mut Vec<&'a Call>) -> Result<(), AllocError>
    ensures { OnOk result
        (calls_seen calls.new.items
        ≡ calls_seen calls.old.items ++ own_calls (kind_view kind.now)) }
{
    match kind {
        StmtKind::LetArray { .. }
        | StmtKind::For { .. }
        | StmtKind::SenseOnly { .. }
        | StmtKind::Fresh { .. }
        | StmtKind::Consistent { .. } => Ok(()),
        StmtKind::Let { right, .. }
        | StmtKind::Assign { right, .. }
        | StmtKind::AssignDeref { right, .. } => right_calls(right, calls),
        StmtKind::AssignIndex { index, right, .. } => {
            expr_calls(index, calls)?;
            right_calls(right, calls)
        }
        StmtKind::If { condition, .. } | StmtKind::While { condition, .. } => expr_calls(
            condition, calls,
        ),
        StmtKind::CallOnly { call } => call_calls(call, calls),
        StmtKind::Emit { value, .. } | StmtKind::Return { value } => expr_calls(value, calls),
    }
}

/// Whether a variable of this name hides the one that is looked for, if any is.
fn hides(of: Option<&Name>, name: &Name) -> bool
    ensures { result ≡ hides (name_seen of.entry) name.now }
{
    match of {
        Some(hidden) => hidden.is(name),
        None => false,
    }
}

/// Whether a statement declares a variable that hides the one that is looked for behind it.
fn kind_hides(of: Option<&Name>, kind: &StmtKind) -> bool
    ensures { result ≡ kind_hides (name_seen of.entry) (kind_view kind.now) }
{
    match kind {
        StmtKind::Let { name, .. } | StmtKind::LetArray { name, .. } => hides(of, name),
        _ => false,
    }
}

/// Adds a statement and those inside it, in source order; of a name, those where no variable hides
/// it. Err is want of memory.
#[cycle(kinds)]
fn kind_kinds<'a>(
    kind: &'a StmtKind,
    of: Option<&Name>,
    kinds: &mut Vec<&'a StmtKind>,
) -> Result<(), AllocError>
    ensures { OnOk result
        (kinds_seen kinds.new.items ≡ kinds_seen kinds.old.items
        ++ kind_kinds (name_seen of.entry) (kind_view kind.now)) }
{
    kinds.push(kind)?;
    match kind {
        StmtKind::If {
            then,
            otherwise,
            ..
        } => {
            block_kinds(then, of, kinds)?;
            else_kinds(otherwise, of, kinds)
        }
        StmtKind::For { name, body, .. } => {
            if hides(of, name) {
                return Ok(());
            }
            block_kinds(body, of, kinds)
        }
        StmtKind::While { body, .. } => block_kinds(body, of, kinds),
        _ => Ok(()),
    }
}

/// Adds the statements of an `else`, if there is one, and those inside them. Err is want of memory.
#[cycle(kinds)]
fn else_kinds<'a>(
    otherwise: &'a Option<Block>,
    of: Option<&Name>,
    kinds: &mut Vec<&'a StmtKind>,
) -> Result<(), AllocError>
    ensures { OnOk result
        (kinds_seen kinds.new.items ≡ kinds_seen kinds.old.items
        ++ else_kinds (name_seen of.entry) (else_view otherwise.now)) }
{
    match otherwise {
        Some(block) => block_kinds(block, of, kinds),
        None => Ok(()),
    }
}

/// Adds the statements of a block and those inside them, in source order; of a name, those where no
/// variable hides it.
#[cycle(kinds)]
pub fn block_kinds<'a>(
    block: &'a Block,
    of: Option<&Name>,
    kinds: &mut Vec<&'a StmtKind>,
) -> Result<(), AllocError>
    ensures { OnOk result
        (kinds_seen kinds.new.items ≡ kinds_seen kinds.old.items
        ++ block_kinds (name_seen of.entry) (block_view block.now)) }
{
    for statement in &block.statements {
        kind_kinds(&statement.kind, of, kinds)?;
        if kind_hides(of, &statement.kind) {
            return Ok(());
        }
    }
    Ok(())
}

/// The statements of a function, in source order; of a name, those where no variable hides it. Err
/// is want of memory.
pub fn function_kinds<'a>(
    alloc: Global,
    function: &'a Function,
    of: Option<&Name>,
) -> Result<Vec<&'a StmtKind>, AllocError>
    ensures { IfOk result
        (λ k. kinds_seen k.items
        ≡ block_kinds (name_seen of.entry) (function_view function.now).body) }
{
    let mut kinds = Vec::new(alloc);
    block_kinds(&function.body, of, &mut kinds)?;
    Ok(kinds)
}

/// The calls of these statements. Err is want of memory.
fn kinds_calls<'a>(alloc: Global, kinds: &[&'a StmtKind]) -> Result<Vec<&'a Call>, AllocError>
    ensures { IfOk result (λ c. calls_seen c.items ≡ flat_map own_calls (kinds_seen kinds.now)) }
{
    let mut calls = Vec::new(alloc);
    for kind in kinds {
        own_calls(*kind, &mut calls)?;
    }
    Ok(calls)
}

/// All calls of a function.
pub fn body_calls<'a>(alloc: Global, function: &'a Function) -> Result<Vec<&'a Call>, AllocError>
    ensures { IfOk result (λ c. calls_seen c.items ≡ body_calls (function_view function.now)) }
{
    let kinds = function_kinds(alloc, function, None)?;
    kinds_calls(alloc, kinds.as_slice())
}
