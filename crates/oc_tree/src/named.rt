//! The variables that expressions and statements name.
ghost use Rattle.std.specs.Prelude.{◌≡◌, ◌++◌, OnOk};
ghost use Rattle.oc_tree.specs.View.{arg_view, call_view, expr_view, kind_view, right_view};
ghost use Rattle.oc_tree.specs.Named.{arg_names, expr_names, own_names};
ghost use Rattle.oc_tree.specs.Walks.{arg_named, call_named, expr_named, kind_named, right_named};
ghost use Rattle.oc_tree.specs.Names.{names_seen};

use crate::name::Name;
use crate::tree::{Arg, Call, Expr, Right, StmtKind};
use std::alloc::AllocError;

/// Adds the variables that an expression names, from the left. Err is want of memory.
#[cycle(names)]
fn add_expr<'a>(expr: &'a Expr, names: &mut Vec<&'a Name>) -> Result<(), AllocError>
    ensures { OnOk result
        (names_seen names.new.items
        ≡ names_seen names.old.items ++ expr_named (expr_view expr.now)) }
{
    match expr {
        Expr::Number { .. } | Expr::Truth { .. } | Expr::Sense { .. } => Ok(()),
        Expr::Variable { name } | Expr::Deref { name } => {
            names.push(name)?;
            Ok(())
        }
        Expr::Index { array, index } => {
            names.push(array)?;
            add_expr(index, names)
        }
        Expr::Unary { inner, .. } => add_expr(inner, names),
        Expr::Binary { left, right, .. } => {
            add_expr(left, names)?;
            add_expr(right, names)
        }
        Expr::Call { call } => add_call(call, names),
    }
}

/// Adds the variables that an argument names or lends. Err is want of memory.
#[cycle(names)]
fn add_arg<'a>(arg: &'a Arg, names: &mut Vec<&'a Name>) -> Result<(), AllocError>
    ensures { OnOk result
        (names_seen names.new.items ≡ names_seen names.old.items ++ arg_named (arg_view arg.now)) }
{
    match arg {
        Arg::Value { value } => add_expr(value, names),
        Arg::Shared { name } | Arg::Mutable { name } => {
            names.push(name)?;
            Ok(())
        }
    }
}

/// Adds the variables that the arguments of a call name or lend, from the left. Err is want of
/// memory.
#[cycle(names)]
fn add_call<'a>(call: &'a Call, names: &mut Vec<&'a Name>) -> Result<(), AllocError>
    ensures { OnOk result
        (names_seen names.new.items
        ≡ names_seen names.old.items ++ call_named (call_view call.now)) }
{
    for arg in &call.args {
        add_arg(arg, names)?;
    }
    Ok(())
}

/// Adds the variables that the right side of a `let` or an assignment names. Err is want of memory.
fn add_right<'a>(right: &'a Right, names: &mut Vec<&'a Name>) -> Result<(), AllocError>
    ensures { OnOk result
        (names_seen names.new.items
        ≡ names_seen names.old.items ++ right_named (right_view right.now)) }
{
    match right {
        Right::Value { value } => add_expr(value, names),
        Right::Sense { .. } => Ok(()),
        Right::Call { call } => add_call(call, names),
    }
}

/// Adds the variables that a statement's own expressions and arguments name. A target is only
/// assigned. Err is want of memory.
fn add_kind<'a>(kind: &'a StmtKind, names: &mut Vec<&'a Name>) -> Result<(), AllocError>
    ensures { OnOk result
        (names_seen names.new.items
        ≡ names_seen names.old.items ++ kind_named (kind_view kind.now)) }
{
    match kind {
        StmtKind::LetArray { .. }
        | StmtKind::For { .. }
        | StmtKind::SenseOnly { .. }
        | StmtKind::Fresh { .. }
        | StmtKind::Consistent { .. } => Ok(()),
        StmtKind::Let { right, .. }
        | StmtKind::Assign { right, .. }
        | StmtKind::AssignDeref { right, .. } => add_right(right, names),
        StmtKind::AssignIndex { index, right, .. } => {
            add_expr(index, names)?;
            add_right(right, names)
        }
        StmtKind::If { condition, .. } | StmtKind::While { condition, .. } => add_expr(
            condition, names,
        ),
        StmtKind::CallOnly { call } => add_call(call, names),
        StmtKind::Emit { value, .. } | StmtKind::Return { value } => add_expr(value, names),
    }
}

/// Adds the variables that an expression names.
pub fn expr_names<'a>(expr: &'a Expr, names: &mut Vec<&'a Name>) -> Result<(), AllocError>
    ensures { OnOk result
        (names_seen names.new.items
        ≡ names_seen names.old.items ++ expr_names (expr_view expr.now)) }
{
    add_expr(expr, names)
}

/// Adds the variables that an argument names.
pub fn arg_names<'a>(arg: &'a Arg, names: &mut Vec<&'a Name>) -> Result<(), AllocError>
    ensures { OnOk result
        (names_seen names.new.items ≡ names_seen names.old.items ++ arg_names (arg_view arg.now)) }
{
    add_arg(arg, names)
}

/// Adds the variables that a statement names in its own expressions or arguments.
pub fn own_names<'a>(kind: &'a StmtKind, names: &mut Vec<&'a Name>) -> Result<(), AllocError>
    ensures { OnOk result
        (names_seen names.new.items
        ≡ names_seen names.old.items ++ own_names (kind_view kind.now)) }
{
    add_kind(kind, names)
}
