//! Inputs and calls that stand where they may be skipped.
ghost use Rattle.std.specs.Prelude.{◌≡◌, ◌<◌, ◌^◌};
ghost use Rattle.oc_tree.specs.View.{arg_view, call_view, expr_view, kind_view, right_view};
ghost use Rattle.oc_tree.specs.Pulls.{arg_pulls, call_pulls, expr_pulls, may_skip, own_pulls, own_skips, right_pulls};
ghost use Rattle.oc_tree.specs.Walks.{arg_skips, call_skips, expr_skips, kind_skips, right_skips};

use oc_tree::pulls::expr_pulls;
use oc_tree::tree::{Arg, BinaryOp, Call, Expr, Right, StmtKind};

/// Whether an operator may skip its right operand: `&&` or `||`.
fn may_skip(op: BinaryOp) -> bool
    ensures { result ≡ may_skip op }
{
    match op {
        BinaryOp::Or | BinaryOp::And => true,
        _ => false,
    }
}

/// Whether an input or a call stands in the right operand of an `&&` or `||` in the expression.
#[cycle(skips)]
fn expr_skips(expr: &Expr) -> bool
    requires { expr_pulls (expr_view expr.now) < 2 ^ 32 }
    ensures { result ≡ expr_skips (expr_view expr.now) }
{
    match expr {
        Expr::Number { .. }
        | Expr::Truth { .. }
        | Expr::Variable { .. }
        | Expr::Deref { .. }
        | Expr::Sense { .. } => false,
        Expr::Index { index, .. } => expr_skips(index),
        Expr::Unary { inner, .. } => expr_skips(inner),
        Expr::Binary { op, left, right } => expr_skips(left)
            || expr_skips(right)
            || (may_skip(*op) && 0 < expr_pulls(right)),
        Expr::Call { call } => call_skips(call),
    }
}

/// Whether an input or a call stands in the right operand of an `&&` or `||` in a call's arguments.
#[cycle(skips)]
fn call_skips(call: &Call) -> bool
    requires { call_pulls (call_view call.now) < 2 ^ 32 }
    ensures { result ≡ call_skips (call_view call.now) }
{
    for arg in &call.args {
        if arg_skips(arg) {
            return true;
        }
    }
    false
}

/// Whether an input or a call stands in the right operand of an `&&` or `||` in the argument.
#[cycle(skips)]
fn arg_skips(arg: &Arg) -> bool
    requires { arg_pulls (arg_view arg.now) < 2 ^ 32 }
    ensures { result ≡ arg_skips (arg_view arg.now) }
{
    match arg {
        Arg::Value { value } => expr_skips(value),
        Arg::Shared { .. } | Arg::Mutable { .. } => false,
    }
}

/// Whether an input or a call stands in the right operand of an `&&` or `||` on the right side of a
/// `let` or an assignment.
fn right_skips(right: &Right) -> bool
    requires { right_pulls (right_view right.now) < 2 ^ 32 }
    ensures { result ≡ right_skips (right_view right.now) }
{
    match right {
        Right::Value { value } => expr_skips(value),
        Right::Sense { .. } => false,
        Right::Call { call } => call_skips(call),
    }
}

/// Whether an input or a call stands in the right operand of an `&&` or `||` in a statement's own
/// expressions, or in the condition of a `while`.
fn kind_skips(kind: &StmtKind) -> bool
    requires { own_pulls (kind_view kind.now) < 2 ^ 32 }
    ensures { result ≡ kind_skips (kind_view kind.now) }
{
    match kind {
        StmtKind::LetArray { .. }
        | StmtKind::For { .. }
        | StmtKind::SenseOnly { .. }
        | StmtKind::Fresh { .. }
        | StmtKind::Consistent { .. } => false,
        StmtKind::Let { right, .. }
        | StmtKind::Assign { right, .. }
        | StmtKind::AssignDeref { right, .. } => right_skips(right),
        StmtKind::AssignIndex { index, right, .. } => expr_skips(index) || right_skips(right),
        StmtKind::If { condition, .. } => expr_skips(condition),
        StmtKind::While { condition, .. } => 0 < expr_pulls(condition),
        StmtKind::CallOnly { call } => call_skips(call),
        StmtKind::Emit { value, .. } | StmtKind::Return { value } => expr_skips(value),
    }
}

/// Whether an input or a call stands where it may be skipped, or in the condition of a `while`.
pub fn own_skips(kind: &StmtKind) -> bool
    requires { own_pulls (kind_view kind.now) < 2 ^ 32 }
    ensures { result ≡ own_skips (kind_view kind.now) }
{
    kind_skips(kind)
}
