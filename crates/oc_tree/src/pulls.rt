//! How many pulls a statement has.
ghost use Rattle.std.specs.Prelude.{◌≡◌, ◌<◌, ◌^◌};
ghost use Rattle.oc_tree.specs.View.{arg_view, call_view, expr_view, kind_view, right_view};
ghost use Rattle.oc_tree.specs.Pulls.{arg_pulls, call_pulls, expr_pulls, own_pulls, right_pulls};

use crate::tree::{Arg, Call, Expr, Right, StmtKind};

/// The pulls of an expression.
#[cycle(pulls)]
pub fn expr_pulls(expr: &Expr) -> u32
    requires { expr_pulls (expr_view expr.now) < 2 ^ 32 }
    ensures { result ≡ expr_pulls (expr_view expr.now) }
{
    match expr {
        Expr::Number { .. } | Expr::Truth { .. } | Expr::Variable { .. } | Expr::Deref { .. } => 0,
        Expr::Index { index, .. } => expr_pulls(index),
        Expr::Unary { inner, .. } => expr_pulls(inner),
        Expr::Binary { left, right, .. } => expr_pulls(left) + expr_pulls(right),
        Expr::Sense { .. } => 1,
        Expr::Call { call } => call_pulls(call) + 1,
    }
}

/// The pulls of an argument.
#[cycle(pulls)]
fn arg_pulls(arg: &Arg) -> u32
    requires { arg_pulls (arg_view arg.now) < 2 ^ 32 }
    ensures { result ≡ arg_pulls (arg_view arg.now) }
{
    match arg {
        Arg::Value { value } => expr_pulls(value),
        Arg::Shared { .. } | Arg::Mutable { .. } => 0,
    }
}

/// The pulls of a call's arguments.
#[cycle(pulls)]
fn call_pulls(call: &Call) -> u32
    requires { call_pulls (call_view call.now) < 2 ^ 32 }
    ensures { result ≡ call_pulls (call_view call.now) }
{
    let mut pulls: u32 = 0;
    for arg in &call.args {
        pulls += arg_pulls(arg);
    }
    pulls
}

/// The pulls of a right side.
fn right_pulls(right: &Right) -> u32
    requires { right_pulls (right_view right.now) < 2 ^ 32 }
    ensures { result ≡ right_pulls (right_view right.now) }
{
    match right {
        Right::Value { value } => expr_pulls(value),
        Right::Sense { .. } => 0,
        Right::Call { call } => call_pulls(call),
    }
}

/// The pulls of a statement itself.
pub fn own_pulls(kind: &StmtKind) -> u32
    requires { own_pulls (kind_view kind.now) < 2 ^ 32 }
    ensures { result ≡ own_pulls (kind_view kind.now) }
{
    match kind {
        StmtKind::LetArray { .. }
        | StmtKind::For { .. }
        | StmtKind::SenseOnly { .. }
        | StmtKind::Fresh { .. }
        | StmtKind::Consistent { .. } => 0,
        StmtKind::Let { right, .. }
        | StmtKind::Assign { right, .. }
        | StmtKind::AssignDeref { right, .. } => right_pulls(right),
        StmtKind::AssignIndex { index, right, .. } => expr_pulls(index) + right_pulls(right),
        StmtKind::If { condition, .. } | StmtKind::While { condition, .. } => expr_pulls(condition),
        StmtKind::CallOnly { call } => call_pulls(call),
        StmtKind::Emit { value, .. } | StmtKind::Return { value } => expr_pulls(value),
    }
}
