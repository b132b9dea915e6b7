//! Whether statements name fresh variables.
ghost use Rattle.std.specs.Prelude.{◌≡◌};
ghost use Rattle.std.specs.List.{list_any};
ghost use Rattle.oc_tree.specs.View.{arg_view, args_view, call_view, expr_view, kind_view, right_view};
ghost use Rattle.oc_tree.specs.Walks.{arg_named, args_named, call_named, expr_named, kind_named, right_named};
ghost use Rattle.oc_tree.specs.Named.{expr_names};
ghost use Rattle.oc_meaning.specs.Uses.{is_fresh, is_use};

use oc_meaning::scope::Scope;
use oc_tree::tree::{Arg, Call, Expr, Right, StmtKind};

/// Whether an expression names a fresh variable.
#[cycle(fresh)]
fn expr_has(scope: &Scope, expr: &Expr) -> bool
    ensures { result ≡ list_any (is_fresh scope.now) (expr_named (expr_view expr.now)) }
{
    match expr {
        Expr::Number { .. } => false,
        Expr::Truth { .. } => false,
        Expr::Variable { name } => scope.is_fresh(name),
        Expr::Index { array, index } => scope.is_fresh(array) || expr_has(scope, index),
        Expr::Deref { name } => scope.is_fresh(name),
        Expr::Unary { inner, .. } => expr_has(scope, inner),
        Expr::Binary { left, right, .. } => expr_has(scope, left) || expr_has(scope, right),
        Expr::Sense { .. } => false,
        Expr::Call { call } => call_has(scope, call),
    }
}

/// Whether an argument names or lends a fresh variable.
#[cycle(fresh)]
fn arg_has(scope: &Scope, arg: &Arg) -> bool
    ensures { result ≡ list_any (is_fresh scope.now) (arg_named (arg_view arg.now)) }
{
    match arg {
        Arg::Value { value } => expr_has(scope, value),
        Arg::Shared { name } => scope.is_fresh(name),
        Arg::Mutable { name } => scope.is_fresh(name),
    }
}

/// Whether one of these arguments names or lends a fresh variable.
#[cycle(fresh)]
fn args_have(scope: &Scope, args: &[Arg]) -> bool
    ensures { result ≡ list_any (is_fresh scope.now) (args_named (args_view args.now)) }
{
    for arg in args {
        if arg_has(scope, arg) {
            return true;
        }
    }
    false
}

/// Whether an argument of a call names or lends a fresh variable.
#[cycle(fresh)]
fn call_has(scope: &Scope, call: &Call) -> bool
    ensures { result ≡ list_any (is_fresh scope.now) (call_named (call_view call.now)) }
{
    args_have(scope, call.args.as_slice())
}

/// Whether the right side of a `let` or an assignment names a fresh variable.
fn right_has(scope: &Scope, right: &Right) -> bool
    ensures { result ≡ list_any (is_fresh scope.now) (right_named (right_view right.now)) }
{
    match right {
        Right::Value { value } => expr_has(scope, value),
        Right::Sense { .. } => false,
        Right::Call { call } => call_has(scope, call),
    }
}

/// Whether a statement's own expressions or arguments name a fresh variable. A target is only
/// assigned.
fn kind_has(scope: &Scope, kind: &StmtKind) -> bool
    ensures { result ≡ list_any (is_fresh scope.now) (kind_named (kind_view kind.now)) }
{
    match kind {
        StmtKind::Let { right, .. } => right_has(scope, right),
        StmtKind::LetArray { .. } => false,
        StmtKind::Assign { right, .. } => right_has(scope, right),
        StmtKind::AssignIndex { index, right, .. } => expr_has(scope, index)
            || right_has(scope, right),
        StmtKind::AssignDeref { right, .. } => right_has(scope, right),
        StmtKind::If { condition, .. } => expr_has(scope, condition),
        StmtKind::For { .. } => false,
        StmtKind::While { condition, .. } => expr_has(scope, condition),
        StmtKind::CallOnly { call } => call_has(scope, call),
        StmtKind::SenseOnly { .. } => false,
        StmtKind::Emit { value, .. } => expr_has(scope, value),
        StmtKind::Fresh { .. } => false,
        StmtKind::Consistent { .. } => false,
        StmtKind::Return { value } => expr_has(scope, value),
    }
}

/// Whether an expression names a fresh variable, which is a use of it.
pub fn expression_is_use(scope: &Scope, expr: &Expr) -> bool
    ensures { result ≡ list_any (is_fresh scope.now) (expr_names (expr_view expr.now)) }
{
    expr_has(scope, expr)
}

/// Whether a statement names a fresh variable.
pub fn is_use(scope: &Scope, kind: &StmtKind) -> bool
    ensures { result ≡ is_use (is_fresh scope.now) (kind_view kind.now) }
{
    kind_has(scope, kind)
}
