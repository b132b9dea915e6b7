//! Uses of fresh variables.
ghost use Rattle.std.specs.Prelude.{◌≡◌};
ghost use Rattle.std.specs.List.{list_any};
ghost use Rattle.oc_tree.specs.View.{arg_view, args_view, call_view, expr_view, kind_view, right_view};
ghost use Rattle.oc_tree.specs.Walks.{arg_named, args_named, call_named, expr_named, kind_named, right_named};
ghost use Rattle.oc_meaning.specs.Uses.{begins_use, ends_use, is_use};
ghost use Rattle.oc_code.specs.Scope.{is_fresh_in};

use crate::scope::Scope;
use oc_tree::tree::{Arg, Call, Expr, Right, StmtKind};

/// Whether an expression names a fresh variable.
#[cycle(fresh)]
fn expr_has(scope: &Scope, expr: &Expr) -> bool
    ensures { result ≡ list_any (is_fresh_in scope.now) (expr_named (expr_view expr.now)) }
{
    match expr {
        Expr::Number { .. } => false,
        Expr::Truth { .. } => false,
        Expr::Variable { name } => scope.is_fresh(name),
        Expr::Index { array, index } => scope.is_fresh(array) || expr_has(scope, index),
        Expr::Deref { name } => scope.is_fresh(name),
        Expr::Unary { inner, .. } => expr_has(scope, inner),
        Expr::Binary { left, right, .. } => expr_has(scope, left) || expr_has(scope, right),
        Expr::Sense { .. } => false,
        Expr::Call { call } => call_has(scope, call),
    }
}

/// Whether an argument names or lends a fresh variable.
#[cycle(fresh)]
fn arg_has(scope: &Scope, arg: &Arg) -> bool
    ensures { result ≡ list_any (is_fresh_in scope.now) (arg_named (arg_view arg.now)) }
{
    match arg {
        Arg::Value { value } => expr_has(scope, value),
        Arg::Shared { name } => scope.is_fresh(name),
        Arg::Mutable { name } => scope.is_fresh(name),
    }
}

/// Whether one of these arguments names or lends a fresh variable.
#[cycle(fresh)]
fn args_have(scope: &Scope, args: &[Arg]) -> bool
    ensures { result ≡ list_any (is_fresh_in scope.now) (args_named (args_view args.now)) }
{
    for arg in args {
        if arg_has(scope, arg) {
            return true;
        }
    }
    false
}

/// Whether an argument of a call names or lends a fresh variable.
#[cycle(fresh)]
fn call_has(scope: &Scope, call: &Call) -> bool
    ensures { result ≡ list_any (is_fresh_in scope.now) (call_named (call_view call.now)) }
{
    args_have(scope, call.args.as_slice())
}

/// Whether the right side of a `let` or an assignment names a fresh variable.
fn right_has(scope: &Scope, right: &Right) -> bool
    ensures { result ≡ list_any (is_fresh_in scope.now) (right_named (right_view right.now)) }
{
    match right {
        Right::Value { value } => expr_has(scope, value),
        Right::Sense { .. } => false,
        Right::Call { call } => call_has(scope, call),
    }
}

/// Whether a statement's own expressions or arguments name a fresh variable. A target is only
/// assigned.
fn kind_has(scope: &Scope, kind: &StmtKind) -> bool
    ensures { result ≡ list_any (is_fresh_in scope.now) (kind_named (kind_view kind.now)) }
{
    match kind {
        StmtKind::Let { right, .. } => right_has(scope, right),
        StmtKind::LetArray { .. } => false,
        StmtKind::Assign { right, .. } => right_has(scope, right),
        StmtKind::AssignIndex { index, right, .. } => expr_has(scope, index)
            || right_has(scope, right),
        StmtKind::AssignDeref { right, .. } => right_has(scope, right),
        StmtKind::If { condition, .. } => expr_has(scope, condition),
        StmtKind::For { .. } => false,
        StmtKind::While { condition, .. } => expr_has(scope, condition),
        StmtKind::CallOnly { call } => call_has(scope, call),
        StmtKind::SenseOnly { .. } => false,
        StmtKind::Emit { value, .. } => expr_has(scope, value),
        StmtKind::Fresh { .. } => false,
        StmtKind::Consistent { .. } => false,
        StmtKind::Return { value } => expr_has(scope, value),
    }
}

/// Whether a statement names a fresh variable.
pub fn is_use(scope: &Scope, kind: &StmtKind) -> bool
    ensures { result ≡ is_use (is_fresh_in scope.now) (kind_view kind.now) }
{
    if !scope.has_fresh() {
        return false;
    }
    kind_has(scope, kind)
}

/// Whether a probe before a statement says that it uses a fresh variable, and whether one behind it
/// says that this is over.
#[derive(Clone, Copy)]
pub struct Probes {
    pub begins: bool,
    pub ends: bool,
}

/// The probes around a statement. A `while` has a probe at each test and the last one in its own
/// code, as a `return` has its last one.
pub fn probes_of(scope: &Scope, kind: &StmtKind) -> Probes
    ensures begins { result.begins ≡ begins_use (is_fresh_in scope.now) (kind_view kind.now) }
    ensures ends { result.ends ≡ ends_use (is_fresh_in scope.now) (kind_view kind.now) }
{
    match kind {
        StmtKind::While { .. } => Probes {
            begins: false,
            ends: false,
        },
        StmtKind::Return { .. } => Probes {
            begins: is_use(scope, kind),
            ends: false,
        },
        _ => {
            let used = is_use(scope, kind);
            Probes {
                begins: used,
                ends: used,
            }
        }
    }
}
