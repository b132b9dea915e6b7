//! Whether used names are visible, and of the kind that is needed.
ghost use Rattle.std.specs.Prelude.{◌≡◌};
ghost use Rattle.oc_tree.specs.View.{arg_view, call_view, expr_view, kind_view, program_view, right_view};
ghost use Rattle.oc_tree.specs.Scope.{is_name_of, is_variable};
ghost use Rattle.oc_tree.specs.Rules.{own_known, takes_name};
ghost use Rattle.oc_tree.specs.Walks.{arg_known, call_known, expr_known, kind_known, right_known};

use crate::scope::Scope;
use crate::top::TopLevel;
use oc_tree::name::Name;
use oc_tree::tree::{Arg, Call, Expr, Right, StmtKind};

/// Whether the name that a statement declares is taken.
pub fn takes_name<'a>(top: &TopLevel<'a>, scope: &Scope<'a>, kind: &StmtKind) -> bool
    ensures { result ≡ takes_name (program_view top.now) scope.now (kind_view kind.now) }
{
    match kind {
        StmtKind::Let { name, .. } | StmtKind::LetArray { name, .. } | StmtKind::For { name, .. } =>
            top.is_taken(scope, name),
        _ => false,
    }
}

/// Whether a name stands for a visible variable.
fn is_variable<'a>(top: &TopLevel<'a>, scope: &Scope<'a>, name: &Name) -> bool
    ensures { result ≡ is_variable (program_view top.now) scope.now name.now }
{
    top.variable(scope, name).is_some()
}

/// Whether a name is that of a sensor.
fn is_sensor(top: &TopLevel, name: &Name) -> bool
    ensures { result ≡ is_name_of (program_view top.now).names.sensors name.now }
{
    top.sensor_place(name).is_some()
}

/// Whether the names in an expression are visible, and of the kinds that are needed.
#[cycle(known)]
fn expr_known<'a>(top: &TopLevel<'a>, scope: &Scope<'a>, expr: &Expr) -> bool
    ensures { result ≡ expr_known (program_view top.now) scope.now (expr_view expr.now) }
{
    match expr {
        Expr::Number { .. } | Expr::Truth { .. } => true,
        Expr::Variable { name } | Expr::Deref { name } => is_variable(top, scope, name),
        Expr::Index { array, index } => is_variable(top, scope, array)
            && expr_known(top, scope, index),
        Expr::Unary { inner, .. } => expr_known(top, scope, inner),
        Expr::Binary { left, right, .. } => expr_known(top, scope, left)
            && expr_known(top, scope, right),
        Expr::Sense { sensor } => is_sensor(top, sensor),
        Expr::Call { call } => call_known(top, scope, call),
    }
}

/// Whether there is the called function, and the names in the call's arguments are visible.
#[cycle(known)]
fn call_known<'a>(top: &TopLevel<'a>, scope: &Scope<'a>, call: &Call) -> bool
    ensures { result ≡ call_known (program_view top.now) scope.now (call_view call.now) }
{
    if top.function_place(&call.function).is_none() {
        return false;
    }
    for arg in &call.args {
        if !arg_known(top, scope, arg) {
            return false;
        }
    }
    true
}

/// Whether the names in an argument are visible, and of the kinds that are needed.
#[cycle(known)]
fn arg_known<'a>(top: &TopLevel<'a>, scope: &Scope<'a>, arg: &Arg) -> bool
    ensures { result ≡ arg_known (program_view top.now) scope.now (arg_view arg.now) }
{
    match arg {
        Arg::Value { value } => expr_known(top, scope, value),
        Arg::Shared { name } | Arg::Mutable { name } => is_variable(top, scope, name),
    }
}

/// Whether the names on the right side of a `let` or an assignment are visible, and of the kinds
/// that are needed.
fn right_known<'a>(top: &TopLevel<'a>, scope: &Scope<'a>, right: &Right) -> bool
    ensures { result ≡ right_known (program_view top.now) scope.now (right_view right.now) }
{
    match right {
        Right::Value { value } => expr_known(top, scope, value),
        Right::Sense { sensor } => is_sensor(top, sensor),
        Right::Call { call } => call_known(top, scope, call),
    }
}

/// Whether the names that a statement itself uses are visible, and of the kinds that are needed.
fn kind_known<'a>(top: &TopLevel<'a>, scope: &Scope<'a>, kind: &StmtKind) -> bool
    ensures { result ≡ kind_known (program_view top.now) scope.now (kind_view kind.now) }
{
    match kind {
        StmtKind::Let { right, .. } => right_known(top, scope, right),
        StmtKind::LetArray { .. } | StmtKind::For { .. } => true,
        StmtKind::Assign { name, right } | StmtKind::AssignDeref { name, right } => is_variable(
            top, scope, name,
        ) && right_known(top, scope, right),
        StmtKind::AssignIndex { name, index, right } => is_variable(top, scope, name)
            && expr_known(top, scope, index)
            && right_known(top, scope, right),
        StmtKind::If { condition, .. } | StmtKind::While { condition, .. } => expr_known(
            top, scope, condition,
        ),
        StmtKind::CallOnly { call } => call_known(top, scope, call),
        StmtKind::SenseOnly { sensor } => is_sensor(top, sensor),
        StmtKind::Emit { port, value } => top.port_place(port).is_some()
            && expr_known(top, scope, value),
        StmtKind::Fresh { name } | StmtKind::Consistent { name, .. } => is_variable(
            top, scope, name,
        ),
        StmtKind::Return { value } => expr_known(top, scope, value),
    }
}

/// Whether the names that a statement itself uses are known.
pub fn own_known<'a>(top: &TopLevel<'a>, scope: &Scope<'a>, kind: &StmtKind) -> bool
    ensures { result ≡ own_known (program_view top.now) scope.now (kind_view kind.now) }
{
    kind_known(top, scope, kind)
}
