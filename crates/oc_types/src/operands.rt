//! Whether operands are of the types that their operators take.
ghost use Rattle.std.specs.Prelude.{◌≡◌};
ghost use Rattle.oc_tree.specs.View.{arg_view, call_view, expr_view, kind_view, program_view, right_view};
ghost use Rattle.oc_tree.specs.Rules.{arg_fits, binary_fits, call_fits, expr_fits, only_reference, own_fits, passed_on, right_fits, unary_fits};

use crate::scope::Scope;
use crate::top::TopLevel;
use crate::types::{
    has_elements, is_bool, is_int, is_reference, is_same, pointed_type, type_of, value_type,
};
use oc_tree::scope::Var;
use oc_tree::tree::{Arg, BinaryOp, Call, Expr, Right, Scalar, StmtKind, UnaryOp};

/// A variable, if there is one and it is a parameter by reference.
fn only_reference(variable: Option<Var>) -> Option<Var>
    ensures { result ≡ only_reference variable }
{
    match variable {
        Some(v) => if is_reference(v.origin) {
            Some(v)
        } else {
            None
        },
        None => None,
    }
}

/// The reference parameter whose name the expression is.
pub fn find_reference<'a>(top: &TopLevel<'a>, scope: &Scope<'a>, expr: &Expr) -> Option<Var>
    ensures { result ≡ passed_on (program_view top.now) scope.now (expr_view expr.now) }
{
    match expr {
        Expr::Variable { name } => only_reference(top.variable(scope, name)),
        _ => None,
    }
}

/// Whether a prefix operator takes an operand of this type.
fn unary_fits(op: UnaryOp, operand: Option<Scalar>) -> bool
    ensures { result ≡ unary_fits op operand }
{
    match op {
        UnaryOp::Neg => is_int(operand),
        UnaryOp::Not => is_bool(operand),
    }
}

/// Whether an operator takes operands of these types.
fn binary_fits(op: BinaryOp, left: Option<Scalar>, right: Option<Scalar>) -> bool
    ensures { result ≡ binary_fits op left right }
{
    match op {
        BinaryOp::Or | BinaryOp::And => is_bool(left) && is_bool(right),
        BinaryOp::Eq | BinaryOp::Ne => is_same(left, right),
        _ => is_int(left) && is_int(right),
    }
}

/// Whether the operands in an expression are of the types that their operators take, an index is a
/// number into an array, and `*` stands on a reference to a scalar.
#[cycle(fits)]
fn expr_fits<'a>(top: &TopLevel<'a>, scope: &Scope<'a>, expr: &Expr) -> bool
    ensures { result ≡ expr_fits (program_view top.now) scope.now (expr_view expr.now) }
{
    match expr {
        Expr::Number { .. } | Expr::Truth { .. } | Expr::Sense { .. } => true,
        Expr::Variable { name } => value_type(top.variable(scope, name)).is_some(),
        Expr::Index { array, index } => has_elements(top.variable(scope, array))
            && expr_fits(top, scope, index)
            && is_int(type_of(top, scope, index)),
        Expr::Deref { name } => pointed_type(top.variable(scope, name)).is_some(),
        Expr::Unary { op, inner } => expr_fits(top, scope, inner)
            && unary_fits(*op, type_of(top, scope, inner)),
        Expr::Binary { op, left, right } => expr_fits(top, scope, left)
            && expr_fits(top, scope, right)
            && binary_fits(*op, type_of(top, scope, left), type_of(top, scope, right)),
        Expr::Call { call } => call_fits(top, scope, call),
    }
}

/// Whether the operands in a call's arguments are of the types that their operators take.
#[cycle(fits)]
fn call_fits<'a>(top: &TopLevel<'a>, scope: &Scope<'a>, call: &Call) -> bool
    ensures { result ≡ call_fits (program_view top.now) scope.now (call_view call.now) }
{
    for arg in &call.args {
        if !arg_fits(top, scope, arg) {
            return false;
        }
    }
    true
}

/// Whether the operands in an argument are of the types that their operators take. A reference may
/// stand there alone.
#[cycle(fits)]
fn arg_fits<'a>(top: &TopLevel<'a>, scope: &Scope<'a>, arg: &Arg) -> bool
    ensures { result ≡ arg_fits (program_view top.now) scope.now (arg_view arg.now) }
{
    match arg {
        Arg::Value { value } => find_reference(top, scope, value).is_some()
            || expr_fits(top, scope, value),
        Arg::Shared { .. } | Arg::Mutable { .. } => true,
    }
}

/// Whether the operands on the right side of a `let` or an assignment are of the types that their
/// operators take.
fn right_fits<'a>(top: &TopLevel<'a>, scope: &Scope<'a>, right: &Right) -> bool
    ensures { result ≡ right_fits (program_view top.now) scope.now (right_view right.now) }
{
    match right {
        Right::Value { value } => expr_fits(top, scope, value),
        Right::Sense { .. } => true,
        Right::Call { call } => call_fits(top, scope, call),
    }
}

/// Whether the operands in a statement's own expressions fit, and what it indexes or writes through.
pub fn own_fits<'a>(top: &TopLevel<'a>, scope: &Scope<'a>, kind: &StmtKind) -> bool
    ensures { result ≡ own_fits (program_view top.now) scope.now (kind_view kind.now) }
{
    match kind {
        StmtKind::LetArray { .. }
        | StmtKind::For { .. }
        | StmtKind::SenseOnly { .. }
        | StmtKind::Fresh { .. }
        | StmtKind::Consistent { .. } => true,
        StmtKind::Let { right, .. } | StmtKind::Assign { right, .. } => right_fits(
            top, scope, right,
        ),
        StmtKind::AssignIndex { name, index, right } => has_elements(top.variable(scope, name))
            && expr_fits(top, scope, index)
            && is_int(type_of(top, scope, index))
            && right_fits(top, scope, right),
        StmtKind::AssignDeref { name, right } => pointed_type(top.variable(scope, name)).is_some()
            && right_fits(top, scope, right),
        StmtKind::If { condition, .. } | StmtKind::While { condition, .. } => expr_fits(
            top, scope, condition,
        ),
        StmtKind::CallOnly { call } => call_fits(top, scope, call),
        StmtKind::Emit { value, .. } | StmtKind::Return { value } => expr_fits(top, scope, value),
    }
}
