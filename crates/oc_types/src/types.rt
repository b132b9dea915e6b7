//! The types of variables, expressions and right sides.
ghost use Rattle.std.specs.Prelude.{◌≡◌};
ghost use Rattle.oc_tree.specs.View.{call_view, expr_view, program_view, right_view};
ghost use Rattle.oc_tree.specs.Types.{binary_type, call_type, has_elements, is_arithmetic, is_array, is_bool, is_by_reference, is_int, is_reference, is_same, is_same_kind, pointed_type, right_type, scalar_of, type_of, unary_type, value_type};

use crate::scope::Scope;
use crate::top::TopLevel;
use oc_tree::scope::{Origin, Var};
use oc_tree::tree::{BinaryOp, Call, Expr, Passing, Right, Scalar, UnaryOp, ValueKind};

/// Whether a parameter is passed by reference.
pub fn is_by_reference(passing: Passing) -> bool
    ensures { result ≡ is_by_reference passing }
{
    match passing {
        Passing::Value => false,
        Passing::Shared | Passing::Mutable => true,
    }
}

/// Whether a variable is a parameter by reference.
pub fn is_reference(origin: Origin) -> bool
    ensures { result ≡ is_reference origin }
{
    match origin {
        Origin::Param { passing } => is_by_reference(passing),
        _ => false,
    }
}

/// The type of a value of a kind: none of an array.
pub fn scalar_of(kind: ValueKind) -> Option<Scalar>
    ensures { result ≡ scalar_of kind }
{
    match kind {
        ValueKind::Int => Some(Scalar::Int),
        ValueKind::Bool => Some(Scalar::Bool),
        ValueKind::Array { .. } => None,
    }
}

/// Whether it is the kind of an array.
pub fn is_array(kind: ValueKind) -> bool
    ensures { result ≡ is_array kind }
{
    match kind {
        ValueKind::Array { .. } => true,
        _ => false,
    }
}

/// Whether it is the type of numbers.
pub fn is_int(scalar: Option<Scalar>) -> bool
    ensures { result ≡ is_int scalar }
{
    match scalar {
        Some(Scalar::Int) => true,
        _ => false,
    }
}

/// Whether it is the type of truth values.
pub fn is_bool(scalar: Option<Scalar>) -> bool
    ensures { result ≡ is_bool scalar }
{
    match scalar {
        Some(Scalar::Bool) => true,
        _ => false,
    }
}

/// Whether both are types, and the same one.
pub fn is_same(left: Option<Scalar>, right: Option<Scalar>) -> bool
    ensures { result ≡ is_same left right }
{
    match left {
        Some(Scalar::Int) => is_int(right),
        Some(Scalar::Bool) => is_bool(right),
        None => false,
    }
}

/// Whether both kinds are the same one.
pub fn is_same_kind(left: ValueKind, right: ValueKind) -> bool
    ensures { result ≡ is_same_kind left right }
{
    match left {
        ValueKind::Int => match right {
            ValueKind::Int => true,
            ValueKind::Bool | ValueKind::Array { .. } => false,
        },
        ValueKind::Bool => match right {
            ValueKind::Bool => true,
            ValueKind::Int | ValueKind::Array { .. } => false,
        },
        ValueKind::Array { words } => match right {
            ValueKind::Array { words: others } => words == others,
            ValueKind::Int | ValueKind::Bool => false,
        },
    }
}

/// The type of a variable's name as a value: none where it is an array or a reference.
pub fn value_type(variable: Option<Var>) -> Option<Scalar>
    ensures { result ≡ value_type variable }
{
    match variable {
        Some(v) => if is_reference(v.origin) {
            None
        } else {
            scalar_of(v.kind)
        },
        None => None,
    }
}

/// The type behind a reference to a scalar.
pub fn pointed_type(variable: Option<Var>) -> Option<Scalar>
    ensures { result ≡ pointed_type variable }
{
    match variable {
        Some(v) => if is_reference(v.origin) {
            scalar_of(v.kind)
        } else {
            None
        },
        None => None,
    }
}

/// Whether it is an array or a reference to one.
pub fn has_elements(variable: Option<Var>) -> bool
    ensures { result ≡ has_elements variable }
{
    match variable {
        Some(v) => is_array(v.kind),
        None => false,
    }
}

/// The type of a prefix operator's result.
fn unary_type(op: UnaryOp) -> Scalar
    ensures { result ≡ unary_type op }
{
    match op {
        UnaryOp::Neg => Scalar::Int,
        UnaryOp::Not => Scalar::Bool,
    }
}

/// Whether an operator is `+`, `-`, `*`, `/` or `%`, whose result is a number.
fn is_arithmetic(op: BinaryOp) -> bool
    ensures { result ≡ is_arithmetic op }
{
    match op {
        BinaryOp::Add | BinaryOp::Sub | BinaryOp::Mul | BinaryOp::Div | BinaryOp::Rem => true,
        _ => false,
    }
}

/// The type of an operator's result.
fn binary_type(op: BinaryOp) -> Scalar
    ensures { result ≡ binary_type op }
{
    if is_arithmetic(op) {
        Scalar::Int
    } else {
        Scalar::Bool
    }
}

/// The type of a call's result: none where the function has none.
pub fn call_type(top: &TopLevel, call: &Call) -> Option<Scalar>
    ensures { result ≡ call_type (program_view top.now) (call_view call.now) }
{
    match top.function(&call.function) {
        Some(f) => f.result,
        None => None,
    }
}

/// The type of an expression by the operator on top.
pub fn type_of<'a>(top: &TopLevel<'a>, scope: &Scope<'a>, expr: &Expr) -> Option<Scalar>
    ensures { result ≡ type_of (program_view top.now) scope.now (expr_view expr.now) }
{
    match expr {
        Expr::Number { .. } | Expr::Index { .. } | Expr::Sense { .. } => Some(Scalar::Int),
        Expr::Truth { .. } => Some(Scalar::Bool),
        Expr::Variable { name } => value_type(top.variable(scope, name)),
        Expr::Deref { name } => pointed_type(top.variable(scope, name)),
        Expr::Unary { op, .. } => Some(unary_type(*op)),
        Expr::Binary { op, .. } => Some(binary_type(*op)),
        Expr::Call { call } => call_type(top, call),
    }
}

/// The type of a right side.
pub fn right_type<'a>(top: &TopLevel<'a>, scope: &Scope<'a>, right: &Right) -> Option<Scalar>
    ensures { result ≡ right_type (program_view top.now) scope.now (right_view right.now) }
{
    match right {
        Right::Value { value } => type_of(top, scope, value),
        Right::Sense { .. } => Some(Scalar::Int),
        Right::Call { call } => call_type(top, call),
    }
}
