//! What an expression evaluates to.
ghost use Rattle.std.specs.Prelude.{◌≡◌};
ghost use Rattle.oc_tree.specs.View.{expr_view};
ghost use Rattle.oc_meaning.specs.Eval.{is_zero, unary_value};
ghost use Rattle.oc_meaning.specs.Operands.{decided, decides};
ghost use Rattle.oc_steps.specs.Ages.{join_ages};
ghost use Rattle.oc_steps.specs.Sets.{operated_by, value_by};
ghost use Rattle.oc_judge.specs.Values.{got_view, value_view};
ghost use Rattle.oc_judge.specs.Operands.{joined_by};

use crate::age::{Got, Value};
use crate::store::Store;
use oc_meaning::operators::{apply, apply_unary};
use oc_meaning::scope::Scope;
use oc_tree::said::TrapKind;
use oc_tree::tree::{BinaryOp, Expr, UnaryOp};

/// A unary operator on a value.
fn apply_unary_operator(op: UnaryOp, inner: Got) -> Got
    ensures { got_view result ≡ unary_value op (got_view inner) }
{
    match inner {
        Got::Value { value } => Got::Value {
            value: Value {
                number: apply_unary(op, value.number),
                age: value.age,
            },
        },
        Got::Traps { kind } => Got::Traps { kind },
    }
}

/// An operator on two values.
fn apply_operator(op: BinaryOp, left: Value, right: Value) -> Got
    ensures { got_view result ≡ operated_by join_ages op (value_view left) (value_view right) }
{
    match apply(op, left.number, right.number) {
        Some(number) => Got::Value {
            value: Value {
                number,
                age: left.age.join(right.age),
            },
        },
        None => Got::Traps {
            kind: TrapKind::Zero,
        },
    }
}

/// Whether this left side decides.
fn decides(op: BinaryOp, left: i32) -> bool
    ensures { result ≡ decides op left }
{
    match op {
        BinaryOp::And => left == 0,
        BinaryOp::Or => left != 0,
        _ => false,
    }
}

/// The value of an operator whose left side decides.
fn short_circuit(left: Value) -> Value
    ensures { value_view result ≡ decided (value_view left) }
{
    Value {
        number: (left.number != 0) as i32,
        age: left.age,
    }
}

/// The value of an operator whose left side doesn't decide.
fn combine_operands(op: BinaryOp, left: Value, right: Got) -> Got
    ensures { got_view result ≡ joined_by join_ages op (value_view left) (got_view right) }
{
    match right {
        Got::Value { value } => match op {
            BinaryOp::And | BinaryOp::Or => Got::Value {
                value: Value {
                    number: value.number,
                    age: left.age.join(value.age),
                },
            },
            _ => apply_operator(op, left, value),
        },
        Got::Traps { kind } => Got::Traps { kind },
    }
}

/// Whether a number stands for `false`.
pub fn is_zero(number: i32) -> bool
    ensures { result ≡ is_zero number }
{
    number == 0
}

/// The value of an expression.
pub fn value_of(scope: &Scope, store: &Store, expr: &Expr) -> Got
    ensures { got_view result ≡ value_by join_ages scope.now store.now (expr_view expr.now) }
{
    match expr {
        Expr::Number { value } => Got::Value {
            value: Value::plain(*value),
        },
        Expr::Truth { value } => Got::Value {
            value: Value::plain(*value as i32),
        },
        Expr::Variable { name } | Expr::Deref { name } => Got::Value {
            value: store.value(scope.place(name)),
        },
        Expr::Index { array, index } => match value_of(scope, store, index) {
            Got::Value { value } => store.element(scope.place(array), value),
            Got::Traps { kind } => Got::Traps { kind },
        },
        Expr::Unary { op, inner } => apply_unary_operator(*op, value_of(scope, store, inner)),
        Expr::Binary { op, left, right } => match value_of(scope, store, left) {
            Got::Value { value } => {
                if decides(*op, value.number) {
                    return Got::Value {
                        value: short_circuit(value),
                    };
                }
                combine_operands(*op, value, value_of(scope, store, right))
            }
            Got::Traps { kind } => Got::Traps { kind },
        },
        Expr::Sense { .. } | Expr::Call { .. } => Got::Value {
            value: Value::plain(0),
        },
    }
}
