//! What an expression evaluates to.
ghost use Rattle.std.specs.Prelude.{◌≡◌, IfOk};
ghost use Rattle.oc_tree.specs.View.{expr_view};
ghost use Rattle.oc_meaning.specs.Eval.{operated, unary_value, value_of};
ghost use Rattle.oc_meaning.specs.Operands.{decided, decides, joined};
ghost use Rattle.oc_interpreter.specs.Seen.{got_view};

use crate::store::Store;
use crate::value::{Got, Value};
use oc_meaning::operators::{apply, apply_unary};
use oc_meaning::scope::Scope;
use oc_tree::said::TrapKind;
use oc_tree::tree::{BinaryOp, Expr, UnaryOp};
use std::alloc::{AllocError, Global};

/// A unary operator on a value.
fn apply_unary_operator(op: UnaryOp, inner: Got) -> Got
    ensures { got_view result ≡ unary_value op (got_view inner) }
{
    match inner {
        Got::Value { value } => Got::Value {
            value: Value::new(apply_unary(op, value.number()), value.into_samples()),
        },
        Got::Traps { kind } => Got::Traps { kind },
    }
}

/// An operator on two values.
fn apply_operator(op: BinaryOp, left: &Value, right: Value) -> Result<Got, AllocError>
    ensures { IfOk result (λ g. got_view g ≡ operated op left.now right) }
{
    match apply(op, left.number(), right.number()) {
        Some(number) => {
            let samples = left.samples().union(right.into_samples())?;
            Ok(Got::Value {
                value: Value::new(number, samples),
            })
        }
        None => Ok(Got::Traps {
            kind: TrapKind::Zero,
        }),
    }
}

/// Whether this left side decides.
fn decides(op: BinaryOp, left: i32) -> bool
    ensures { result ≡ decides op left }
{
    match op {
        BinaryOp::And => left == 0,
        BinaryOp::Or => left != 0,
        _ => false,
    }
}

/// The value of an operator whose left side decides.
fn short_circuit(left: Value) -> Value
    ensures { result ≡ decided left }
{
    Value::new((left.number() != 0) as i32, left.into_samples())
}

/// The value of an operator whose left side doesn't decide.
fn combine_operands(op: BinaryOp, left: &Value, right: Got) -> Result<Got, AllocError>
    ensures { IfOk result (λ g. got_view g ≡ joined op left.now (got_view right)) }
{
    match right {
        Got::Value { value } => match op {
            BinaryOp::And | BinaryOp::Or => Ok(Got::Value {
                value: value.depend_on(left.samples())?,
            }),
            _ => apply_operator(op, left, value),
        },
        Got::Traps { kind } => Ok(Got::Traps { kind }),
    }
}

/// The value of an expression.
pub fn value_of(alloc: Global, scope: &Scope, store: &Store, expr: &Expr) -> Result<Got, AllocError>
    ensures { IfOk result (λ g. got_view g ≡ value_of scope.now store.now (expr_view expr.now)) }
{
    match expr {
        Expr::Number { value } => Ok(Got::Value {
            value: Value::plain(alloc, *value),
        }),
        Expr::Truth { value } => Ok(Got::Value {
            value: Value::plain(alloc, *value as i32),
        }),
        Expr::Variable { name } | Expr::Deref { name } => Ok(Got::Value {
            value: store.value(scope.place(name))?,
        }),
        Expr::Index { array, index } => match value_of(alloc, scope, store, index)? {
            Got::Value { value } => store.element(scope.place(array), value),
            Got::Traps { kind } => Ok(Got::Traps { kind }),
        },
        Expr::Unary { op, inner } => Ok(apply_unary_operator(
            *op,
            value_of(alloc, scope, store, inner)?,
        )),
        Expr::Binary { op, left, right } => match value_of(alloc, scope, store, left)? {
            Got::Value { value } => {
                if decides(*op, value.number()) {
                    return Ok(Got::Value {
                        value: short_circuit(value),
                    });
                }
                let right = value_of(alloc, scope, store, right)?;
                combine_operands(*op, &value, right)
            }
            Got::Traps { kind } => Ok(Got::Traps { kind }),
        },
        Expr::Sense { .. } | Expr::Call { .. } => Ok(Got::Value {
            value: Value::plain(alloc, 0),
        }),
    }
}
