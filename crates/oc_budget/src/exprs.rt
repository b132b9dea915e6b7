//! The costs of expressions and of arguments.
ghost use Rattle.oc_budget.specs.Fitting.{IsFitted};
ghost use Rattle.oc_tree.specs.View.{arg_view, args_view, expr_view};
ghost use Rattle.oc_tree.specs.Weight.{arg_cost, args_cost, binary_cost, expr_cost};

use crate::sums::{greater, plus};
use oc_tree::tree::{Arg, BinaryOp, Expr};

/// How many instructions an operator takes at most, with its sides, which take `a` and `b`; none
/// where the number doesn't fit 64 bits.
fn binary_cost(op: BinaryOp, a: u64, b: u64) -> Option<u64>
    ensures { IsFitted result (binary_cost op a b) }
{
    match op {
        BinaryOp::And => plus(plus(a, b)?, 2),
        BinaryOp::Or => plus(plus(a, 1)?, greater(2, b)),
        BinaryOp::Eq
        | BinaryOp::Ne
        | BinaryOp::Lt
        | BinaryOp::Le
        | BinaryOp::Gt
        | BinaryOp::Ge
        | BinaryOp::Add
        | BinaryOp::Sub
        | BinaryOp::Mul
        | BinaryOp::Div
        | BinaryOp::Rem => plus(plus(a, b)?, 1),
    }
}

/// How many instructions an expression of an expansion takes at most; none where the number doesn't fit
/// 64 bits.
pub fn expr_cost(expr: &Expr) -> Option<u64>
    ensures { IsFitted result (expr_cost (expr_view expr.now)) }
{
    match expr {
        Expr::Number { .. } | Expr::Truth { .. } | Expr::Variable { .. } => Some(1),
        Expr::Index { index, .. } => plus(expr_cost(index)?, 3),
        Expr::Deref { .. } => Some(2),
        Expr::Unary { inner, .. } => plus(expr_cost(inner)?, 1),
        Expr::Binary { op, left, right } => binary_cost(*op, expr_cost(left)?, expr_cost(right)?),
        Expr::Sense { .. } | Expr::Call { .. } => Some(0),
    }
}

/// How many instructions an argument takes at most; none where the number doesn't fit 64 bits.
fn arg_cost(arg: &Arg) -> Option<u64>
    ensures { IsFitted result (arg_cost (arg_view arg.now)) }
{
    match arg {
        Arg::Value { value } => expr_cost(value),
        Arg::Shared { .. } | Arg::Mutable { .. } => Some(1),
    }
}

/// How many instructions the arguments of a call take at most; none where the number doesn't fit
/// 64 bits.
pub fn args_cost(args: &[Arg]) -> Option<u64>
    ensures { IsFitted result (args_cost (args_view args.now)) }
{
    let mut cost = 0;
    for arg in args {
        cost = plus(cost, arg_cost(arg)?)?;
    }
    Some(cost)
}
