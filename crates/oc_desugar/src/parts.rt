//! What is left of expressions, and their pulls.
ghost use Rattle.std.specs.Prelude.{◌≡◌, ◌<◌, ◌^◌, ◌+◌, ◌++◌, ◌∷◌, [], map, OnOk, IfOk};
ghost use Rattle.oc_tree.specs.Tree.{binary, deref, index, right_sense, unary, variable};
ghost use Rattle.oc_tree.specs.View.{arg_view, args_view, call_view, expr_view, right_view};
ghost use Rattle.oc_tree.specs.Expansion.{left_arg, left_args, left_call, left_expr, left_right, pulled_arg, pulled_args, pulled_call, pulled_expr, pulled_right, temporary};
ghost use Rattle.oc_tree.specs.Pulls.{arg_pulls, args_pulls, call_pulls, expr_pulls, right_pulls};

use itoa::Buffer;
use oc_tree::name::Name;
use oc_tree::tree::{Arg, BinaryOp, Call, Expr, Right, UnaryOp};
use std::alloc::{AllocError, Global};

/// The name of the temporary of a pull.
#[inline(never)]
pub fn temporary(alloc: Global, pull: u32) -> Result<Name, AllocError>
    ensures { IfOk result (λ n. n ≡ temporary pull) }
{
    let mut buffer = Buffer::new();
    let mut bytes = Vec::from_slice(alloc, b".")?;
    bytes.extend_from_slice(buffer.format(pull).as_bytes())?;
    Ok(Name::new(bytes))
}

// The steps from here to `left_expr` stay out of the frames of deep expressions.

/// The pull that ends here.
#[inline(never)]
fn pull(
    alloc: Global,
    k: &mut u32,
    pulls: &mut Vec<Right>,
    right: Right,
) -> Result<Expr, AllocError>
    requires { k.old + 1 < 2 ^ 32 }
    ensures left { IfOk result (λ r. expr_view r ≡ variable (temporary k.old)) }
    ensures pulled { OnOk result (pulls.new.items ≡ pulls.old.items ++ right ∷ []) }
    ensures next { OnOk result (k.new ≡ k.old + 1) }
{
    let name = temporary(alloc, *k)?;
    pulls.push(right)?;
    *k += 1;
    Ok(Expr::Variable { name })
}

/// The pull of an input.
#[inline(never)]
fn pull_input(
    alloc: Global,
    k: &mut u32,
    pulls: &mut Vec<Right>,
    sensor: &Name,
) -> Result<Expr, AllocError>
    requires { k.old + 1 < 2 ^ 32 }
    ensures left { IfOk result (λ r. expr_view r ≡ variable (temporary k.old)) }
    ensures pulled { OnOk result
        (map right_view pulls.new.items
        ≡ map right_view pulls.old.items ++ right_sense sensor.now ∷ []) }
    ensures next { OnOk result (k.new ≡ k.old + 1) }
{
    let sensor = sensor.try_clone(alloc)?;
    pull(alloc, k, pulls, Right::Sense { sensor })
}

/// The same variable.
#[inline(never)]
fn variable(alloc: Global, name: &Name) -> Result<Expr, AllocError>
    ensures { IfOk result (λ r. expr_view r ≡ variable name.now) }
{
    let name = name.try_clone(alloc)?;
    Ok(Expr::Variable { name })
}

/// The same target of a reference.
#[inline(never)]
fn deref(alloc: Global, name: &Name) -> Result<Expr, AllocError>
    ensures { IfOk result (λ r. expr_view r ≡ deref name.now) }
{
    let name = name.try_clone(alloc)?;
    Ok(Expr::Deref { name })
}

/// An element of the same array.
#[inline(never)]
fn element(alloc: Global, array: &Name, place: Expr) -> Result<Expr, AllocError>
    ensures { IfOk result (λ r. expr_view r ≡ index array.now (expr_view place)) }
{
    let array = array.try_clone(alloc)?;
    Ok(Expr::Index {
        array,
        index: Box::new(alloc, place)?,
    })
}

/// A unary operator on what is left.
#[inline(never)]
fn unary(alloc: Global, op: UnaryOp, inner: Expr) -> Result<Expr, AllocError>
    ensures { IfOk result (λ r. expr_view r ≡ unary op (expr_view inner)) }
{
    Ok(Expr::Unary {
        op,
        inner: Box::new(alloc, inner)?,
    })
}

/// A binary operator on what is left of both sides.
#[inline(never)]
fn binary(alloc: Global, op: BinaryOp, left: Expr, right: Expr) -> Result<Expr, AllocError>
    ensures { IfOk result (λ r. expr_view r ≡ binary op (expr_view left) (expr_view right)) }
{
    Ok(Expr::Binary {
        op,
        left: Box::new(alloc, left)?,
        right: Box::new(alloc, right)?,
    })
}

/// What is left of an expression; its pulls are added, and `k`, the number of the next pull, counts
/// them.
#[cycle(left)]
pub fn left_expr(
    alloc: Global,
    k: &mut u32,
    pulls: &mut Vec<Right>,
    expr: &Expr,
) -> Result<Expr, AllocError>
    requires { k.old + expr_pulls (expr_view expr.now) < 2 ^ 32 }
    ensures left { IfOk result (λ r. expr_view r ≡ left_expr k.old (expr_view expr.now)) }
    ensures pulled { OnOk result
        (map right_view pulls.new.items
        ≡ map right_view pulls.old.items ++ pulled_expr k.old (expr_view expr.now)) }
    ensures next { OnOk result (k.new ≡ k.old + expr_pulls (expr_view expr.now)) }
{
    match expr {
        Expr::Number { value } => Ok(Expr::Number { value: *value }),
        Expr::Truth { value } => Ok(Expr::Truth { value: *value }),
        Expr::Variable { name } => variable(alloc, name),
        Expr::Index { array, index } => {
            let index = left_expr(alloc, k, pulls, index)?;
            element(alloc, array, index)
        }
        Expr::Deref { name } => deref(alloc, name),
        Expr::Unary { op, inner } => {
            let inner = left_expr(alloc, k, pulls, inner)?;
            unary(alloc, *op, inner)
        }
        Expr::Binary { op, left, right } => {
            let left = left_expr(alloc, k, pulls, left)?;
            let right = left_expr(alloc, k, pulls, right)?;
            binary(alloc, *op, left, right)
        }
        Expr::Sense { sensor } => pull_input(alloc, k, pulls, sensor),
        Expr::Call { call } => {
            let call = left_call(alloc, k, pulls, call)?;
            pull(alloc, k, pulls, Right::Call { call })
        }
    }
}

/// What is left of an argument.
#[cycle(left)]
fn left_arg(
    alloc: Global,
    k: &mut u32,
    pulls: &mut Vec<Right>,
    arg: &Arg,
) -> Result<Arg, AllocError>
    requires { k.old + arg_pulls (arg_view arg.now) < 2 ^ 32 }
    ensures left { IfOk result (λ r. arg_view r ≡ left_arg k.old (arg_view arg.now)) }
    ensures pulled { OnOk result
        (map right_view pulls.new.items
        ≡ map right_view pulls.old.items ++ pulled_arg k.old (arg_view arg.now)) }
    ensures next { OnOk result (k.new ≡ k.old + arg_pulls (arg_view arg.now)) }
{
    match arg {
        Arg::Value { value } => {
            Ok(Arg::Value {
                value: left_expr(alloc, k, pulls, value)?,
            })
        }
        Arg::Shared { name } => {
            Ok(Arg::Shared {
                name: name.try_clone(alloc)?,
            })
        }
        Arg::Mutable { name } => {
            Ok(Arg::Mutable {
                name: name.try_clone(alloc)?,
            })
        }
    }
}

/// What is left of arguments.
#[cycle(left)]
#[tactic(auto, using(crate::proofs::Joins::join_args_push, crate::proofs::Joins::join_args_end))]
fn left_args(
    alloc: Global,
    k: &mut u32,
    pulls: &mut Vec<Right>,
    args: &[Arg],
) -> Result<Vec<Arg>, AllocError>
    requires { k.old + args_pulls (args_view args.now) < 2 ^ 32 }
    ensures left { IfOk result (λ r. args_view r.items ≡ left_args k.old (args_view args.now)) }
    ensures pulled { OnOk result
        (map right_view pulls.new.items
        ≡ map right_view pulls.old.items ++ pulled_args k.old (args_view args.now)) }
    ensures next { OnOk result (k.new ≡ k.old + args_pulls (args_view args.now)) }
{
    let mut out = Vec::new(alloc);
    for arg in args {
        let left = left_arg(alloc, k, pulls, arg)?;
        out.push(left)?;
    }
    Ok(out)
}

/// What is left of a call that is no pull itself.
#[cycle(left)]
pub fn left_call(
    alloc: Global,
    k: &mut u32,
    pulls: &mut Vec<Right>,
    call: &Call,
) -> Result<Call, AllocError>
    requires { k.old + call_pulls (call_view call.now) < 2 ^ 32 }
    ensures left { IfOk result (λ r. call_view r ≡ left_call k.old (call_view call.now)) }
    ensures pulled { OnOk result
        (map right_view pulls.new.items
        ≡ map right_view pulls.old.items ++ pulled_call k.old (call_view call.now)) }
    ensures next { OnOk result (k.new ≡ k.old + call_pulls (call_view call.now)) }
{
    let function = call.function.try_clone(alloc)?;
    let args = left_args(alloc, k, pulls, call.args.as_slice())?;
    Ok(Call { function, args })
}

/// What is left of a right side: an input or a call that is the whole of it stays.
pub fn left_right(
    alloc: Global,
    k: &mut u32,
    pulls: &mut Vec<Right>,
    right: &Right,
) -> Result<Right, AllocError>
    requires { k.old + right_pulls (right_view right.now) < 2 ^ 32 }
    ensures left { IfOk result (λ x. right_view x ≡ left_right k.old (right_view right.now)) }
    ensures pulled { OnOk result
        (map right_view pulls.new.items
        ≡ map right_view pulls.old.items ++ pulled_right k.old (right_view right.now)) }
    ensures next { OnOk result (k.new ≡ k.old + right_pulls (right_view right.now)) }
{
    match right {
        Right::Value { value } => {
            Ok(Right::Value {
                value: left_expr(alloc, k, pulls, value)?,
            })
        }
        Right::Sense { sensor } => {
            Ok(Right::Sense {
                sensor: sensor.try_clone(alloc)?,
            })
        }
        Right::Call { call } => {
            Ok(Right::Call {
                call: left_call(alloc, k, pulls, call)?,
            })
        }
    }
}
