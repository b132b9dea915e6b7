//! What calls pass.
ghost use Rattle.std.specs.Prelude.{◌≡◌, option_map, IfOk};
ghost use Rattle.oc_tree.specs.View.{arg_view, args_view, expr_view};
ghost use Rattle.oc_meaning.specs.Exec.{passed_on};
ghost use Rattle.oc_meaning.specs.Exec as runs;
ghost use Rattle.oc_meaning.specs.Places.{place_view};
ghost use Rattle.oc_steps.specs.Ages.{join_ages};
ghost use Rattle.oc_steps.specs.Sets.{arg_by, args_by};
ghost use Rattle.oc_judge.specs.Passing.{before, passing_view};

use crate::age::{Got, Value};
use crate::eval::value_of;
use crate::store::Store;
use oc_meaning::place::Place;
use oc_meaning::scope::Scope;
use oc_tree::said::TrapKind;
use oc_tree::tree::{Arg, Expr};
use std::alloc::{AllocError, Global};
use std::collections::VecDeque;

/// What a call passes for a parameter: a value, or a place.
#[derive(Clone, Copy)]
pub enum Passed {
    /// The value of an expression.
    Copied { value: Value },
    /// The place of the variable that is lent.
    Lent { place: Place },
}

/// What arguments pass, the first one first, or the kind of the trap.
#[derive(Drop)]
pub enum Passing {
    /// No argument traps.
    Passes { passed: VecDeque<Passed> },
    /// An argument traps.
    Breaks { kind: TrapKind },
}

/// The reference that an argument passes on, which is just its name.
fn find_reference(scope: &Scope, value: &Expr) -> Option<Place>
    ensures { option_map place_view result ≡ passed_on scope.now (expr_view value.now) }
{
    match value {
        Expr::Variable { name } => {
            if scope.is_reference(name) {
                Some(scope.place(name))
            } else {
                None
            }
        }
        _ => None,
    }
}

/// What one argument passes, or the kind of its trap.
fn pass_argument(scope: &Scope, store: &Store, arg: &Arg) -> Result<Passed, TrapKind>
    ensures { (rest : runs.Passing)
        → arg_by join_ages scope.now store.now (arg_view arg.now) rest ≡ before result rest }
{
    match arg {
        Arg::Value { value } => match find_reference(scope, value) {
            Some(place) => Ok(Passed::Lent { place }),
            None => match value_of(scope, store, value) {
                Got::Value { value } => Ok(Passed::Copied { value }),
                Got::Traps { kind } => Err(kind),
            },
        },
        Arg::Shared { name } => {
            let place = scope.place(name);
            Ok(Passed::Lent { place })
        }
        Arg::Mutable { name } => {
            let place = scope.place(name);
            Ok(Passed::Lent { place })
        }
    }
}

/// What arguments pass: the first from the left that traps is the one that counts.
pub fn pass_arguments(
    alloc: Global,
    scope: &Scope,
    store: &Store,
    args: &[Arg],
) -> Result<Passing, AllocError>
    ensures { IfOk result
        (λ p. passing_view p ≡ args_by join_ages scope.now store.now (args_view args.now)) }
{
    let mut passed = VecDeque::new(alloc);
    for arg in args {
        match pass_argument(scope, store, arg) {
            Ok(one) => passed.push_back(one)?,
            Err(kind) => return Ok(Passing::Breaks { kind }),
        }
    }
    Ok(Passing::Passes { passed })
}
