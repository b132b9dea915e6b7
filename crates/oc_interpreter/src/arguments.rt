//! What calls pass.
ghost use Rattle.std.specs.Prelude.{◌≡◌, option_map, IfOk};
ghost use Rattle.oc_tree.specs.View.{arg_view, args_view, expr_view};
ghost use Rattle.oc_meaning.specs.Exec.{arg_first, args_of, passed_on};
ghost use Rattle.oc_meaning.specs.Exec as runs;
ghost use Rattle.oc_meaning.specs.Places.{place_view};
ghost use Rattle.oc_interpreter.specs.Runs.{before, passing_view};

use crate::completion::Passed;
use crate::eval::value_of;
use crate::store::Store;
use crate::value::Got;
use oc_meaning::place::Place;
use oc_meaning::scope::Scope;
use oc_tree::said::TrapKind;
use oc_tree::tree::{Arg, Expr};
use std::alloc::{AllocError, Global};
use std::collections::VecDeque;

/// What arguments pass, the first one first, or the kind of the trap.
#[derive(Drop)]
pub enum Passing {
    /// No argument traps.
    Passes { passed: VecDeque<Passed> },
    /// An argument traps.
    Breaks { kind: TrapKind },
}

/// The reference that an argument passes on, which is just its name.
fn find_reference(scope: &Scope, value: &Expr) -> Option<Place>
    ensures { option_map place_view result ≡ passed_on scope.now (expr_view value.now) }
{
    match value {
        Expr::Variable { name } => {
            if scope.is_reference(name) {
                Some(scope.place(name))
            } else {
                None
            }
        }
        _ => None,
    }
}

/// What one argument passes, or the kind of its trap.
fn pass_argument(
    alloc: Global,
    scope: &Scope,
    store: &Store,
    arg: &Arg,
) -> Result<Result<Passed, TrapKind>, AllocError>
    ensures { IfOk result
        (λ r. (rest : runs.Passing)
        → arg_first scope.now store.now (arg_view arg.now) rest ≡ before r rest) }
{
    match arg {
        Arg::Value { value } => match find_reference(scope, value) {
            Some(place) => Ok(Ok(Passed::Lent { place })),
            None => match value_of(alloc, scope, store, value)? {
                Got::Value { value } => Ok(Ok(Passed::Copied { value })),
                Got::Traps { kind } => Ok(Err(kind)),
            },
        },
        Arg::Shared { name } => {
            let place = scope.place(name);
            Ok(Ok(Passed::Lent { place }))
        }
        Arg::Mutable { name } => {
            let place = scope.place(name);
            Ok(Ok(Passed::Lent { place }))
        }
    }
}

/// What arguments pass: the first from the left that traps is the one that counts.
pub fn pass_arguments(
    alloc: Global,
    scope: &Scope,
    store: &Store,
    args: &[Arg],
) -> Result<Passing, AllocError>
    ensures { IfOk result (λ p. passing_view p ≡ args_of scope.now store.now (args_view args.now)) }
{
    let mut passed = VecDeque::new(alloc);
    for arg in args {
        match pass_argument(alloc, scope, store, arg)? {
            Ok(one) => passed.push_back(one)?,
            Err(kind) => return Ok(Passing::Breaks { kind }),
        }
    }
    Ok(Passing::Passes { passed })
}
