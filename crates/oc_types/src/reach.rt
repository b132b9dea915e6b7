//! Calls that lead back to their caller, or to a function that names what they pass.
ghost use Rattle.std.specs.Prelude.{◌≡◌, ◌<◌, ◌&&◌, length, IfOk};
ghost use Rattle.std.specs.List.{list_any};
ghost use Rattle.oc_tree.specs.View.{arg_view, args_view, call_view, kind_view, program_view};
ghost use Rattle.oc_tree.specs.Calls.{reaches_mention};
ghost use Rattle.oc_tree.specs.Rules.{arg_exposes, args_list, back_to, call_exposes, callee_is, calls_back, exposes_nv, passes_nv};
ghost use Rattle.oc_types.specs.Marks.{IsCallers};

use crate::scope::Scope;
use crate::statement::Statement;
use crate::targets::is_nv;
use crate::top::TopLevel;
use oc_reach::marks::Marks;
use oc_tree::name::Name;
use oc_tree::tree::{Arg, Call};
use std::alloc::{AllocError, Global};

/// Whether the called function has a mark: it is the caller, or calls it directly or through
/// others.
fn leads_back(top: &TopLevel, number: usize, callers: &Marks, call: &Call) -> bool
    requires { IsCallers (program_view top.now) number callers.now }
    ensures { result
        ≡ callee_is (back_to (program_view top.now) number) (program_view top.now)
        (call_view call.now) }
{
    match top.function_place(&call.function) {
        Some(place) => callers.has(place),
        None => false,
    }
}

/// Whether a called function is the caller, or calls it directly or through others.
pub fn calls_back(top: &TopLevel, number: usize, callers: &Marks, statement: &Statement) -> bool
    requires { IsCallers (program_view top.now) number callers.now }
    ensures { result ≡ calls_back (program_view top.now) number (kind_view statement.now) }
{
    for call in statement.calls() {
        if leads_back(top, number, callers, call) {
            return true;
        }
    }
    false
}

/// Whether the name is that of a nonvolatile variable, and the function at a place names it or
/// calls one that does. Err is want of memory.
fn name_exposes<'a>(
    alloc: Global,
    top: &TopLevel<'a>,
    scope: &Scope<'a>,
    place: usize,
    name: &Name,
) -> Result<bool, AllocError>
    requires { place < length (program_view top.now).functions }
    ensures { IfOk result
        (λ r. r
        ≡ (passes_nv (program_view top.now) scope.now name.now && reaches_mention
        (program_view top.now).functions name.now place)) }
{
    if !is_nv(top.variable(scope, name)) {
        return Ok(false);
    }
    match top.find_marks(name) {
        Some(noted) => Ok(noted.mentioning.has(place)),
        None => {
            let marks = top.mentioning(alloc, name)?;
            Ok(marks.has(place))
        }
    }
}

/// Whether an argument passes a nonvolatile variable by reference to the function at a place, which
/// names it or calls one that does. Err is want of memory.
fn arg_exposes<'a>(
    alloc: Global,
    top: &TopLevel<'a>,
    scope: &Scope<'a>,
    place: usize,
    arg: &Arg,
) -> Result<bool, AllocError>
    requires { place < length (program_view top.now).functions }
    ensures { IfOk result
        (λ r. r ≡ arg_exposes (program_view top.now) scope.now place (arg_view arg.now)) }
{
    match arg {
        Arg::Value { .. } => Ok(false),
        Arg::Shared { name } | Arg::Mutable { name } => name_exposes(
            alloc, top, scope, place, name,
        ),
    }
}

/// Whether one of these arguments passes a nonvolatile variable by reference to the function at a
/// place, which names it or calls one that does. Err is want of memory.
fn args_expose<'a>(
    alloc: Global,
    top: &TopLevel<'a>,
    scope: &Scope<'a>,
    place: usize,
    args: &[Arg],
) -> Result<bool, AllocError>
    requires { place < length (program_view top.now).functions }
    ensures { IfOk result
        (λ r. r
        ≡ list_any (arg_exposes (program_view top.now) scope.now place)
        (args_list (args_view args.now))) }
{
    for arg in args {
        if arg_exposes(alloc, top, scope, place, arg)? {
            return Ok(true);
        }
    }
    Ok(false)
}

/// Whether a call passes a nonvolatile variable by reference to a function that names it or calls
/// one that does. Err is want of memory.
fn call_exposes<'a>(
    alloc: Global,
    top: &TopLevel<'a>,
    scope: &Scope<'a>,
    call: &Call,
) -> Result<bool, AllocError>
    ensures { IfOk result
        (λ r. r ≡ call_exposes (program_view top.now) scope.now (call_view call.now)) }
{
    match top.function_place(&call.function) {
        Some(place) => args_expose(alloc, top, scope, place, call.args.as_slice()),
        None => Ok(false),
    }
}

/// Whether a nonvolatile variable is passed by reference to a function that names it, or that
/// calls one that does.
pub fn exposes_nv<'a>(
    alloc: Global,
    top: &TopLevel<'a>,
    scope: &Scope<'a>,
    statement: &Statement,
) -> Result<bool, AllocError>
    ensures { IfOk result
        (λ r. r ≡ exposes_nv (program_view top.now) scope.now (kind_view statement.now)) }
{
    for call in statement.calls() {
        if call_exposes(alloc, top, scope, call)? {
            return Ok(true);
        }
    }
    Ok(false)
}
