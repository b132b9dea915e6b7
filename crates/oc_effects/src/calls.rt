//! Calls, with what is passed.
ghost use Rattle.std.specs.Prelude.{◌≡◌, ◌<◌, map, option_and_then, option_map, IfOk};
ghost use Rattle.oc_names.specs.Seen.{name_seen};
ghost use Rattle.oc_tree.specs.View.{arg_view, args_view, call_view, kind_view};
ghost use Rattle.oc_effects.specs.Effects.{all_passed, call_of, called_by, lent_name, passed};
ghost use Rattle.oc_effects.specs.View.{called_view, passed_view};
ghost use Rattle.oc_effects.specs.Walk.{call_seen, placed_view};

use crate::effect::{Called, Passed};
use crate::here::{Here, variable, variables};
use crate::parts::right_of;
use oc_tree::name::Name;
use oc_tree::named::arg_names;
use oc_tree::tree::{Arg, Call, Expr, Param, Right, StmtKind, VarId};
use std::alloc::{AllocError, Global};

/// The name that is lent where the parameter takes `&mut`.
fn lent_name(arg: &Arg) -> Option<&Name>
    ensures { name_seen result ≡ lent_name (arg_view arg.now) }
{
    match arg {
        Arg::Value { value } => match value {
            Expr::Variable { name } => Some(name),
            _ => None,
        },
        Arg::Shared { .. } => None,
        Arg::Mutable { name } => Some(name),
    }
}

/// The variable that an argument lends to a parameter.
fn lent_variable(here: &Here, param: &Param, arg: &Arg) -> Option<VarId>
    ensures { result
        ≡ (passed here.now.known.now (placed_view here.now) param.now (arg_view arg.now)).lent }
{
    if !param.passing.is_mutable() {
        return None;
    }
    let name = lent_name(arg)?;
    variable(here, name)
}

/// What an argument names, and what it lends to its parameter.
fn resolve_arg(alloc: Global, here: &Here, param: &Param, arg: &Arg) -> Result<Passed, AllocError>
    ensures { IfOk result
        (λ a. passed_view a
        ≡ passed here.now.known.now (placed_view here.now) param.now (arg_view arg.now)) }
{
    let mut names = Vec::new(alloc);
    arg_names(arg, &mut names)?;
    let named = variables(alloc, here, names.as_slice())?;
    Ok(Passed {
        named,
        lent: lent_variable(here, param, arg),
    })
}

/// The arguments that have a parameter, each resolved.
fn resolve_args(
    alloc: Global,
    here: &Here,
    params: &[Param],
    args: &[Arg],
) -> Result<Vec<Passed>, AllocError>
    ensures { IfOk result
        (λ a. map passed_view a.items
        ≡ all_passed here.now.known.now (placed_view here.now) params.now (args_view args.now)) }
{
    let mut all = Vec::new(alloc);
    for (i, arg) in args.iter().enumerate() {
        if i < params.len() {
            let one = resolve_arg(alloc, here, &params[i], arg)?;
            all.push(one)?;
        }
    }
    Ok(all)
}

/// A call, where its function exists.
fn resolve_call(alloc: Global, here: &Here, call: &Call) -> Result<Option<Called>, AllocError>
    ensures { IfOk result
        (λ c. option_map called_view c
        ≡ called_by here.now.known.now (placed_view here.now) (call_view call.now)) }
{
    match here.known.function(&call.function) {
        Some(function) => {
            let params = here.known.params(function);
            let args = resolve_args(alloc, here, params, call.args.as_slice())?;
            Ok(Some(Called { function, args }))
        }
        None => Ok(None),
    }
}

/// The call that is the whole right side or the whole statement.
fn call_of(kind: &StmtKind) -> Option<&Call>
    ensures { call_seen result ≡ call_of (kind_view kind.now) }
{
    if let StmtKind::CallOnly { call } = kind {
        return Some(call);
    }
    match right_of(kind) {
        Some(Right::Call { call }) => Some(call),
        _ => None,
    }
}

/// The call of a statement.
pub fn resolve_own_call(alloc: Global, here: &Here) -> Result<Option<Called>, AllocError>
    ensures { IfOk result
        (λ c. option_map called_view c
        ≡ option_and_then (called_by here.now.known.now (placed_view here.now))
        (call_of (kind_view here.now.kind.now))) }
{
    match call_of(here.kind) {
        Some(call) => resolve_call(alloc, here, call),
        None => Ok(None),
    }
}
