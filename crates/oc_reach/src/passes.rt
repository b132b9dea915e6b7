//! Which parameters are passed on to which, and which are written through.
ghost use Rattle.std.specs.Prelude.{◌≡◌, ◌<◌, ◌^◌, ◌+◌, ◌++◌, Option, map, length, option_to_list, OnOk, IfOk};
ghost use Rattle.std.specs.List.{flat_map};
ghost use Rattle.oc_tree.specs.View.{arg_view, args_view, call_view, expr_view, function_view, kind_view};
ghost use Rattle.oc_tree.specs.declared.tree.Function.{Function};
ghost use Rattle.oc_tree.specs.Assigned.{alone, arg_links, args_links, function_links, link_of, function_writes, own_param, pass_call, pass_links, writes_from, written_through};
ghost use Rattle.oc_names.specs.Seen.{name_seen};
ghost use Rattle.oc_reach.specs.Views.{calls_seen, kinds_seen};

use crate::calls::Calls;
use crate::params::{Params, own_param};
use crate::parts::{body_calls, function_kinds};
use oc_names::table::{Table, param_table};
use oc_tree::name::Name;
use oc_tree::tree::{Arg, Call, Expr, Function, StmtKind};
use std::alloc::{AllocError, Global};

/// The name of a variable that is a whole expression; none for any other expression.
fn only_name(expr: &Expr) -> Option<&Name>
    ensures { name_seen result ≡ alone (expr_view expr.now) }
{
    match expr {
        Expr::Variable { name } => Some(name),
        _ => None,
    }
}

/// Adds a link where both of its ends are there. Err is want of memory.
fn add_link(
    from: Option<usize>,
    to: Option<usize>,
    links: &mut Vec<(usize, usize)>,
) -> Result<(), AllocError>
    ensures { OnOk result (links.new.items ≡ links.old.items ++ link_of from to) }
{
    match from {
        None => Ok(()),
        Some(from) => {
            match to {
                None => Ok(()),
                Some(to) => {
                    links.push((from, to))?;
                    Ok(())
                }
            }
        }
    }
}

/// Adds the link of a parameter that is itself the argument at a place, and so passed on to a
/// `&mut` parameter of the called function. Err is want of memory.
fn add_arg(
    params: &Params,
    first: usize,
    names: &Table,
    callee: usize,
    place: usize,
    arg: &Arg,
    links: &mut Vec<(usize, usize)>,
) -> Result<(), AllocError>
    requires callee { callee < length params.now }
    requires small { first + length names.now < 2 ^ 63 }
    ensures { OnOk result
        (links.new.items ≡ links.old.items
        ++ arg_links (map function_view params.now) first names.now callee place
        (arg_view arg.now)) }
{
    match arg {
        Arg::Value { value } => {
            let from = own_param(first, names, only_name(value));
            add_link(from, params.mutable(callee, place), links)
        }
        Arg::Shared { .. } | Arg::Mutable { .. } => Ok(()),
    }
}

/// Adds the links of the parameters that these arguments pass on to the called function. Err is
/// want of memory.
fn add_args(
    params: &Params,
    first: usize,
    names: &Table,
    callee: usize,
    args: &[Arg],
    links: &mut Vec<(usize, usize)>,
) -> Result<(), AllocError>
    requires callee { callee < length params.now }
    requires small { first + length names.now < 2 ^ 63 }
    ensures { OnOk result
        (links.new.items ≡ links.old.items
        ++ args_links (map function_view params.now) first names.now callee 0
        (args_view args.now)) }
{
    for (place, arg) in args.iter().enumerate() {
        add_arg(params, first, names, callee, place, arg, links)?;
    }
    Ok(())
}

/// Adds the links of the parameters that a call passes on; none where there is no such function.
/// Err is want of memory.
fn add_call(
    calls: &Calls,
    params: &Params,
    first: usize,
    names: &Table,
    call: &Call,
    links: &mut Vec<(usize, usize)>,
) -> Result<(), AllocError>
    requires same { calls.now ≡ params.now }
    requires small { first + length names.now < 2 ^ 63 }
    ensures { OnOk result
        (links.new.items ≡ links.old.items
        ++ pass_call (map function_view params.now) first names.now (call_view call.now)) }
{
    match calls.place(&call.function) {
        Some(callee) => add_args(params, first, names, callee, call.args.as_slice(), links),
        None => Ok(()),
    }
}

/// Adds the links of the parameters that these calls pass on. Err is want of memory.
fn add_calls(
    calls: &Calls,
    params: &Params,
    first: usize,
    names: &Table,
    body: &[&Call],
    links: &mut Vec<(usize, usize)>,
) -> Result<(), AllocError>
    requires same { calls.now ≡ params.now }
    requires small { first + length names.now < 2 ^ 63 }
    ensures { OnOk result
        (links.new.items ≡ links.old.items
        ++ flat_map (pass_call (map function_view params.now) first names.now)
        (calls_seen body.now)) }
{
    for call in body {
        add_call(calls, params, first, names, *call, links)?;
    }
    Ok(())
}

/// Adds the links of the parameters that a function passes on, of which the first has the number
/// `first`. Err is want of memory.
fn add_function(
    alloc: Global,
    calls: &Calls,
    params: &Params,
    first: usize,
    function: &Function,
    links: &mut Vec<(usize, usize)>,
) -> Result<(), AllocError>
    requires same { calls.now ≡ params.now }
    requires small { first + length (function_view function.now).params < 2 ^ 63 }
    ensures { OnOk result
        (links.new.items ≡ links.old.items
        ++ function_links (map function_view params.now) first (function_view function.now)) }
{
    let body = body_calls(alloc, function)?;
    let names = param_table(alloc, function.params.as_slice())?;
    add_calls(calls, params, first, &names, body.as_slice(), links)
}

/// Which parameters are passed on to which.
pub fn pass_links(
    alloc: Global,
    calls: &Calls,
    params: &Params,
    functions: &[Function],
) -> Result<Vec<(usize, usize)>, AllocError>
    requires same { calls.now ≡ params.now }
    requires functions { functions.now ≡ params.now }
    ensures { IfOk result (λ l. l.items ≡ pass_links (map function_view functions.now)) }
{
    let mut links = Vec::new(alloc);
    for (i, function) in functions.iter().enumerate() {
        let first = params.first(i);
        add_function(alloc, calls, params, first, function, &mut links)?;
    }
    Ok(links)
}

/// The name of the array or reference that a statement writes through.
fn written_through(kind: &StmtKind) -> Option<&Name>
    ensures { name_seen result ≡ written_through (kind_view kind.now) }
{
    match kind {
        StmtKind::AssignIndex { name, .. } | StmtKind::AssignDeref { name, .. } => Some(name),
        _ => None,
    }
}

/// Adds the numbers of the parameters that these statements write through, where the first of their
/// function has the number `first`. Err is want of memory.
fn add_written(
    first: usize,
    names: &Table,
    kinds: &[&StmtKind],
    writes: &mut Vec<usize>,
) -> Result<(), AllocError>
    requires small { first + length names.now < 2 ^ 63 }
    ensures { OnOk result
        (writes.new.items ≡ writes.old.items
        ++ flat_map (λ k. option_to_list (own_param first names.now (written_through k)))
        (kinds_seen kinds.now)) }
{
    for kind in kinds {
        if let Some(number) = own_param(first, names, written_through(*kind)) {
            writes.push(number)?;
        }
    }
    Ok(())
}

/// Adds the numbers of the parameters that a function writes through itself. Err is want of memory.
fn add_writes(
    alloc: Global,
    first: usize,
    function: &Function,
    writes: &mut Vec<usize>,
) -> Result<(), AllocError>
    requires small { first + length (function_view function.now).params < 2 ^ 63 }
    ensures { OnOk result
        (writes.new.items ≡ writes.old.items
        ++ function_writes first (function_view function.now)) }
{
    let kinds = function_kinds(alloc, function, None)?;
    let names = param_table(alloc, function.params.as_slice())?;
    add_written(first, &names, kinds.as_slice(), writes)
}

/// The parameters that functions write through themselves.
pub fn writes_of(
    alloc: Global,
    params: &Params,
    functions: &[Function],
) -> Result<Vec<usize>, AllocError>
    requires functions { functions.now ≡ params.now }
    ensures { IfOk result
        (λ w. w.items
        ≡ writes_from (map function_view functions.now) 0 (map function_view functions.now)) }
{
    let mut writes = Vec::new(alloc);
    for (i, function) in functions.iter().enumerate() {
        let first = params.first(i);
        add_writes(alloc, first, function, &mut writes)?;
    }
    Ok(writes)
}
