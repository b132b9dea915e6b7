//! Whether calls meet the functions that they name.
ghost use Rattle.std.specs.Prelude.{◌≡◌, ◌==◌, ◌++◌, [], ◌∷◌, ℕ, Bool, List, is_some, length, IfOk};
ghost use Rattle.std.specs.List.{flat_map, list_all};
ghost use Rattle.oc_tree.specs.Tree.{TCall};
ghost use Rattle.oc_tree.specs.View.{arg_view, args_view, call_view, expr_view, kind_view, program_view};
ghost use Rattle.oc_tree.specs.Types.{call_type};
ghost use Rattle.oc_reach.specs.Views.{calls_seen};
ghost use Rattle.oc_types.specs.Lent.{passes};
ghost use Rattle.oc_tree.specs.Names.{names_seen};
ghost use Rattle.oc_tree.specs.Named.{part_names};
ghost use Rattle.oc_tree.specs.Parts.{call_parts};
ghost use Rattle.oc_tree.specs.Rules.{all_lent, arg_lends, arg_meets, args_differ, args_meet, call_args, call_meets, calls_main, has_kind, lends_alone, lends_fixed, lent_is, lent_twice, mutable_meets, result_missing, shared_meets, used_calls, value_meets};

use crate::operands::find_reference;
use crate::scope::Scope;
use crate::statement::Statement;
use crate::targets::{arg_lends, is_mutable_reference};
use crate::times::Times;
use crate::top::TopLevel;
use crate::types::{call_type, is_same, is_same_kind, scalar_of, type_of};
use oc_tree::name::Name;
use oc_tree::named::arg_names;
use oc_tree::scope::Var;
use oc_tree::tree::{Arg, Call, Expr, Param, Passing, StmtKind, ValueKind};
use std::alloc::{AllocError, Global};

/// Whether a statement calls `main`.
pub fn calls_main(statement: &Statement) -> bool
    ensures { result ≡ calls_main (kind_view statement.now) }
{
    for call in statement.calls() {
        if call.function.is_main() {
            return true;
        }
    }
    false
}

/// Whether a variable is of this kind, by reference or not; not so where there is none.
fn has_kind(kind: ValueKind, variable: Option<Var>) -> bool
    ensures { result ≡ has_kind kind variable }
{
    match variable {
        Some(v) => is_same_kind(v.kind, kind),
        None => false,
    }
}

/// Whether an argument that is an expression is of its parameter's form and type.
fn value_meets<'a>(
    top: &TopLevel<'a>,
    scope: &Scope<'a>,
    passing: Passing,
    kind: ValueKind,
    expr: &Expr,
) -> bool
    ensures { result
        ≡ value_meets (program_view top.now) scope.now passing kind (expr_view expr.now) }
{
    match passing {
        Passing::Value => is_same(scalar_of(kind), type_of(top, scope, expr)),
        Passing::Shared => has_kind(kind, find_reference(top, scope, expr)),
        Passing::Mutable => {
            let reference = find_reference(top, scope, expr);
            is_mutable_reference(reference) && has_kind(kind, reference)
        }
    }
}

/// Whether `&x`, where `x` is this variable, goes to a parameter passed so and of this kind.
fn shared_meets(passing: Passing, kind: ValueKind, variable: Option<Var>) -> bool
    ensures { result ≡ shared_meets passing kind variable }
{
    match passing {
        Passing::Shared => has_kind(kind, variable),
        _ => false,
    }
}

/// Whether `&mut x`, where `x` is this variable, goes to a parameter passed so and of this kind.
fn mutable_meets(passing: Passing, kind: ValueKind, variable: Option<Var>) -> bool
    ensures { result ≡ mutable_meets passing kind variable }
{
    match passing {
        Passing::Mutable => has_kind(kind, variable),
        _ => false,
    }
}

/// Whether an argument is of its parameter's form and type.
fn arg_meets<'a>(top: &TopLevel<'a>, scope: &Scope<'a>, param: &Param, arg: &Arg) -> bool
    ensures { result ≡ arg_meets (program_view top.now) scope.now param.now (arg_view arg.now) }
{
    match arg {
        Arg::Value { value } => value_meets(top, scope, param.passing, param.kind, value),
        Arg::Shared { name } => shared_meets(param.passing, param.kind, top.variable(scope, name)),
        Arg::Mutable { name } => mutable_meets(
            param.passing,
            param.kind,
            top.variable(scope, name),
        ),
    }
}

/// Whether a call has as many arguments as there are parameters.
#[tactic(auto, using(crate::proofs::Args::args_counted))]
fn has_as_many(params: &[Param], call: &Call) -> bool
    ensures { result ≡ (length params.now == length (call_args (call_view call.now))) }
{
    params.len() == call.args.len()
}

/// Whether each argument is of its parameter's form and type, as far as there are both.
fn args_meet<'a>(top: &TopLevel<'a>, scope: &Scope<'a>, params: &[Param], args: &[Arg]) -> bool
    ensures { result ≡ args_meet (program_view top.now) scope.now params.now (args_view args.now) }
{
    for (i, arg) in args.iter().enumerate() {
        match params.get(i) {
            Some(param) => if !arg_meets(top, scope, param, arg) {
                return false;
            },
            None => return true,
        }
    }
    true
}

/// Whether a call has as many arguments as there are parameters, each of its form and type.
fn call_meets<'a>(top: &TopLevel<'a>, scope: &Scope<'a>, call: &Call) -> bool
    ensures { result ≡ call_meets (program_view top.now) scope.now (call_view call.now) }
{
    let params = top.params(call);
    has_as_many(params, call) && args_meet(top, scope, params, call.args.as_slice())
}

/// Whether arguments of a statement's calls differ from the parameters.
pub fn args_differ<'a>(top: &TopLevel<'a>, scope: &Scope<'a>, statement: &Statement) -> bool
    ensures { result ≡ args_differ (program_view top.now) scope.now (kind_view statement.now) }
{
    for call in statement.calls() {
        if !call_meets(top, scope, call) {
            return true;
        }
    }
    false
}

/// Whether each of these calls has a result.
fn have_results(top: &TopLevel, calls: &[&Call]) -> bool
    ensures { result ≡ list_all (λ c. is_some (call_type (program_view top.now) c))
        (calls_seen calls.now) }
{
    for call in calls {
        if call_type(top, call).is_none() {
            return false;
        }
    }
    true
}

/// All calls but the last.
#[tactic(auto, using(crate::proofs::Args::all_but_last))]
fn without_last<'a, 'b>(calls: &'b [&'a Call]) -> &'b [&'a Call]
    ensures { (front : List TCall) (last : TCall) → calls_seen calls.now ≡ front ++ last ∷ []
        → calls_seen result.now ≡ front }
{
    &calls[..calls.len().saturating_sub(1)]
}

/// The calls whose results are used: all but the call that is the statement.
fn used_calls<'a, 'b>(statement: &'b Statement<'a>) -> &'b [&'a Call]
    ensures { calls_seen result.now ≡ used_calls (kind_view statement.now) }
{
    let calls = statement.calls();
    match statement.kind() {
        StmtKind::CallOnly { .. } => without_last(calls),
        _ => calls,
    }
}

/// Whether a call whose result is used has none.
pub fn result_missing(top: &TopLevel, statement: &Statement) -> bool
    ensures { result ≡ result_missing (program_view top.now) (kind_view statement.now) }
{
    !have_results(top, used_calls(statement))
}

/// Whether a call takes `&mut` only of what may be written, and `&` only of what is no reference.
fn lends_rightly<'a>(top: &TopLevel<'a>, scope: &Scope<'a>, call: &Call) -> bool
    ensures { result
        ≡ list_all (arg_lends (program_view top.now) scope.now) (call_args (call_view call.now)) }
{
    for arg in &call.args {
        if !arg_lends(top, scope, arg) {
            return false;
        }
    }
    true
}

/// Whether a call takes `&mut` of what may not be written, or `&` of a reference.
pub fn lends_fixed<'a>(top: &TopLevel<'a>, scope: &Scope<'a>, statement: &Statement) -> bool
    ensures { result ≡ lends_fixed (program_view top.now) scope.now (kind_view statement.now) }
{
    for call in statement.calls() {
        if !lends_rightly(top, scope, call) {
            return true;
        }
    }
    false
}

/// The name that an argument passes by `&mut`.
pub fn lent_name<'b>(param: &Param, arg: &'b Arg) -> Option<&'b Name>
    ensures { (test : List ℕ → Bool)
        → lent_is test param.now (arg_view arg.now) ≡ passes test result }
{
    match arg {
        Arg::Value { value } => match param.passing {
            Passing::Mutable => match value {
                Expr::Variable { name } => Some(name),
                _ => None,
            },
            _ => None,
        },
        Arg::Shared { .. } => None,
        Arg::Mutable { name } => Some(name),
    }
}

/// The names that these arguments pass by `&mut`. Err is want of memory.
pub fn lent_names<'b>(
    alloc: Global,
    params: &[Param],
    args: &'b [Arg],
) -> Result<Vec<&'b Name>, AllocError>
    ensures { IfOk result (λ n. (test : List ℕ → Bool)
        → all_lent test params.now (args_view args.now) ≡ list_all test (names_seen n.items)) }
{
    let mut names = Vec::new(alloc);
    for (i, arg) in args.iter().enumerate() {
        match params.get(i) {
            Some(param) => if let Some(name) = lent_name(param, arg) {
                names.push(name)?;
            },
            None => return Ok(names),
        }
    }
    Ok(names)
}

/// The variables that the arguments of a call name. Err is want of memory.
fn call_names<'b>(alloc: Global, call: &'b Call) -> Result<Vec<&'b Name>, AllocError>
    ensures { IfOk result (λ n.
        names_seen n.items ≡ flat_map part_names (call_parts (call_view call.now))) }
{
    let mut names = Vec::new(alloc);
    for arg in &call.args {
        arg_names(arg, &mut names)?;
    }
    Ok(names)
}

/// Whether what a call passes by `&mut` stands in its arguments just there. Err is want of memory.
fn lends_alone(alloc: Global, top: &TopLevel, call: &Call) -> Result<bool, AllocError>
    ensures { IfOk result (λ r. r ≡ lends_alone (program_view top.now) (call_view call.now)) }
{
    let lent = lent_names(alloc, top.params(call), call.args.as_slice())?;
    if lent.is_empty() {
        return Ok(true);
    }
    let names = call_names(alloc, call)?;
    let times = Times::new(alloc, names)?;
    Ok(times.are_single(lent.as_slice()))
}

/// Whether a call passes something by `&mut` and names it in another argument. Err is want of
/// memory.
pub fn lent_twice(alloc: Global, top: &TopLevel, statement: &Statement) -> Result<bool, AllocError>
    ensures { IfOk result
        (λ r. r ≡ lent_twice (program_view top.now) (kind_view statement.now)) }
{
    for call in statement.calls() {
        if !lends_alone(alloc, top, call)? {
            return Ok(true);
        }
    }
    Ok(false)
}
