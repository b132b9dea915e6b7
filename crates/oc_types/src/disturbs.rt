//! Statements with pulls: what a call changes, and what is named beside it.
ghost use Rattle.std.specs.Prelude.{◌≡◌, ◌<◌, ◌^◌, ◌==◌, ◌||◌, false, not, count_by, length, OnOk, IfOk};
ghost use Rattle.std.specs.List.{list_all, list_any};
ghost use Rattle.std.specs.Str.{bytes_eq};
ghost use Rattle.oc_tree.specs.View.{call_view, kind_view, program_view};
ghost use Rattle.oc_tree.specs.Assigned.{reaches_assign};
ghost use Rattle.oc_tree.specs.Calls.{own_calls};
ghost use Rattle.oc_tree.specs.Named.{own_names};
ghost use Rattle.oc_tree.specs.Pulls.{own_pulls};
ghost use Rattle.oc_tree.specs.Rules.{call_lends, callee_is, lends_apart, nv_disturbed, pulls_disturb};
ghost use Rattle.oc_types.specs.Marks.{IsAssigning};
ghost use Rattle.oc_types.specs.Quiet.{AreQuiet, is_changed};

use crate::calls::lent_names;
use crate::statement::Statement;
use crate::times::Times;
use crate::top::TopLevel;
use oc_reach::marks::Marks;
use oc_tree::name::Name;
use oc_tree::named::own_names;
use oc_tree::pulls::own_pulls;
use oc_tree::tree::{Call, StmtKind};
use std::alloc::{AllocError, Global};

/// Whether what a call passes by `&mut` stands once among these names. Err is want of memory.
fn lends_single(
    alloc: Global,
    top: &TopLevel,
    times: &Times,
    call: &Call,
) -> Result<bool, AllocError>
    ensures { IfOk result
        (λ r. r
        ≡ call_lends (λ x. count_by (bytes_eq x) times.now == 1) (program_view top.now)
        (call_view call.now)) }
{
    let lent = lent_names(alloc, top.params(call), call.args.as_slice())?;
    Ok(times.are_single(lent.as_slice()))
}

/// Whether what the calls pass by `&mut` stands just there in the statement, whose names these are.
/// Err is want of memory.
fn all_lend_apart(
    alloc: Global,
    top: &TopLevel,
    times: &Times,
    statement: &Statement,
) -> Result<bool, AllocError>
    requires { times.now ≡ own_names (kind_view statement.now) }
    ensures { IfOk result
        (λ r. r
        ≡ list_all (lends_apart (program_view top.now) (kind_view statement.now))
        (own_calls (kind_view statement.now))) }
{
    for call in statement.calls() {
        if !lends_single(alloc, top, times, call)? {
            return Ok(false);
        }
    }
    Ok(true)
}

/// Whether the called function has a mark: it assigns the nonvolatile variable, or calls one that
/// does.
fn callee_assigns(top: &TopLevel, name: &Name, marks: &Marks, call: &Call) -> bool
    requires { IsAssigning (program_view top.now) name.now marks.now }
    ensures { result
        ≡ callee_is (reaches_assign (program_view top.now).functions name.now)
        (program_view top.now) (call_view call.now) }
{
    match top.function_place(&call.function) {
        Some(place) => marks.has(place),
        None => false,
    }
}

/// Whether a function that the statement calls assigns the nonvolatile variable, or calls one that
/// does.
fn some_callee_assigns(top: &TopLevel, name: &Name, marks: &Marks, statement: &Statement) -> bool
    requires { IsAssigning (program_view top.now) name.now marks.now }
    ensures { result
        ≡ list_any
        (callee_is (reaches_assign (program_view top.now).functions name.now)
        (program_view top.now)) (own_calls (kind_view statement.now)) }
{
    for call in statement.calls() {
        if callee_assigns(top, name, marks, call) {
            return true;
        }
    }
    false
}

/// Whether a function that the statement calls assigns this variable, or calls one that does. Err
/// is want of memory.
fn some_callee_changes(
    alloc: Global,
    top: &TopLevel,
    statement: &Statement,
    name: &Name,
) -> Result<bool, AllocError>
    ensures { IfOk result
        (λ r. r
        ≡ list_any
        (callee_is (reaches_assign (program_view top.now).functions name.now)
        (program_view top.now)) (own_calls (kind_view statement.now))) }
{
    if statement.calls().is_empty() {
        return Ok(false);
    }
    match top.find_marks(name) {
        Some(noted) => Ok(some_callee_assigns(top, name, &noted.assigning, statement)),
        None => {
            let marks = top.assigning(alloc, name)?;
            Ok(some_callee_assigns(top, name, &marks, statement))
        }
    }
}

/// Whether a name is that of a nonvolatile variable that hasn't been looked at, and a function that
/// the statement calls assigns it, or calls one that does. Err is want of memory.
fn is_disturbed(
    alloc: Global,
    top: &TopLevel,
    statement: &Statement,
    seen: &mut Marks,
    name: &Name,
) -> Result<bool, AllocError>
    requires bound { seen.old.1 ≡ length (program_view top.now).names.nvs }
    requires before { AreQuiet (program_view top.now) (kind_view statement.now) seen.old.0 }
    ensures bound { OnOk result (seen.new.1 ≡ seen.old.1) }
    ensures found { IfOk result
        (λ r. r ≡ is_changed (program_view top.now) (kind_view statement.now) name.now) }
    ensures quiet { IfOk result
        (λ r. r ≡ false
        → AreQuiet (program_view top.now) (kind_view statement.now) seen.new.0) }
{
    match top.nv_place(name) {
        Some(place) => {
            if seen.has(place) {
                return Ok(false);
            }
            seen.mark(place)?;
            let changed = some_callee_changes(alloc, top, statement, name)?;
            Ok(changed)
        }
        None => Ok(false),
    }
}

/// Whether some nonvolatile variable stands in a statement that calls a function which assigns it,
/// or which calls one that does. Err is want of memory.
#[tactic(auto, using(crate::proofs::Disturbed::none_quiet))]
fn some_nv_disturbed(
    alloc: Global,
    top: &TopLevel,
    times: &Times,
    statement: &Statement,
) -> Result<bool, AllocError>
    requires { times.now ≡ own_names (kind_view statement.now) }
    ensures { IfOk result
        (λ r. r
        ≡ list_any (nv_disturbed (program_view top.now) (kind_view statement.now))
        (program_view top.now).names.nvs) }
{
    let mut seen = Marks::new(alloc, top.program().names.nvs.len())?;
    for name in times.names() {
        if is_disturbed(alloc, top, statement, &mut seen, *name)? {
            return Ok(true);
        }
    }
    Ok(false)
}

/// Whether a call of a statement, whose names these are, changes what is named beside it. Err is
/// want of memory.
fn calls_disturb(
    alloc: Global,
    top: &TopLevel,
    times: &Times,
    statement: &Statement,
) -> Result<bool, AllocError>
    requires { times.now ≡ own_names (kind_view statement.now) }
    ensures { IfOk result
        (λ r. r
        ≡ not
        (list_all (lends_apart (program_view top.now) (kind_view statement.now))
        (own_calls (kind_view statement.now)))
        || list_any (nv_disturbed (program_view top.now) (kind_view statement.now))
        (program_view top.now).names.nvs) }
{
    if !all_lend_apart(alloc, top, times, statement)? {
        return Ok(true);
    }
    some_nv_disturbed(alloc, top, times, statement)
}

/// The names of a statement, counted. Err is want of memory.
fn own_times<'a>(alloc: Global, kind: &'a StmtKind) -> Result<Times<'a>, AllocError>
    ensures { IfOk result (λ t. t ≡ own_names (kind_view kind.now)) }
{
    let mut names = Vec::new(alloc);
    own_names(kind, &mut names)?;
    Times::new(alloc, names)
}

/// Whether a statement has a pull, and names what one of its calls may change.
pub fn pulls_disturb(
    alloc: Global,
    top: &TopLevel,
    statement: &Statement,
) -> Result<bool, AllocError>
    requires { own_pulls (kind_view statement.now) < 2 ^ 32 }
    ensures { IfOk result
        (λ r. r ≡ pulls_disturb (program_view top.now) (kind_view statement.now)) }
{
    if own_pulls(statement.kind()) == 0 {
        return Ok(false);
    }
    let times = own_times(alloc, statement.kind())?;
    calls_disturb(alloc, top, &times, statement)
}
