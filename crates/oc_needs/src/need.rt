//! Which variables of callers a policy needs.
ghost use Rattle.std.specs.Prelude.{◌≡◌, ◌<◌, Some, ◌+◌, ◌++◌, ◌&&◌, true, false, [], map, filter, is_some, not, IfOk, OnOk};
ghost use Rattle.std.specs.List.{list_any};
ghost use Rattle.std.proofs.Math.ListN.{get_or};
ghost use Rattle.oc_tree.specs.declared.tree.VarId.{VarId};
ghost use Rattle.oc_effects.specs.Effects.{effects_at};
ghost use Rattle.oc_effects.specs.View.{called_view, effect_view};
ghost use Rattle.oc_flow.specs.Variables.{arg_at, begins, is_among, is_given, variables};
ghost use Rattle.oc_flow.specs.Flow.{flows};
ghost use Rattle.oc_needs.specs.Need.{is_empty, needs};
ghost use Rattle.oc_needs.specs.Code.{is_any_needed, is_nv, is_param, is_changed, is_changed_row, is_given_to, is_row_changed, all_locals, is_stale, needed_in_call, needed_in_calls, needed_itself, needing, next_level, next_row, row_by, rows_of, same_row, stands_for, start_level};
ghost use Rattle.oc_needs.specs.CodeView.{level_view, local_view, rows_view, IsAsked, IsBody};

use crate::asked::Asked;
use crate::local::{Body, Local, body_at};
use crate::sites::flows;
use oc_effects::effect::{Called, Effect};
use oc_flow::numbering::{is_among, is_same};
use oc_flow::summary::Summaries;
use oc_tree::marked::Policy;
use oc_tree::tree::VarId;
use std::alloc::{AllocError, Global};

/// Whether a caller gives the variable: a parameter or a nonvolatile one.
fn is_given(v: VarId) -> bool
    ensures { result ≡ is_given v }
{
    match v {
        VarId::Nv { index: _ } => true,
        VarId::Param { index: _ } => true,
        _ => false,
    }
}

/// Whether an argument, by its place, names a variable.
fn is_passed(call: &Called, place: usize, u: VarId) -> bool
    ensures { result ≡ is_among u (arg_at (called_view call.now) place).named }
{
    match call.args.get(place) {
        Some(argument) => is_among(u, argument.named.as_slice()),
        None => false,
    }
}

/// Whether the caller's variable `u` stands for the called function's variable `x`.
fn begins(call: &Called, x: VarId, u: VarId) -> bool
    ensures { result ≡ begins (called_view call.now) x u }
{
    match x {
        VarId::Nv { index: _ } => is_same(x, u),
        VarId::Param { index } => is_passed(call, index as usize, u),
        _ => false,
    }
}

/// Whether a variable stands for one of these in the function that is called.
fn stands_for(call: &Called, row: &[VarId], y: VarId) -> bool
    ensures { result ≡ stands_for (called_view call.now) row.now y }
{
    row.iter().any(|x| begins(call, *x, y))
}

/// Whether a variable is nonvolatile.
fn is_nv(v: VarId) -> bool
    ensures { result ≡ is_nv v }
{
    match v {
        VarId::Nv { index: _ } => true,
        _ => false,
    }
}

/// Whether a variable is a parameter.
fn is_param(v: VarId) -> bool
    ensures { result ≡ is_param v }
{
    match v {
        VarId::Param { index: _ } => true,
        _ => false,
    }
}

/// Whether one of these variables is a parameter.
fn has_param(row: &[VarId]) -> bool
    ensures { result ≡ list_any is_param row.now }
{
    row.iter().any(|v| is_param(*v))
}

/// Whether a nonvolatile variable stands for one of these in the function that is called.
fn nv_stands_for(call: &Called, row: &[VarId], y: VarId) -> bool
    ensures { result ≡ is_nv y && stands_for (called_view call.now) row.now y }
{
    is_nv(y) && stands_for(call, row, y)
}

/// The nonvolatile variables that stand for one of these in the function that is called.
fn nvs_standing_for(
    alloc: Global,
    call: &Called,
    row: &[VarId],
    variables: &[VarId],
) -> Result<Vec<VarId>, AllocError>
    ensures { IfOk result (λ v. v.items
        ≡ filter (λ y. is_nv y && stands_for (called_view call.now) row.now y) variables.now) }
{
    variables
        .iter()
        .copied()
        .filter(|y| nv_stands_for(call, row, *y))
        .collect(alloc)
}

/// The variables that stand for one of these in the function that is called. Only for a parameter
/// others stand than nonvolatile ones.
fn standing_for(
    alloc: Global,
    call: &Called,
    row: &[VarId],
    variables: &[VarId],
) -> Result<Vec<VarId>, AllocError>
    ensures { IfOk result
        (λ v. v.items ≡ filter (stands_for (called_view call.now) row.now) variables.now) }
{
    if row.is_empty() {
        return Ok(Vec::new(alloc));
    }
    if !has_param(row) {
        let standing = nvs_standing_for(alloc, call, row, variables)?;
        return Ok(standing);
    }
    variables
        .iter()
        .copied()
        .filter(|y| stands_for(call, row, *y))
        .collect(alloc)
}

/// The row of a function, which is empty where there is no such function.
fn row_at<'r>(rows: &'r [Vec<VarId>], function: usize) -> &'r [VarId]
    ensures { result.now ≡ get_or (rows_view rows.now) function [] }
{
    match rows.get(function) {
        Some(row) => row.as_slice(),
        None => &[],
    }
}

/// The variables that are needed at a statement, where those of all functions are known.
pub fn needed_in_call(
    alloc: Global,
    rows: &[Vec<VarId>],
    variables: &[VarId],
    effect: &Effect,
) -> Result<Vec<VarId>, AllocError>
    ensures { IfOk result
        (λ v. v.items
        ≡ needed_in_call (rows_view rows.now) variables.now (effect_view effect.now).call) }
{
    match &effect.call {
        Some(call) => {
            let row = row_at(rows, call.function as usize);
            standing_for(alloc, call, row, variables)
        }
        None => Ok(Vec::new(alloc)),
    }
}

/// Whether a statement calls a function.
pub fn calls(effect: &Effect) -> bool
    ensures { result ≡ is_some (effect_view effect.now).call }
{
    match &effect.call {
        Some(_call) => true,
        None => false,
    }
}

/// Adds the variables that are needed at a statement.
fn add_needed_in_call(
    alloc: Global,
    needing: &mut Vec<VarId>,
    rows: &[Vec<VarId>],
    variables: &[VarId],
    effect: &Effect,
) -> Result<(), AllocError>
    ensures { OnOk result
        (needing.new.items ≡ needing.old.items
        ++ needed_in_call (rows_view rows.now) variables.now (effect_view effect.now).call) }
{
    if !calls(effect) {
        return Ok(());
    }
    let needed = needed_in_call(alloc, rows, variables, effect)?;
    needing.extend_from_slice(needed.as_slice())?;
    Ok(())
}

/// The variables that are needed at calls.
fn add_needed_in_calls(
    alloc: Global,
    needing: &mut Vec<VarId>,
    rows: &[Vec<VarId>],
    variables: &[VarId],
    effects: &[Effect],
) -> Result<(), AllocError>
    ensures { OnOk result
        (needing.new.items ≡ needing.old.items
        ++ needed_in_calls (rows_view rows.now) variables.now (map effect_view effects.now)) }
{
    for effect in effects {
        add_needed_in_call(alloc, needing, rows, variables, effect)?;
    }
    Ok(())
}

/// Whether something is needed of the function at a place.
fn is_needed(rows: &[Vec<VarId>], function: u32) -> bool
    ensures { result ≡ not (is_empty (get_or (rows_view rows.now) function [])) }
{
    !row_at(rows, function as usize).is_empty()
}

/// Whether something is needed of one of these functions.
pub fn is_any_needed(rows: &[Vec<VarId>], functions: &[u32]) -> bool
    ensures { result ≡ is_any_needed (rows_view rows.now) functions.now }
{
    functions.iter().any(|f| is_needed(rows, *f))
}

/// Adds the variables that are needed at the calls of a function. It goes over its statements only
/// where something is needed of a function that it calls.
fn add_needed_below(
    alloc: Global,
    needing: &mut Vec<VarId>,
    body: &Body,
    rows: &[Vec<VarId>],
) -> Result<(), AllocError>
    requires { IsBody body.now }
    ensures { OnOk result
        (needing.new.items ≡ needing.old.items
        ++ needed_in_calls (rows_view rows.now)
        (variables body.now.summaries.now.program body.now.function)
        (effects_at body.now.summaries.now.program body.now.function)) }
{
    if !is_any_needed(rows, body.local.callees.as_slice()) {
        return Ok(());
    }
    let variables = body.local.variables.as_slice();
    let effects = body.summaries.effects();
    let statements = effects.of_function(body.function as usize);
    add_needed_in_calls(alloc, needing, rows, variables, statements)?;
    Ok(())
}

/// The annotated variables, in the policy's own function, where anything is held.
pub fn needed_itself(alloc: Global, body: &Body, asked: &Asked) -> Result<Vec<VarId>, AllocError>
    requires { IsAsked body.now.summaries.now.program asked.now }
    ensures { IfOk result
        (λ v. v.items
        ≡ needed_itself body.now.summaries.now.program asked.now.policy body.now.function) }
{
    if body.function == asked.policy.function && !asked.held.is_empty() {
        return Vec::from_slice(alloc, asked.annotated.as_slice());
    }
    Ok(Vec::new(alloc))
}

/// The variables that need what flows into them.
fn ends_of(
    alloc: Global,
    body: &Body,
    asked: &Asked,
    rows: &[Vec<VarId>],
) -> Result<Vec<VarId>, AllocError>
    requires body { IsBody body.now }
    requires asked { IsAsked body.now.summaries.now.program asked.now }
    ensures { IfOk result
        (λ v. v.items
        ≡ needing body.now.summaries.now.program asked.now.policy (rows_view rows.now)
        body.now.function) }
{
    let mut needing = needed_itself(alloc, body, asked)?;
    add_needed_below(alloc, &mut needing, body, rows)?;
    Ok(needing)
}

/// Whether a variable of the function flows into one of these.
fn flows_to_any(body: &Body, w: VarId, needing: &[VarId]) -> bool
    ensures { result
        ≡ list_any (flows body.now.summaries.now.program body.now.function w) needing.now }
{
    needing.iter().any(|y| flows(body, w, *y))
}

/// Whether a variable that is given flows into one of these.
fn is_given_to(body: &Body, needing: &[VarId], w: VarId) -> bool
    ensures { result ≡ is_given_to body.now.summaries.now.program body.now.function needing.now w }
{
    is_given(w) && flows_to_any(body, w, needing)
}

/// The variables of a function that are needed, where those of all functions at the depth before
/// are known.
fn row(
    alloc: Global,
    body: &Body,
    asked: &Asked,
    rows: &[Vec<VarId>],
) -> Result<Vec<VarId>, AllocError>
    requires body { IsBody body.now }
    requires asked { IsAsked body.now.summaries.now.program asked.now }
    ensures { IfOk result
        (λ v. v.items
        ≡ row_by body.now.summaries.now.program asked.now.policy (rows_view rows.now)
        body.now.function) }
{
    let ends = ends_of(alloc, body, asked, rows)?;
    let needing = ends.as_slice();
    if needing.is_empty() {
        return Ok(Vec::new(alloc));
    }
    body.local
        .variables
        .iter()
        .copied()
        .filter(|w| is_given_to(body, needing, *w))
        .collect(alloc)
}

/// Whether the row of a function may have changed.
fn is_changed(changed: &[bool], function: u32) -> bool
    ensures { result ≡ get_or changed.now function true }
{
    match changed.get(function as usize) {
        Some(answer) => *answer,
        None => true,
    }
}

/// Whether the row of one of these functions may have changed.
fn any_changed(changed: &[bool], functions: &[u32]) -> bool
    ensures { result ≡ list_any (λ f. get_or changed.now f true) functions.now }
{
    functions.iter().any(|f| is_changed(changed, *f))
}

/// Whether the row of some callee may have changed.
fn callees_changed(body: &Body, changed: &[bool]) -> bool
    requires { IsBody body.now }
    ensures { result ≡ list_any (λ a. is_changed changed.now a.call)
        (effects_at body.now.summaries.now.program body.now.function) }
{
    any_changed(changed, body.local.callees.as_slice())
}

/// Whether the row of a function is to be made anew: that of the policy's own function until there
/// is one, and where that of some callee may have changed.
fn is_stale(body: &Body, policy: Policy, row: &[VarId], changed: &[bool]) -> bool
    requires { IsBody body.now }
    ensures { result
        ≡ is_stale policy body.now.function row.now
        (effects_at body.now.summaries.now.program body.now.function) changed.now }
{
    (body.function == policy.function && row.is_empty()) || callees_changed(body, changed)
}

/// Whether two rows are the same.
fn is_same_row(left: &[VarId], right: &[VarId]) -> bool
    ensures { result ≡ same_row left.now right.now }
{
    for i in 0..left.len() {
        if i >= right.len() {
            return false;
        }
        if !is_same(left[i], right[i]) {
            return false;
        }
    }
    left.len() >= right.len()
}

/// What is needed of all functions at a depth of calls, and whose rows may differ from those of the
/// depth before.
#[derive(Drop)]
struct Level {
    rows: Vec<Vec<VarId>>,
    changed: Vec<bool>,
}

/// The row of a function made anew, and whether it differs.
fn made_row(
    alloc: Global,
    body: &Body,
    asked: &Asked,
    rows: &[Vec<VarId>],
) -> Result<(Vec<VarId>, bool), AllocError>
    requires body { IsBody body.now }
    requires asked { IsAsked body.now.summaries.now.program asked.now }
    ensures row { IfOk result
        (λ r. r.0.items
        ≡ row_by body.now.summaries.now.program asked.now.policy (rows_view rows.now)
        body.now.function) }
    ensures changed { IfOk result
        (λ r. r.1
        ≡ is_changed_row body.now.summaries.now.program asked.now.policy (rows_view rows.now)
        body.now.function) }
{
    let made = row(alloc, body, asked, rows)?;
    let old = row_at(rows, body.function as usize);
    let changed = !is_same_row(made.as_slice(), old);
    Ok((made, changed))
}

/// The row of a function as it was, and that it didn't change. Err is want of memory.
fn kept_row(alloc: Global, row: &[VarId]) -> Result<(Vec<VarId>, bool), AllocError>
    ensures row { IfOk result (λ r. r.0.items ≡ row.now) }
    ensures changed { IfOk result (λ r. r.1 ≡ false) }
{
    if row.is_empty() {
        return Ok((Vec::new(alloc), false));
    }
    let kept = Vec::from_slice(alloc, row)?;
    Ok((kept, false))
}

/// The row of a function at the next depth, and whether it differs.
fn next_row(
    alloc: Global,
    body: &Body,
    asked: &Asked,
    old: &Level,
) -> Result<(Vec<VarId>, bool), AllocError>
    requires body { IsBody body.now }
    requires asked { IsAsked body.now.summaries.now.program asked.now }
    ensures row { IfOk result
        (λ r. r.0.items
        ≡ next_row body.now.summaries.now.program asked.now.policy (level_view old.now)
        body.now.function) }
    ensures changed { IfOk result
        (λ r. r.1
        ≡ is_row_changed body.now.summaries.now.program asked.now.policy (level_view old.now)
        body.now.function) }
{
    let rows = old.rows.as_slice();
    let changed = old.changed.as_slice();
    let before = row_at(rows, body.function as usize);
    let stale = is_stale(body, asked.policy, before, changed);
    if stale {
        let (row, differs) = made_row(alloc, body, asked, rows)?;
        return Ok((row, differs));
    }
    let (row, differs) = kept_row(alloc, before)?;
    Ok((row, differs))
}

/// What nothing is needed of yet, as before.
fn start(alloc: Global, count: usize) -> Result<Level, AllocError>
    ensures { IfOk result (λ l. level_view l ≡ start_level count) }
{
    let mut rows = Vec::with_capacity(alloc, count)?;
    for _function in 0..count {
        rows.push(Vec::new(alloc))?;
    }
    let changed = vec![in alloc; false; count]?;
    Ok(Level { rows, changed })
}

/// The next depth.
fn next_level(
    alloc: Global,
    summaries: &Summaries,
    locals: &[Local],
    asked: &Asked,
    old: &Level,
) -> Result<Level, AllocError>
    requires locals { map local_view locals.now ≡ all_locals summaries.now.program }
    requires asked { IsAsked summaries.now.program asked.now }
    ensures { IfOk result
        (λ l. level_view l
        ≡ next_level summaries.now.program asked.now.policy (level_view old.now)) }
{
    let mut rows = Vec::with_capacity(alloc, locals.len())?;
    let mut changed = Vec::with_capacity(alloc, locals.len())?;
    for function in 0..locals.len() {
        let body = body_at(summaries, locals, &[], function)?;
        let (row, differs) = next_row(alloc, &body, asked, old)?;
        rows.push(row)?;
        changed.push(differs)?;
    }
    Ok(Level { rows, changed })
}

/// Whether any of these is so.
fn any_of(answers: &[bool]) -> bool
    ensures { result ≡ list_any (λ b. b) answers.now }
{
    answers.iter().any(|answer| *answer)
}

/// The needed variables of all functions. Calls go no deeper than there are functions, and what
/// stays from one depth to the next stays from there on.
pub fn needed_rows(
    alloc: Global,
    summaries: &Summaries,
    locals: &[Local],
    asked: &Asked,
) -> Result<Vec<Vec<VarId>>, AllocError>
    requires locals { map local_view locals.now ≡ all_locals summaries.now.program }
    requires asked { IsAsked summaries.now.program asked.now }
    ensures { IfOk result
        (λ r. rows_view r.items
        ≡ rows_of summaries.now.program (needs summaries.now.program asked.now.policy)) }
{
    let mut level = start(alloc, locals.len())?;
    for _depth in 0..locals.len() {
        let next = next_level(alloc, summaries, locals, asked, &level)?;
        if !any_of(next.changed.as_slice()) {
            return Ok(next.rows);
        }
        level = next;
    }
    Ok(level.rows)
}
