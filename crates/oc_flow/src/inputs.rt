//! Which statements of a function bring input, and which of its variables receive it.
ghost use Rattle.std.specs.Prelude.{◌≡◌, ◌&&◌, map, filter, option_map, Option, Some, IfOk, OnOk};
ghost use Rattle.std.specs.List.{list_any};
ghost use Rattle.oc_effects.specs.View.{called_view, effect_view};
ghost use Rattle.oc_flow.specs.Variables.{ends, is_variable_of};
ghost use Rattle.oc_flow.specs.Flow.{may_bring};
ghost use Rattle.oc_flow.specs.Known.{Gathers, Holds, brings_called, brings_known, known_at, known_receives, some_brings, table_flows};

use crate::known::{Known, end_of};
use crate::table::Table;
use oc_effects::effect::{Called, Effect};
use oc_tree::tree::VarId;
use std::alloc::{AllocError, Global};

/// Adds a variable, if there is one. Err is want of memory.
fn add_variable(brought: &mut Vec<VarId>, variable: Option<VarId>) -> Result<(), AllocError>
    ensures { OnOk result
        (Gathers (λ v. is_variable_of variable v) brought.old.items brought.new.items) }
{
    match variable {
        Some(variable) => {
            brought.push(variable)?;
            Ok(())
        }
        None => Ok(()),
    }
}

/// Adds the variable that a callee's variable stands for, where that one receives input.
fn add_received(
    callee: &Known,
    effect: &Effect,
    call: &Called,
    y: VarId,
    brought: &mut Vec<VarId>,
) -> Result<(), AllocError>
    ensures { OnOk result
        (Gathers (λ v. ends (effect_view effect.now) (called_view call.now) y v &&
        known_receives callee.now y) brought.old.items brought.new.items) }
{
    if !callee.receives(y) {
        return Ok(());
    }
    add_variable(brought, end_of(effect, call, y))?;
    Ok(())
}

/// Adds the variables into which a call brings input, by what is known of the called function. Err
/// is want of memory.
fn add_from_callee(
    callee: &Known,
    effect: &Effect,
    call: &Called,
    brought: &mut Vec<VarId>,
) -> Result<(), AllocError>
    ensures { OnOk result
        (Gathers (λ v. list_any (λ y. ends (effect_view effect.now) (called_view call.now) y v &&
        known_receives callee.now y) callee.now.outer) brought.old.items brought.new.items) }
{
    for y in callee.outer() {
        add_received(callee, effect, call, *y, brought)?;
    }
    Ok(())
}

/// What is known of the called function, if it is known.
fn callee_of<'k>(known: &'k [Option<Known>], call: &Called) -> Option<&'k Known>
    ensures { option_map (λ k. k.now) result ≡ known_at known.now (called_view call.now).function }
{
    match known.get(call.function as usize) {
        Some(Some(callee)) => Some(callee),
        _ => None,
    }
}

/// Adds the variables into which a call brings input; none where the called function isn't known.
/// Err is want of memory.
fn add_by_call(
    known: &[Option<Known>],
    effect: &Effect,
    call: &Called,
    brought: &mut Vec<VarId>,
) -> Result<(), AllocError>
    ensures { OnOk result
        (Gathers (λ v. brings_called known.now (effect_view effect.now)
        (Some (called_view call.now)) v) brought.old.items brought.new.items) }
{
    match callee_of(known, call) {
        Some(callee) => {
            add_from_callee(callee, effect, call, brought)?;
            Ok(())
        }
        None => Ok(()),
    }
}

/// Adds the variables into which a statement brings input by its call, if it has one. Err is want
/// of memory.
fn add_called(
    known: &[Option<Known>],
    effect: &Effect,
    brought: &mut Vec<VarId>,
) -> Result<(), AllocError>
    ensures { OnOk result
        (Gathers (λ v. brings_called known.now (effect_view effect.now)
        (effect_view effect.now).call v) brought.old.items brought.new.items) }
{
    match &effect.call {
        Some(call) => {
            add_by_call(known, effect, call, brought)?;
            Ok(())
        }
        None => Ok(()),
    }
}

/// Adds the variable that a statement sets to an input, if it does so. Err is want of memory.
fn add_sensed(effect: &Effect, brought: &mut Vec<VarId>) -> Result<(), AllocError>
    ensures { OnOk result
        (Gathers (λ v. (effect_view effect.now).senses &&
        is_variable_of (effect_view effect.now).target v) brought.old.items brought.new.items) }
{
    if !effect.senses {
        return Ok(());
    }
    add_variable(brought, effect.target)?;
    Ok(())
}

/// Adds the variables into which a statement brings input, by itself or by its call. Err is want of
/// memory.
fn add_brought(
    known: &[Option<Known>],
    effect: &Effect,
    brought: &mut Vec<VarId>,
) -> Result<(), AllocError>
    ensures { OnOk result
        (Gathers (brings_known known.now (effect_view effect.now)) brought.old.items
        brought.new.items) }
{
    add_sensed(effect, brought)?;
    add_called(known, effect, brought)?;
    Ok(())
}

/// The variables into which a statement brings input.
pub fn brought_by(
    alloc: Global,
    known: &[Option<Known>],
    effect: &Effect,
) -> Result<Vec<VarId>, AllocError>
    ensures { IfOk result
        (λ r. Holds r.items (brings_known known.now (effect_view effect.now))) }
{
    let mut brought = Vec::new(alloc);
    add_brought(known, effect, &mut brought)?;
    Ok(brought)
}

/// Whether a statement may bring input into any variable: it reads one, or it calls a function.
pub fn may_bring(effect: &Effect) -> bool
    ensures { result ≡ may_bring (effect_view effect.now) }
{
    match &effect.call {
        Some(_call) => true,
        None => effect.senses,
    }
}

/// The variables into which some statement brings input, by statements.
fn input_variables(
    alloc: Global,
    known: &[Option<Known>],
    effects: &[Effect],
) -> Result<Vec<VarId>, AllocError>
    ensures { IfOk result
        (λ r. Holds r.items (some_brings known.now (map effect_view effects.now))) }
{
    let mut brought = Vec::new(alloc);
    for effect in effects {
        add_brought(known, effect, &mut brought)?;
    }
    Ok(brought)
}

/// Which variables receive input, in the order of their numbers.
pub fn which_receive(
    alloc: Global,
    table: &Table,
    known: &[Option<Known>],
    effects: &[Effect],
) -> Result<Vec<bool>, AllocError>
    ensures { IfOk result (λ r. r.items
        ≡ map (λ y. list_any (λ u. table_flows table.now u y)
        (filter (some_brings known.now (map effect_view effects.now)) table.now.variables))
        table.now.variables) }
{
    let from = input_variables(alloc, known, effects)?;
    let received = table.received(alloc, from.as_slice())?;
    Ok(received)
}
