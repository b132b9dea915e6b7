//! What is known of all functions, callees first.
ghost use Rattle.std.specs.Prelude.{◌≡◌, ◌<◌, ◌++◌, ℕ, map, length, Option, None, Some, true, is_some, replicate, OnOk, IfOk};
ghost use Rattle.oc_tree.specs.declared.tree.VarId.{VarId};
ghost use Rattle.oc_tree.specs.declared.tree.VarId.TheVariants.{Nv, Param};
ghost use Rattle.std.specs.List.{list_all};
ghost use Rattle.oc_effects.specs.Effects.{effects_at, params_at};
ghost use Rattle.oc_effects.specs.View.{effect_view};
ghost use Rattle.oc_flow.specs.Variables.{from};
ghost use Rattle.oc_flow.specs.Flow.{chain};
ghost use Rattle.oc_flow.specs.Known.{KnownBy, Learns, LearnsAll, Links, Right, declared_of, is_ready, known_at, outer_of, some_leads};

use crate::inputs::which_receive;
use crate::known::Known;
use crate::leads::{all_known, all_leads};
use crate::table::Table;
use oc_effects::effect::Effect;
use oc_effects::effects::Effects;
use oc_tree::checked::Checked;
use oc_tree::tree::VarId;
use std::alloc::{AllocError, Global};

/// Adds the nonvolatile variables, of which there are so many. Err is want of memory.
fn add_nonvolatile(variables: &mut Vec<VarId>, count: u32) -> Result<(), AllocError>
    ensures { OnOk result (variables.new.items ≡ variables.old.items ++ map Nv (from 0 count)) }
{
    for index in 0..count {
        variables.push(VarId::Nv { index })?;
    }
    Ok(())
}

/// Adds the parameters of a function that has so many. Err is want of memory.
fn add_params(variables: &mut Vec<VarId>, count: u32) -> Result<(), AllocError>
    ensures { OnOk result (variables.new.items ≡ variables.old.items ++ map Param (from 0 count)) }
{
    for index in 0..count {
        variables.push(VarId::Param { index })?;
    }
    Ok(())
}

/// Adds the variables that these statements declare. Err is want of memory.
fn add_declared(variables: &mut Vec<VarId>, effects: &[Effect]) -> Result<(), AllocError>
    ensures { OnOk result
        (variables.new.items ≡ variables.old.items ++ declared_of (map effect_view effects.now)) }
{
    for effect in effects {
        if effect.declares {
            variables.push(VarId::Declared { stmt: effect.stmt })?;
        }
    }
    Ok(())
}

/// How many variables there are that a function doesn't declare, besides its result.
#[derive(Clone, Copy)]
struct Outer {
    nonvolatile: u32,
    params: u32,
}

/// The variables that a function doesn't declare: the nonvolatile ones, its parameters and its
/// result. Err is want of memory.
fn outer_of(alloc: Global, outer: Outer) -> Result<Vec<VarId>, AllocError>
    ensures { IfOk result (λ r. r.items ≡ outer_of outer.nonvolatile outer.params) }
{
    let mut variables = Vec::new(alloc);
    add_nonvolatile(&mut variables, outer.nonvolatile)?;
    add_params(&mut variables, outer.params)?;
    variables.push(VarId::Returned)?;
    Ok(variables)
}

/// The variables of a function: those that it doesn't declare, and then those that its statements
/// declare. Err is want of memory.
fn variables_of(alloc: Global, outer: Outer, effects: &[Effect]) -> Result<Vec<VarId>, AllocError>
    ensures { IfOk result
        (λ r. r.items
        ≡ outer_of outer.nonvolatile outer.params ++ declared_of (map effect_view effects.now)) }
{
    let mut variables = outer_of(alloc, outer)?;
    add_declared(&mut variables, effects)?;
    Ok(variables)
}

/// Which of a function's variables lead to which, directly or through each other, by its statements
/// and by what is known of the functions that they call. Err is want of memory.
fn table_of(
    alloc: Global,
    known: &[Option<Known>],
    effects: &[Effect],
    variables: Vec<VarId>,
) -> Result<Table, AllocError>
    ensures variables { IfOk result (λ t. t.variables ≡ variables.items) }
    ensures links { IfOk result
        (λ t. Links t
        (λ a b. chain (some_leads known.now (map effect_view effects.now)) variables.items a b)) }
{
    let mut table = Table::new(alloc, variables)?;
    all_leads(&mut table, known, effects);
    table.close(alloc)?;
    Ok(table)
}

/// What is known of a function by its statements and by what is known of the functions that they
/// call. Err is want of memory.
fn know(
    alloc: Global,
    known: &[Option<Known>],
    effects: &[Effect],
    outer: Outer,
) -> Result<Known, AllocError>
    ensures { IfOk result
        (λ k. KnownBy outer.nonvolatile outer.params known.now (map effect_view effects.now) k) }
{
    let variables = variables_of(alloc, outer, effects)?;
    let table = table_of(alloc, known, effects, variables)?;
    let received = which_receive(alloc, &table, known, effects)?;
    let others = outer_of(alloc, outer)?;
    let numbers = table.numbers(alloc, others.as_slice())?;
    Ok(Known::new(table, others, numbers, received))
}

/// How many variables the function at a place doesn't declare, besides its result.
fn outer_at(checked: &Checked, f: usize) -> Outer
    requires { f < length checked.now.program.functions }
    ensures nonvolatile { result.nonvolatile ≡ length checked.now.program.names.nvs }
    ensures params { result.params ≡ length (params_at checked.now.program f) }
{
    let program = checked.program();
    Outer {
        nonvolatile: program.names.nvs.len() as u32,
        params: program.functions[f].params.len() as u32,
    }
}

/// Gets to know a function whose callees are known. Err is want of memory.
fn learn_ready(
    alloc: Global,
    effects: &Effects,
    known: &mut Vec<Option<Known>>,
    f: usize,
) -> Result<(), AllocError>
    requires f { f < length effects.now.program.functions }
    requires right { Right effects.now.program known.old.items }
    requires ready { list_all (λ e. is_ready known.old.items e.call)
        (effects_at effects.now.program f) ≡ true }
    ensures { OnOk result (Learns effects.now.program f known.old.items known.new.items) }
{
    let checked = effects.checked();
    // For the proof alone: it tells that the program is checked.
    let _program = checked.program();
    let one = know(
        alloc,
        known.as_slice(),
        effects.of_function(f),
        outer_at(checked, f),
    )?;
    known[f] = Some(one);
    Ok(())
}

/// Whether the function at a place is known; not so where there is no such function.
fn is_known_at(known: &[Option<Known>], f: usize) -> bool
    ensures { result ≡ is_some (known_at known.now f) }
{
    match known.get(f) {
        Some(one) => one.is_some(),
        None => false,
    }
}

/// Gets to know a function, if its callees are known.
fn learn(
    alloc: Global,
    effects: &Effects,
    known: &mut Vec<Option<Known>>,
    f: usize,
) -> Result<(), AllocError>
    requires f { f < length effects.now.program.functions }
    requires right { Right effects.now.program known.old.items }
    ensures { OnOk result (Learns effects.now.program f known.old.items known.new.items) }
{
    if is_known_at(known.as_slice(), f) {
        return Ok(());
    }
    if !all_known(known.as_slice(), effects.of_function(f)) {
        return Ok(());
    }
    learn_ready(alloc, effects, known, f)?;
    Ok(())
}

/// Gets to know the functions of one more rank.
fn learn_more(
    alloc: Global,
    effects: &Effects,
    known: &mut Vec<Option<Known>>,
) -> Result<(), AllocError>
    requires { Right effects.now.program known.old.items }
    ensures { OnOk result (LearnsAll effects.now.program known.old.items known.new.items) }
{
    let checked = effects.checked();
    for f in 0..checked.program().functions.len() {
        learn(alloc, effects, known, f)?;
    }
    Ok(())
}

/// A list in which none of so many functions is known. Err is want of memory.
fn nothing_known(alloc: Global, count: usize) -> Result<Vec<Option<Known>>, AllocError>
    ensures { IfOk result (λ r. r.items ≡ replicate count None) }
{
    let mut known = Vec::new(alloc);
    for _f in 0..count {
        known.push(None)?;
    }
    Ok(known)
}

/// What is known of each function.
pub fn learn_all(alloc: Global, effects: &Effects) -> Result<Vec<Option<Known>>, AllocError>
    ensures right { IfOk result (λ r. Right effects.now.program r.items) }
    ensures all { IfOk result
        (λ r. (f : ℕ) → f < length effects.now.program.functions
        → is_some (known_at r.items f) ≡ true) }
{
    let checked = effects.checked();
    let count = checked.program().functions.len();
    let mut known = nothing_known(alloc, count)?;
    for _rank in 0..count {
        learn_more(alloc, effects, &mut known)?;
    }
    Ok(known)
}
