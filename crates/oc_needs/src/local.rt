//! What is known of a function for all policies.
ghost use Rattle.std.specs.Prelude.{◌≡◌, ◌<◌, ◌+◌, ◌++◌, ◌∷◌, [], cond, map, filter, length, IfOk, OnOk};
ghost use Rattle.std.proofs.Math.ListN.{get_or};
ghost use Rattle.oc_tree.specs.declared.tree.VarId.TheVariants.{Nv, Param};
ghost use Rattle.oc_effects.specs.Effects.{effects_at, params_at};
ghost use Rattle.oc_effects.specs.View.{effect_view};
ghost use Rattle.std.specs.List.{list_any};
ghost use Rattle.oc_flow.specs.Flow.{brings_at, flows};
ghost use Rattle.oc_flow.specs.Variables.{from, is_among, variables};
ghost use Rattle.oc_needs.specs.Code.{callee, callees, declared_by, is_loop_by, is_looped, all_locals, local_at, looped_at, loops_by, source_list, source_of, sources};
ghost use Rattle.oc_needs.specs.CodeView.{local_view, sites_view, source_view, tables_view, IsBody};

use crate::place::{function_count, number_of};
use oc_effects::effect::Effect;
use oc_effects::effects::Effects;
use oc_flow::numbering::is_among;
use oc_flow::summary::Summaries;
use oc_tree::tree::{StmtId, VarId};
use std::alloc::{AllocError, Global};

/// A statement that brings input into variables, with the loops around it, the outermost first.
#[derive(Drop)]
pub struct Source {
    pub stmt: StmtId,
    pub loops: Vec<StmtId>,
    pub brought: Vec<VarId>,
}

/// The variables of a function, the statements that bring input into any of them and whether one of
/// these stands in a loop, and the functions that its statements call.
#[derive(Drop)]
pub struct Local {
    pub variables: Vec<VarId>,
    pub sources: Vec<Source>,
    pub has_looped: bool,
    pub callees: Vec<u32>,
}

/// A function, by its place, with what is known of it.
#[derive(Clone, Copy)]
pub struct Body<'s, 'a, 'l> {
    pub summaries: &'s Summaries<'a>,
    pub function: u32,
    pub local: &'l Local,
    // The sites of inputs in loops for the function's variables, as far as they are known.
    pub looped: &'l [Vec<StmtId>],
}

/// Whether the statement of a number is a loop.
fn is_loop(effects: &Effects, function: usize, s: StmtId) -> bool
    requires { function < length effects.now.program.functions }
    ensures { result ≡ is_loop_by effects.now.program function s }
{
    match effects.find_in(function, s) {
        Some(effect) => effect.is_loop,
        None => false,
    }
}

/// The loops among the statements around a statement, the outermost first.
fn loops_of(
    alloc: Global,
    effects: &Effects,
    function: usize,
    around: &[StmtId],
) -> Result<Vec<StmtId>, AllocError>
    requires { function < length effects.now.program.functions }
    ensures { IfOk result (λ l. l.items ≡ loops_by effects.now.program function around.now) }
{
    around
        .iter()
        .rev()
        .copied()
        .filter(|s| is_loop(effects, function, *s))
        .collect(alloc)
}

/// Those of the variables that are among others.
fn keep_among(
    alloc: Global,
    others: &[VarId],
    variables: &[VarId],
) -> Result<Vec<VarId>, AllocError>
    ensures { IfOk result (λ v. v.items ≡ filter (λ v. is_among v others.now) variables.now) }
{
    variables
        .iter()
        .copied()
        .filter(|v| is_among(*v, others))
        .collect(alloc)
}

/// A variable, if the function at a place has it: then it flows into itself.
fn keep_own(
    alloc: Global,
    summaries: &Summaries,
    function: u32,
    v: VarId,
) -> Result<Vec<VarId>, AllocError>
    ensures { IfOk result
        (λ r. r.items ≡ cond (flows summaries.now.program function v v) (v ∷ []) []) }
{
    let mut kept = Vec::new(alloc);
    if summaries.flows(function, v, v) {
        kept.push(v)?;
    }
    Ok(kept)
}

/// Those of a function's variables that are among others, of which there is mostly one.
fn keep_each(
    alloc: Global,
    summaries: &Summaries,
    function: u32,
    others: &[VarId],
    own: &[VarId],
) -> Result<Vec<VarId>, AllocError>
    requires function { function < length summaries.now.program.functions }
    requires own { own.now ≡ variables summaries.now.program function }
    ensures { IfOk result (λ v. v.items ≡ filter (λ v. is_among v others.now) own.now) }
{
    let effects = summaries.effects();
    // For the proof alone: it tells that the program is checked.
    let _program = effects.checked().program();
    if others.len() == 1 {
        let only = others[0];
        let kept = keep_own(alloc, summaries, function, only)?;
        return Ok(kept);
    }
    let kept = keep_among(alloc, others, own)?;
    Ok(kept)
}

/// The variables of a function into which a statement brings input.
fn brought_by(
    alloc: Global,
    summaries: &Summaries,
    function: usize,
    s: StmtId,
    own: &[VarId],
) -> Result<Vec<VarId>, AllocError>
    requires function { function < length summaries.now.program.functions }
    requires own { own.now ≡ variables summaries.now.program function }
    ensures { IfOk result
        (λ v. v.items ≡ filter (brings_at summaries.now.program s) own.now) }
{
    let number = number_of(function)?;
    let brought = summaries.brought(alloc, s)?;
    let kept = keep_each(alloc, summaries, number, brought.as_slice(), own)?;
    Ok(kept)
}

/// How many nonvolatile variables the program has.
fn nv_count(effects: &Effects) -> usize
    ensures { result ≡ length effects.now.program.names.nvs }
{
    effects.checked().program().names.nvs.len()
}

/// How many parameters the function at a place has.
fn param_count(effects: &Effects, function: usize) -> usize
    requires { function < length effects.now.program.functions }
    ensures { result ≡ length (params_at effects.now.program function) }
{
    effects.checked().program().functions[function].params.len()
}

/// Adds the nonvolatile variables, of which there are so many. Err is want of memory.
fn add_nvs(variables: &mut Vec<VarId>, count: usize) -> Result<(), AllocError>
    ensures { OnOk result (variables.new.items ≡ variables.old.items ++ map Nv (from 0 count)) }
{
    for i in 0..count {
        let index = number_of(i)?;
        variables.push(VarId::Nv { index })?;
    }
    Ok(())
}

/// Adds the parameters of a function that has so many. Err is want of memory.
fn add_params(variables: &mut Vec<VarId>, count: usize) -> Result<(), AllocError>
    ensures { OnOk result (variables.new.items ≡ variables.old.items ++ map Param (from 0 count)) }
{
    for i in 0..count {
        let index = number_of(i)?;
        variables.push(VarId::Param { index })?;
    }
    Ok(())
}

/// Adds the variables that these statements declare. Err is want of memory.
fn add_declared(variables: &mut Vec<VarId>, effects: &[Effect]) -> Result<(), AllocError>
    ensures { OnOk result
        (variables.new.items ≡ variables.old.items ++ declared_by (map effect_view effects.now)) }
{
    for effect in effects {
        if effect.declares {
            variables.push(VarId::Declared { stmt: effect.stmt })?;
        }
    }
    Ok(())
}

/// The variables of the function at a place.
fn variables_of(alloc: Global, effects: &Effects, function: usize) -> Result<Vec<VarId>, AllocError>
    requires { function < length effects.now.program.functions }
    ensures { IfOk result (λ v. v.items ≡ variables effects.now.program function) }
{
    let mut variables = Vec::new(alloc);
    add_nvs(&mut variables, nv_count(effects))?;
    add_params(&mut variables, param_count(effects, function))?;
    variables.push(VarId::Returned)?;
    add_declared(&mut variables, effects.of_function(function))?;
    Ok(variables)
}

/// Adds a statement, if it brings input into any variable.
fn add_source(
    alloc: Global,
    sources: &mut Vec<Source>,
    summaries: &Summaries,
    function: usize,
    own: &[VarId],
    effect: &Effect,
) -> Result<(), AllocError>
    requires function { function < length summaries.now.program.functions }
    requires own { own.now ≡ variables summaries.now.program function }
    ensures { OnOk result
        (map source_view sources.new.items
        ≡ map source_view sources.old.items
        ++ source_list (source_of summaries.now.program function (effect_view effect.now))) }
{
    if !summaries.may_bring(effect.stmt) {
        return Ok(());
    }
    let brought = brought_by(alloc, summaries, function, effect.stmt, own)?;
    if brought.is_empty() {
        return Ok(());
    }
    let around = effect.around.as_slice();
    let loops = loops_of(alloc, summaries.effects(), function, around)?;
    let stmt = effect.stmt;
    sources.push(Source {
        stmt,
        loops,
        brought,
    })?;
    Ok(())
}

/// The statements of a function that bring input into any of its variables, in order. Err is want
/// of memory.
fn sources_of(
    alloc: Global,
    summaries: &Summaries,
    function: usize,
    own: &[VarId],
) -> Result<Vec<Source>, AllocError>
    requires function { function < length summaries.now.program.functions }
    requires own { own.now ≡ variables summaries.now.program function }
    ensures { IfOk result
        (λ s. map source_view s.items
        ≡ sources summaries.now.program function (effects_at summaries.now.program function)) }
{
    let mut sources = Vec::new(alloc);
    for effect in summaries.effects().of_function(function) {
        add_source(alloc, &mut sources, summaries, function, own, effect)?;
    }
    Ok(sources)
}

/// Whether a statement that brings input stands in a loop.
fn is_looped(source: &Source) -> bool
    ensures { result ≡ is_looped (source_view source.now) }
{
    !source.loops.is_empty()
}

/// Whether one of the statements that bring input stands in a loop.
fn has_looped(sources: &[Source]) -> bool
    ensures { result ≡ list_any is_looped (map source_view sources.now) }
{
    for source in sources {
        if is_looped(source) {
            return true;
        }
    }
    false
}

/// Adds the function that a statement calls, if it calls one. Err is want of memory.
fn add_callee(callees: &mut Vec<u32>, effect: &Effect) -> Result<(), AllocError>
    ensures { OnOk result
        (callees.new.items ≡ callees.old.items ++ callee (effect_view effect.now).call) }
{
    match &effect.call {
        Some(call) => {
            callees.push(call.function)?;
            Ok(())
        }
        None => Ok(()),
    }
}

/// The functions that statements call.
fn callees_of(alloc: Global, effects: &[Effect]) -> Result<Vec<u32>, AllocError>
    ensures { IfOk result (λ r. r.items ≡ callees (map effect_view effects.now)) }
{
    let mut callees = Vec::new(alloc);
    for effect in effects {
        add_callee(&mut callees, effect)?;
    }
    Ok(callees)
}

/// What is known of the function at a place for all policies. Err is want of memory.
fn local_of(alloc: Global, summaries: &Summaries, function: usize) -> Result<Local, AllocError>
    requires { function < length summaries.now.program.functions }
    ensures { IfOk result (λ l. local_view l ≡ local_at summaries.now.program function) }
{
    let variables = variables_of(alloc, summaries.effects(), function)?;
    let sources = sources_of(alloc, summaries, function, variables.as_slice())?;
    let looped = has_looped(sources.as_slice());
    let callees = callees_of(alloc, summaries.effects().of_function(function))?;
    Ok(Local {
        variables,
        sources,
        has_looped: looped,
        callees,
    })
}

/// What is known of each function.
pub fn locals(alloc: Global, summaries: &Summaries) -> Result<Vec<Local>, AllocError>
    ensures { IfOk result (λ l. map local_view l.items ≡ all_locals summaries.now.program) }
{
    let mut locals = Vec::new(alloc);
    for function in 0..function_count(summaries.effects()) {
        let local = local_of(alloc, summaries, function)?;
        locals.push(local)?;
    }
    Ok(locals)
}

/// The sites that are known of a function; none where it isn't there.
fn table_at<'l>(tables: &'l [Vec<Vec<StmtId>>], function: usize) -> &'l [Vec<StmtId>]
    ensures { sites_view result.now ≡ get_or (tables_view tables.now) function [] }
{
    match tables.get(function) {
        Some(table) => table.as_slice(),
        None => &[],
    }
}

/// The function at a place, with what is known of it.
pub fn body_at<'s, 'a, 'l>(
    summaries: &'s Summaries<'a>,
    locals: &'l [Local],
    looped: &'l [Vec<Vec<StmtId>>],
    function: usize,
) -> Result<Body<'s, 'a, 'l>, AllocError>
    requires locals { map local_view locals.now ≡ all_locals summaries.now.program }
    requires looped { tables_view looped.now
        ≡ map (looped_at summaries.now.program) (from 0 (length looped.now)) }
    requires function { function < length locals.now }
    ensures body { IfOk result IsBody }
    ensures function { IfOk result (λ b. b.function ≡ function) }
    ensures summaries { IfOk result (λ b. b.summaries.now ≡ summaries.now) }
{
    let local = &locals[function];
    let looped = table_at(looped, function);
    let function = number_of(function)?;
    Ok(Body {
        summaries,
        function,
        local,
        looped,
    })
}
