//! The first element of a program that breaks a rule.
ghost use Rattle.std.specs.Prelude.{◌≡◌, ◌<◌, ◌≤◌, ◌^◌, [], ◌∷◌, false, None, Some, length, slice_get, IfOk};
ghost use Rattle.oc_lex.specs.Limits.{source_limit};
ghost use Rattle.oc_tree.specs.Nodes.{block_nodes, program_nodes};
ghost use Rattle.oc_tree.specs.View.{block_view, function_view, program_view};
ghost use Rattle.oc_tree.specs.Broken.{broken_element, end_rules, item_rules, lowest};
ghost use Rattle.oc_tree.specs.Elements.{after_item, function_item, nv_item};
ghost use Rattle.oc_tree.specs.Limits.{Tally};
ghost use Rattle.oc_tree.specs.Rules.{declared_before};
ghost use Rattle.oc_tree.specs.Scope.{takes_param};
ghost use Rattle.oc_tree.specs.Sizes.{variable_limit, word_limit};
ghost use Rattle.oc_types.specs.Small.{IsSmall};
ghost use Rattle.oc_types.specs.Walk.{Ends, declaration_walk, element, function_walk, item_walk, outcome, program_walk};

use crate::counts::Counts;
use crate::heads::{
    declare_params, has_array_value, has_bad_param, main_head, main_missing, return_missing,
};
use crate::numbers::{
    ARRAY_BY_VALUE, ARRAY_LENGTH, DECLARED_TWICE, LIMIT_PASSED, MAIN_FUNCTION, NAME_TAKEN,
    RETURN_PLACE,
};
use crate::place::Place;
use crate::scope::Scope;
use crate::sides::has_bad_length;
use crate::top::{TopLevel, nv_kind};
use crate::walk::walk_block;
use oc_tree::before::Before;
use oc_tree::broken::Broken;
use oc_tree::name::Name;
use oc_tree::tree::{Decl, DeclKind, Function, NvDecl, Program};
use std::alloc::{AllocError, Global};

/// The rule that is broken, if one is, with the line of the element that breaks it.
fn at_line(line: u32, rule: Option<u8>) -> Option<Broken>
    ensures { (n : Tally) → outcome result n ≡ element line rule n }
{
    match rule {
        Some(rule) => Some(Broken { line, rule }),
        None => None,
    }
}

/// The lowest rule that a sensor or a port breaks.
fn name_rule(top: &TopLevel, before: Before, name: &Name, full: bool) -> Option<u8>
    ensures { result ≡ lowest
        ((DECLARED_TWICE, declared_before (program_view top.now) before name.now)
        ∷ (LIMIT_PASSED, full) ∷ []) }
{
    if top.declares_before(before, name) {
        return Some(DECLARED_TWICE);
    }
    if full { Some(LIMIT_PASSED) } else { None }
}

/// The lowest rule that the declaration of a nonvolatile variable breaks, where it is counted
/// already.
fn nv_rule(top: &TopLevel, before: Before, counts: &Counts, name: &Name, nv: NvDecl) -> Option<u8>
    ensures lowest { result
        ≡ lowest (item_rules (program_view top.now) counts.now before (nv_item name.now nv)) }
    ensures small { result ≡ None → counts.now.words ≤ word_limit }
{
    if top.declares_before(before, name) {
        return Some(DECLARED_TWICE);
    }
    if has_bad_length(nv_kind(nv)) {
        return Some(ARRAY_LENGTH);
    }
    if counts.nv_passes(before, name, nv) {
        Some(LIMIT_PASSED)
    } else {
        None
    }
}

/// The lowest rule that a function's head breaks.
fn function_rule(
    top: &TopLevel,
    before: Before,
    counts: &Counts,
    function: &Function,
    taken: bool,
) -> Option<u8>
    requires { taken ≡ takes_param (program_view top.now) [] function.now.params.items }
    ensures lowest { result
        ≡ lowest (item_rules (program_view top.now) counts.now before
        (function_item (function_view function.now))) }
    ensures untaken { result ≡ None → taken ≡ false }
    ensures small { result ≡ None → counts.now.variables ≤ variable_limit }
{
    if top.declares_before(before, &function.name) {
        return Some(DECLARED_TWICE);
    }
    if taken {
        return Some(NAME_TAKEN);
    }
    if main_head(function) {
        return Some(MAIN_FUNCTION);
    }
    if has_bad_param(function.params.as_slice()) {
        return Some(ARRAY_LENGTH);
    }
    if has_array_value(function.params.as_slice()) {
        return Some(ARRAY_BY_VALUE);
    }
    if return_missing(function) {
        return Some(RETURN_PLACE);
    }
    if counts.function_passes(before, function) {
        Some(LIMIT_PASSED)
    } else {
        None
    }
}

/// Goes through the declaration of a nonvolatile variable: counts it, and answers the lowest rule
/// that it breaks.
#[tactic(auto, using(crate::proofs::SmallCounts::with_nv))]
fn walk_nv(
    top: &TopLevel,
    before: Before,
    counts: &mut Counts,
    line: u32,
    name: &Name,
    nv: NvDecl,
) -> Option<Broken>
    requires { IsSmall counts.old }
    ensures found { outcome result counts.new
        ≡ declaration_walk (program_view top.now) before counts.old line (nv_item name.now nv) }
    ensures small { result ≡ None → IsSmall counts.new }
{
    counts.add_nv(name, nv);
    match nv_rule(top, before, counts, name, nv) {
        Some(rule) => Some(Broken { line, rule }),
        None => None,
    }
}

/// Goes through a function: its head, and its body.
#[tactic(auto, using(crate::proofs::SmallCounts::begun))]
fn walk_body<'a>(
    alloc: Global,
    top: &TopLevel<'a>,
    before: Before,
    counts: &mut Counts,
    line: u32,
    function: &'a Function,
) -> Result<Option<Broken>, AllocError>
    requires nodes { block_nodes (block_view function.now.body) < 2 ^ 32 }
    requires below { before.functions < length (program_view top.now).functions }
    requires counts { IsSmall counts.old }
    ensures found { IfOk result
        (λ r. outcome r counts.new
        ≡ function_walk (program_view top.now) before counts.old line
        (Some (function_view function.now))) }
    ensures small { IfOk result (λ r. r ≡ None → IsSmall counts.new) }
{
    counts.begin(function);
    let mut scope = Scope::new(alloc);
    let taken = declare_params(top, &mut scope, function.params.as_slice())?;
    match function_rule(top, before, counts, function, taken) {
        Some(rule) => Ok(Some(Broken { line, rule })),
        None => {
            let place = Place {
                function,
                number: before.functions,
                block: 0,
                last: true,
            };
            let callers = top.callers(alloc, before.functions)?;
            walk_block(
                alloc,
                top,
                place,
                &callers,
                &mut scope,
                counts,
                &function.body,
            )
        }
    }
}

/// Goes through the next function, if there is one: its head, and its body. Err is want of memory.
fn walk_function<'a>(
    alloc: Global,
    top: &TopLevel<'a>,
    before: Before,
    counts: &mut Counts,
    line: u32,
) -> Result<Option<Broken>, AllocError>
    requires nodes { program_nodes (program_view top.now) < 2 ^ 32 }
    requires counts { IsSmall counts.old }
    ensures found { IfOk result
        (λ r. outcome r counts.new
        ≡ function_walk (program_view top.now) before counts.old line
        (slice_get (program_view top.now).functions before.functions)) }
    ensures small { IfOk result (λ r. r ≡ None → IsSmall counts.new) }
{
    match top.function_at(before.functions) {
        Some(function) => walk_body(alloc, top, before, counts, line, function),
        None => Ok(None),
    }
}

/// Goes through the next declaration of a kind.
fn walk_item<'a>(
    alloc: Global,
    top: &TopLevel<'a>,
    before: Before,
    counts: &mut Counts,
    decl: Decl,
) -> Result<Option<Broken>, AllocError>
    requires nodes { program_nodes (program_view top.now) < 2 ^ 32 }
    requires counts { IsSmall counts.old }
    ensures found { IfOk result
        (λ r. outcome r counts.new
        ≡ item_walk (program_view top.now) before counts.old decl.line decl.kind) }
    ensures small { IfOk result (λ r. r ≡ None → IsSmall counts.new) }
{
    let names = &top.program().names;
    let nvs = top.program().nv.as_slice();
    let line = decl.line;
    match decl.kind {
        DeclKind::Sensor => match names.sensors.get(before.sensors) {
            Some(name) => Ok(at_line(line, name_rule(top, before, name, 64 <= before.sensors))),
            None => Ok(None),
        },
        DeclKind::Port => match names.ports.get(before.ports) {
            Some(name) => Ok(at_line(line, name_rule(top, before, name, 64 <= before.ports))),
            None => Ok(None),
        },
        DeclKind::Nv => match names.nvs.get(before.nvs) {
            Some(name) => match nvs.get(before.nvs) {
                Some(nv) => Ok(walk_nv(top, before, counts, line, name, *nv)),
                None => Ok(None),
            },
            None => Ok(None),
        },
        DeclKind::Function => walk_function(alloc, top, before, counts, line),
    }
}

/// How many declarations there are behind one more of this kind.
fn after_item(before: Before, kind: DeclKind) -> Before
    requires sensors { before.sensors < usize.MAX }
    requires ports { before.ports < usize.MAX }
    requires nvs { before.nvs < usize.MAX }
    requires functions { before.functions < usize.MAX }
    ensures { result ≡ after_item before kind }
{
    let mut after = before;
    match kind {
        DeclKind::Sensor => after.sensors += 1,
        DeclKind::Port => after.ports += 1,
        DeclKind::Nv => after.nvs += 1,
        DeclKind::Function => after.functions += 1,
    }
    after
}

/// The lowest rule that the end of the source breaks.
fn end_rule(top: &TopLevel) -> Option<u8>
    ensures { result ≡ lowest (end_rules (program_view top.now)) }
{
    if main_missing(top.program().functions.as_slice()) {
        Some(MAIN_FUNCTION)
    } else {
        None
    }
}

/// Goes through all declarations and the end of the source, up to the first element that breaks a
/// rule. Err is want of memory.
fn walk_program<'a>(alloc: Global, top: &TopLevel<'a>) -> Result<Option<Broken>, AllocError>
    requires { program_nodes (program_view top.now) < 2 ^ 32 }
    ensures { IfOk result (λ r. Ends r (program_walk (program_view top.now))) }
{
    let order = top.program().order.as_slice();
    let mut before = Before {
        sensors: 0,
        ports: 0,
        nvs: 0,
        functions: 0,
    };
    let mut counts = Counts::new(alloc);
    for decl in order {
        let broken = walk_item(alloc, top, before, &mut counts, *decl)?;
        if broken.is_some() {
            return Ok(broken);
        }
        before = after_item(before, decl.kind);
    }
    Ok(at_line(top.program().last_line, end_rule(top)))
}

/// The first element in source order that breaks a rule, with the lowest rule that it breaks.
#[tactic(auto, using(crate::proofs::InOrder::ends_broken))]
pub fn find_broken_element(alloc: Global, program: &Program) -> Result<Option<Broken>, AllocError>
    requires { program_nodes (program_view program.now) ≤ source_limit }
    ensures { IfOk result (λ r. r ≡ broken_element (program_view program.now)) }
{
    match TopLevel::new(alloc, program) {
        Ok(top) => walk_program(alloc, &top),
        Err(error) => Err(error),
    }
}
