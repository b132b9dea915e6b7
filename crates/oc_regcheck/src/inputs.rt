//! The inputs of a requirement.
ghost use Rattle.std.specs.Prelude.{◌≡◌, ◌≢◌, ◌<◌, ◌++◌, Some, None, map, length, option_map, option_to_list, IfOk, OnOk};
ghost use Rattle.std.specs.List.{list_any};
ghost use Rattle.oc_effects.specs.View.{effect_view};
ghost use Rattle.oc_needs.specs.CodeView.{rows_view, IsAsked, IsBody};
ghost use Rattle.oc_tree.specs.Members.{IsOf};
ghost use Rattle.oc_regcheck.specs.Inputs.{all_ways, call_way, call_ways, front, inputs, inputs_in, inputs_where, lowest_input, same_sites, way_inputs};
ghost use Rattle.oc_needs.specs.Policies.{policies};
ghost use Rattle.oc_needs.specs.Requirements.{requirements, rising};
ghost use Rattle.oc_needs.specs.View.{requirement_view};

use oc_effects::effect::Effect;
use oc_flow::summary::Summaries;
use oc_needs::asked::{Asked, spoken_of};
use oc_needs::lists::{sort_once, with_inputs};
use oc_needs::local::{Body, body_at, locals};
use oc_needs::need::{needed_in_call, needed_itself, needed_rows};
use oc_needs::policy::policies;
use oc_needs::requirement::Requirement;
use oc_needs::sites::input_sites;
use oc_tree::marked::Policy;
use oc_tree::tree::{StmtId, VarId};
use std::alloc::{AllocError, Global};

/// Whether these are the same sites.
fn is_same(left: &[StmtId], right: &[StmtId]) -> bool
    ensures { result ≡ same_sites left.now right.now }
{
    for i in 0..left.len() {
        if i >= right.len() {
            return false;
        }
        if left[i] != right[i] {
            return false;
        }
    }
    left.len() >= right.len()
}

/// Whether the sites that there may be are these.
fn is_given(sites: &[StmtId], given: &Option<Vec<StmtId>>) -> bool
    ensures { result
        ≡ list_any (same_sites sites.now)
        (option_to_list (option_map (λ v. v.items) given.now)) }
{
    match given {
        Some(given) => is_same(sites, given.as_slice()),
        None => false,
    }
}

/// Adds the inputs of a way, where its sites are these.
fn add_where(
    alloc: Global,
    all: &mut Vec<StmtId>,
    inputs: &[StmtId],
    others: &[StmtId],
    sites: &[StmtId],
) -> Result<(), AllocError>
    ensures { OnOk result
        (all.new.items ≡ all.old.items ++ inputs_where sites.now inputs.now others.now) }
{
    let given = with_inputs(alloc, Vec::from_slice(alloc, inputs)?, others)?;
    if is_given(sites, &given) {
        all.extend_from_slice(inputs)?;
    }
    Ok(())
}

/// Adds the inputs of needed variables, where their sites with the others are these.
fn add_way(
    alloc: Global,
    all: &mut Vec<StmtId>,
    body: &Body,
    needed: &[VarId],
    others: &[StmtId],
    sites: &[StmtId],
) -> Result<(), AllocError>
    requires { IsBody body.now }
    ensures { OnOk result
        (all.new.items ≡ all.old.items
        ++ way_inputs body.now.summaries.now.program body.now.function needed.now others.now
        sites.now) }
{
    let inputs = input_sites(alloc, body, needed)?;
    add_where(alloc, all, inputs.as_slice(), others, sites)?;
    Ok(())
}

/// Adds the inputs at a call.
fn add_call(
    alloc: Global,
    all: &mut Vec<StmtId>,
    body: &Body,
    rows: &[Vec<VarId>],
    effect: &Effect,
    sites: &[StmtId],
) -> Result<(), AllocError>
    requires { IsBody body.now }
    ensures { OnOk result
        (all.new.items ≡ all.old.items
        ++ call_way body.now.summaries.now.program body.now.function (rows_view rows.now) sites.now
        (effect_view effect.now)) }
{
    let variables = body.local.variables.as_slice();
    let needed = needed_in_call(alloc, rows, variables, effect)?;
    let call = [effect.stmt];
    add_way(alloc, all, body, needed.as_slice(), &call, sites)?;
    Ok(())
}

/// Adds the inputs at all calls.
fn add_calls(
    alloc: Global,
    all: &mut Vec<StmtId>,
    body: &Body,
    rows: &[Vec<VarId>],
    effects: &[Effect],
    sites: &[StmtId],
) -> Result<(), AllocError>
    requires { IsBody body.now }
    ensures { OnOk result
        (all.new.items ≡ all.old.items
        ++ call_ways body.now.summaries.now.program body.now.function (rows_view rows.now) sites.now
        (map effect_view effects.now)) }
{
    for effect in effects {
        add_call(alloc, all, body, rows, effect, sites)?;
    }
    Ok(())
}

/// The inputs of all ways of a policy in a function.
fn all_ways(
    alloc: Global,
    body: &Body,
    asked: &Asked,
    rows: &[Vec<VarId>],
    sites: &[StmtId],
) -> Result<Vec<StmtId>, AllocError>
    requires body { IsBody body.now }
    requires asked { IsAsked body.now.summaries.now.program asked.now }
    ensures { IfOk result
        (λ s. s.items
        ≡ all_ways body.now.summaries.now.program asked.now.policy (rows_view rows.now)
        body.now.function sites.now) }
{
    let mut all = Vec::new(alloc);
    let needed = needed_itself(alloc, body, asked)?;
    let held = asked.held.as_slice();
    add_way(alloc, &mut all, body, needed.as_slice(), held, sites)?;
    let effects = body.summaries.effects();
    let statements = effects.of_function(body.function as usize);
    add_calls(alloc, &mut all, body, rows, statements, sites)?;
    Ok(all)
}

/// The inputs of a requirement by its policy.
fn inputs_by(
    alloc: Global,
    summaries: &Summaries,
    policy: Policy,
    requirement: &Requirement,
) -> Result<Vec<StmtId>, AllocError>
    requires { requirement.now.function < length summaries.now.program.functions }
    ensures { IfOk result
        (λ s. rising s.items
        ≡ rising (inputs_in summaries.now.program policy requirement.now.function
        requirement.now.sites.items)) }
{
    // For the proof alone: it tells that the program is checked.
    let _program = summaries.effects().checked().program();
    let asked = spoken_of(alloc, summaries.effects(), policy)?;
    let locals = locals(alloc, summaries)?;
    let known = locals.as_slice();
    let rows = needed_rows(alloc, summaries, known, &asked)?;
    let body = body_at(summaries, known, &[], requirement.function as usize)?;
    let sites = requirement.sites.as_slice();
    let inputs = all_ways(alloc, &body, &asked, rows.as_slice(), sites)?;
    Ok(inputs)
}

/// The inputs of a requirement by these policies, which are all.
fn inputs_of(
    alloc: Global,
    summaries: &Summaries,
    all: &[Policy],
    requirement: &Requirement,
) -> Result<Vec<StmtId>, AllocError>
    requires policies { all.now ≡ policies summaries.now.program }
    requires function { requirement.now.function < length summaries.now.program.functions }
    ensures { IfOk result
        (λ s. rising s.items
        ≡ rising (inputs summaries.now.program (requirement_view requirement.now))) }
{
    // For the proof alone: it tells that the program is checked.
    let _program = summaries.effects().checked().program();
    match all.get(requirement.policy as usize) {
        Some(policy) => inputs_by(alloc, summaries, *policy, requirement),
        None => Ok(Vec::new(alloc)),
    }
}

/// The lowest of these numbers, of which there is one.
fn lowest(mut inputs: Vec<StmtId>) -> StmtId
    requires { front (rising inputs.items) ≢ None }
    ensures { front (rising inputs.items) ≡ Some result }
{
    sort_once(&mut inputs);
    match inputs.first() {
        Some(input) => *input,
        None => unreachable!(),
    }
}

/// The lowest input of a requirement of a program.
pub fn lowest_input(
    alloc: Global,
    summaries: &Summaries,
    requirement: &Requirement,
) -> Result<StmtId, AllocError>
    requires { IsOf (requirement_view requirement.now) (requirements summaries.now.program) }
    ensures { IfOk result
        (λ s. lowest_input summaries.now.program (requirement_view requirement.now) ≡ Some s) }
{
    let policies = policies(alloc, summaries.effects())?;
    let inputs = inputs_of(alloc, summaries, policies.as_slice(), requirement)?;
    Ok(lowest(inputs))
}
