//! All requirements of a program.
ghost use Rattle.std.specs.Prelude.{◌≡◌, ◌<◌, ℕ, ◌+◌, ◌-◌, ◌++◌, map, length, option_map, option_to_list, IfOk, OnOk};
ghost use Rattle.oc_effects.specs.Effects.{effects_at};
ghost use Rattle.oc_effects.specs.View.{effect_view};
ghost use Rattle.oc_tree.specs.declared.marked.Policy.{Policy};
ghost use Rattle.oc_tree.specs.declared.tree.VarId.{VarId};
ghost use Rattle.oc_flow.specs.Laws.{Decides};
ghost use Rattle.oc_flow.specs.Variables.{from};
ghost use Rattle.oc_needs.specs.Code.{added, all_locals, call_list, call_lists, lists_in, looped_at, own_list, required_by, required_by_from, required_here, requirements_in, sites_for};
ghost use Rattle.oc_needs.specs.CodeView.{local_view, rows_view, sites_view, tables_view, IsAsked, IsBody};
ghost use Rattle.oc_needs.specs.Need.{Need, needs};
ghost use Rattle.oc_needs.specs.Requirements.{in_order, requirements};
ghost use Rattle.oc_needs.specs.View.{requirement_view};

use crate::asked::{Asked, spoken_of};
use crate::lists::{add_list, with_inputs};
use crate::local::{Body, Local, body_at, locals};
use crate::looped::all_looped;
use crate::need::{calls, is_any_needed, needed_in_call, needed_itself, needed_rows};
use crate::place::number_of;
use crate::policy::policies;
use crate::requirement::Requirement;
use crate::sites::input_sites;
use oc_effects::effect::Effect;
use oc_flow::summary::Summaries;
use oc_io::Memory;
use oc_tree::checked::Checked;
use oc_tree::marked::Policy;
use oc_tree::tree::{StmtId, VarId};
use std::alloc::{AllocError, Global};

/// The sites that needed variables require together with other statements.
fn sites_for(
    alloc: Global,
    body: &Body,
    needed: &[VarId],
    others: &[StmtId],
) -> Result<Option<Vec<StmtId>>, AllocError>
    requires { IsBody body.now }
    ensures { IfOk result
        (λ s. option_to_list (option_map (λ v. v.items) s)
        ≡ sites_for body.now.summaries.now.program body.now.function needed.now others.now) }
{
    let inputs = input_sites(alloc, body, needed)?;
    with_inputs(alloc, inputs, others)
}

/// The sites of a policy in its own function; none in another one.
fn own_sites(alloc: Global, body: &Body, asked: &Asked) -> Result<Option<Vec<StmtId>>, AllocError>
    requires body { IsBody body.now }
    requires asked { IsAsked body.now.summaries.now.program asked.now }
    ensures { IfOk result
        (λ s. option_to_list (option_map (λ v. v.items) s)
        ≡ own_list body.now.summaries.now.program asked.now.policy body.now.function) }
{
    let needed = needed_itself(alloc, body, asked)?;
    sites_for(alloc, body, needed.as_slice(), asked.held.as_slice())
}

/// The sites at a call.
fn call_sites(
    alloc: Global,
    body: &Body,
    rows: &[Vec<VarId>],
    effect: &Effect,
) -> Result<Option<Vec<StmtId>>, AllocError>
    requires { IsBody body.now }
    ensures { IfOk result
        (λ s. option_to_list (option_map (λ v. v.items) s)
        ≡ call_list body.now.summaries.now.program body.now.function (rows_view rows.now)
        (effect_view effect.now)) }
{
    let variables = body.local.variables.as_slice();
    let needed = needed_in_call(alloc, rows, variables, effect)?;
    let call = [effect.stmt];
    sites_for(alloc, body, needed.as_slice(), &call)
}

/// Adds sites to lists in order, if there are any.
fn add_sites(lists: &mut Vec<Vec<StmtId>>, sites: Option<Vec<StmtId>>) -> Result<(), AllocError>
    ensures { OnOk result
        (sites_view lists.new.items ≡ added (option_to_list (option_map (λ v. v.items) sites))
        (sites_view lists.old.items)) }
{
    match sites {
        Some(sites) => add_list(lists, sites),
        None => Ok(()),
    }
}

/// Adds the sites at a statement, if it is a call.
fn add_call_sites(
    alloc: Global,
    lists: &mut Vec<Vec<StmtId>>,
    body: &Body,
    rows: &[Vec<VarId>],
    effect: &Effect,
) -> Result<(), AllocError>
    requires { IsBody body.now }
    ensures { OnOk result
        (sites_view lists.new.items
        ≡ added (call_list body.now.summaries.now.program body.now.function (rows_view rows.now)
        (effect_view effect.now)) (sites_view lists.old.items)) }
{
    if !calls(effect) {
        return Ok(());
    }
    let sites = call_sites(alloc, body, rows, effect)?;
    add_sites(lists, sites)?;
    Ok(())
}

/// The sites at all calls of a function. It goes from the last to the first, as most calls then come
/// in front.
fn call_lists(
    alloc: Global,
    body: &Body,
    rows: &[Vec<VarId>],
    effects: &[Effect],
) -> Result<Vec<Vec<StmtId>>, AllocError>
    requires { IsBody body.now }
    ensures { IfOk result
        (λ l. sites_view l.items
        ≡ in_order
        (call_lists body.now.summaries.now.program body.now.function (rows_view rows.now)
        (map effect_view effects.now))) }
{
    let mut lists = Vec::new(alloc);
    let count = effects.len();
    for behind in 0..count {
        let effect = &effects[count - 1 - behind];
        add_call_sites(alloc, &mut lists, body, rows, effect)?;
    }
    Ok(lists)
}

/// The sites at all calls of a function. It goes over its statements only where something is needed
/// of a function that it calls.
fn lists_below(
    alloc: Global,
    body: &Body,
    rows: &[Vec<VarId>],
) -> Result<Vec<Vec<StmtId>>, AllocError>
    requires { IsBody body.now }
    ensures { IfOk result
        (λ l. sites_view l.items
        ≡ in_order
        (call_lists body.now.summaries.now.program body.now.function (rows_view rows.now)
        (effects_at body.now.summaries.now.program body.now.function))) }
{
    if !is_any_needed(rows, body.local.callees.as_slice()) {
        return Ok(Vec::new(alloc));
    }
    let effects = body.summaries.effects();
    let statements = effects.of_function(body.function as usize);
    let lists = call_lists(alloc, body, rows, statements)?;
    Ok(lists)
}

/// All sites of a policy in a function.
fn lists_in(
    alloc: Global,
    body: &Body,
    asked: &Asked,
    rows: &[Vec<VarId>],
) -> Result<Vec<Vec<StmtId>>, AllocError>
    requires body { IsBody body.now }
    requires asked { IsAsked body.now.summaries.now.program asked.now }
    ensures { IfOk result
        (λ l. sites_view l.items
        ≡ lists_in body.now.summaries.now.program asked.now.policy (rows_view rows.now)
        body.now.function) }
{
    let mut lists = lists_below(alloc, body, rows)?;
    let own = own_sites(alloc, body, asked)?;
    add_sites(&mut lists, own)?;
    Ok(lists)
}

/// Adds requirements of these sites.
fn add_requirements(
    required: &mut Vec<Requirement>,
    policy: u32,
    function: u32,
    lists: Vec<Vec<StmtId>>,
) -> Result<(), AllocError>
    ensures { OnOk result
        (map requirement_view required.new.items
        ≡ map requirement_view required.old.items
        ++ requirements_in policy function (sites_view lists.items)) }
{
    for sites in lists {
        required.push(Requirement {
            policy,
            function,
            sites,
        })?;
    }
    Ok(())
}

/// Adds the requirements of a policy in a function.
fn add_in_function(
    alloc: Global,
    required: &mut Vec<Requirement>,
    policy: u32,
    body: &Body,
    asked: &Asked,
    rows: &[Vec<VarId>],
) -> Result<(), AllocError>
    requires body { IsBody body.now }
    requires asked { IsAsked body.now.summaries.now.program asked.now }
    ensures { OnOk result
        (map requirement_view required.new.items
        ≡ map requirement_view required.old.items
        ++ required_here body.now.summaries.now.program policy asked.now.policy (rows_view rows.now)
        body.now.function) }
{
    let lists = lists_in(alloc, body, asked, rows)?;
    add_requirements(required, policy, body.function, lists)?;
    Ok(())
}

/// Adds the requirements of a policy.
fn add_of_policy(
    alloc: Global,
    required: &mut Vec<Requirement>,
    policy: u32,
    asked: &Asked,
    summaries: &Summaries,
    locals: &[Local],
    looped: &[Vec<Vec<StmtId>>],
) -> Result<(), AllocError>
    requires locals { map local_view locals.now ≡ all_locals summaries.now.program }
    requires looped { tables_view looped.now
        ≡ map (looped_at summaries.now.program) (from 0 (length looped.now)) }
    requires asked { IsAsked summaries.now.program asked.now }
    ensures { OnOk result
        (map requirement_view required.new.items
        ≡ map requirement_view required.old.items
        ++ required_by summaries.now.program policy asked.now.policy) }
{
    let rows = needed_rows(alloc, summaries, locals, asked)?;
    for function in 0..locals.len() {
        let body = body_at(summaries, locals, looped, function)?;
        add_in_function(alloc, required, policy, &body, asked, rows.as_slice())?;
    }
    Ok(())
}

/// Adds the requirements of the policy of a number.
fn add_numbered(
    alloc: Global,
    required: &mut Vec<Requirement>,
    number: usize,
    policy: Policy,
    summaries: &Summaries,
    locals: &[Local],
    looped: &[Vec<Vec<StmtId>>],
) -> Result<(), AllocError>
    requires locals { map local_view locals.now ≡ all_locals summaries.now.program }
    requires looped { tables_view looped.now
        ≡ map (looped_at summaries.now.program) (from 0 (length looped.now)) }
    ensures { OnOk result
        (map requirement_view required.new.items
        ≡ map requirement_view required.old.items
        ++ required_by summaries.now.program number policy) }
{
    let number = number_of(number)?;
    let asked = spoken_of(alloc, summaries.effects(), policy)?;
    add_of_policy(alloc, required, number, &asked, summaries, locals, looped)?;
    Ok(())
}

/// The requirements of these policies.
fn required_by(
    alloc: Global,
    policies: &[Policy],
    summaries: &Summaries,
) -> Result<Vec<Requirement>, AllocError>
    ensures { IfOk result
        (λ r. map requirement_view r.items
        ≡ required_by_from summaries.now.program 0 policies.now) }
{
    if policies.is_empty() {
        return Ok(Vec::new(alloc));
    }
    let locals = locals(alloc, summaries)?;
    let known = locals.as_slice();
    let looped = all_looped(alloc, summaries, known)?;
    let mut required = Vec::new(alloc);
    for number in 0..policies.len() {
        add_numbered(
            alloc,
            &mut required,
            number,
            policies[number],
            summaries,
            known,
            looped.as_slice(),
        )?;
    }
    Ok(required)
}

/// The requirements of all policies of a program. Err is want of memory.
fn all_required(alloc: Global, summaries: &Summaries) -> Result<Vec<Requirement>, AllocError>
    ensures { IfOk result (λ r. map requirement_view r.items ≡ requirements summaries.now.program) }
{
    let effects = summaries.effects();
    // For the proof alone: it tells that the program is checked.
    let _program = effects.checked().program();
    let policies = policies(alloc, effects)?;
    let required = required_by(alloc, policies.as_slice(), summaries)?;
    Ok(required)
}

/// The requirements of a program whose flow is known: by policy, then by function, then by their
/// sites.
pub fn requirements(
    alloc: Global,
    checked: &Checked,
    summaries: &Summaries,
) -> Result<Vec<Requirement>, Memory>
    requires { summaries.now ≡ checked.now }
    ensures requirements { IfOk result
        (λ r. map requirement_view r.items ≡ requirements checked.now.program) }
    // The test of need decides the relation.
    ensures need { IfOk result (λ r. (q : Policy) (f : ℕ) (w : VarId)
        → Decides (needs checked.now.program q f w) (Need checked.now.program q f w)) }
{
    // For the proof alone: it tells that the program is checked.
    let _program = checked.program();
    match all_required(alloc, summaries) {
        Ok(required) => Ok(required),
        Err(_) => Err(Memory),
    }
}
