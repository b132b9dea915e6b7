//! Where the inputs of variables count as taken.
ghost use Rattle.std.specs.Prelude.{◌≡◌, ◌<◌, ◌++◌, [], flat_map, map, length, IfOk, IfSome, OnOk};
ghost use Rattle.std.specs.List.{list_any};
ghost use Rattle.std.proofs.Math.ListN.{get_or};
ghost use Rattle.oc_effects.specs.Effects.{effects_at};
ghost use Rattle.oc_flow.specs.Flow.{flows};
ghost use Rattle.oc_needs.specs.Sites.{carries, stands_in};
ghost use Rattle.oc_needs.specs.Code.{all_sites_once, asks_at, flows_to_some, is_outside_by, lifts_by, looped_sites, sites_between, sites_from, sites_inside, sites_outside, source_site, sources};
ghost use Rattle.oc_needs.specs.CodeView.{sites_view, source_view, IsBody};

use crate::lists::sort_once;
use crate::local::{Body, Source};
use oc_flow::numbering::is_same;
use oc_tree::tree::{StmtId, VarId};
use std::alloc::{AllocError, Global};

/// Whether `u` flows into `v` in a function.
pub fn flows(body: &Body, u: VarId, v: VarId) -> bool
    ensures { result ≡ flows body.now.summaries.now.program body.now.function u v }
{
    body.summaries.flows(body.function, u, v)
}

/// Whether the statement of a number stands in the loop of a number.
fn is_inside(body: &Body, outer: StmtId, s: StmtId) -> bool
    requires { IsBody body.now }
    ensures { result
        ≡ asks_at (stands_in outer) body.now.summaries.now.program body.now.function s }
{
    match body.summaries.effects().find_in(body.function as usize, s) {
        Some(effect) => effect.around.contains(&outer),
        None => false,
    }
}

/// Whether a variable is declared outside a loop.
fn is_outside(body: &Body, outer: StmtId, v: VarId) -> bool
    requires { IsBody body.now }
    ensures { result ≡ is_outside_by body.now.summaries.now.program body.now.function outer v }
{
    match v {
        VarId::Declared { stmt } => !is_inside(body, outer, stmt),
        _ => true,
    }
}

/// Whether `w` carries what comes into `u` on to `x`.
fn carries(body: &Body, u: VarId, x: VarId, w: VarId) -> bool
    ensures { result ≡ carries body.now.summaries.now.program body.now.function u x w }
{
    flows(body, u, w) && flows(body, w, x)
}

/// Whether a carrier is declared outside a loop.
fn lifts(body: &Body, u: VarId, x: VarId, outer: StmtId) -> bool
    requires { IsBody body.now }
    ensures { result ≡ lifts_by body.now.summaries.now.program body.now.function u x outer }
{
    body.local
        .variables
        .iter()
        .any(|w| carries(body, u, x, *w) && is_outside(body, outer, *w))
}

/// Where the input of a statement into `u` counts as taken for `x`: at the outermost loop out of which
/// a carrier comes, or at the statement itself.
fn site(body: &Body, source: &Source, u: VarId, x: VarId) -> StmtId
    requires { IsBody body.now }
    ensures { result
        ≡ source_site body.now.summaries.now.program body.now.function (source_view source.now) u
        x }
{
    for outer in &source.loops {
        if lifts(body, u, x, *outer) {
            return *outer;
        }
    }
    source.stmt
}

/// Adds the sites of the input of a statement into `u` for variables into which it flows.
fn add_sites_between(
    sites: &mut Vec<StmtId>,
    body: &Body,
    source: &Source,
    u: VarId,
    variables: &[VarId],
) -> Result<(), AllocError>
    requires { IsBody body.now }
    ensures { OnOk result
        (sites.new.items ≡ sites.old.items
        ++ sites_between body.now.summaries.now.program body.now.function (source_view source.now) u
        variables.now) }
{
    for x in variables {
        if flows(body, u, *x) {
            sites.push(site(body, source, u, *x))?;
        }
    }
    Ok(())
}

/// Adds the sites of the inputs of a statement, for each of them and each variable.
fn add_each_site(
    sites: &mut Vec<StmtId>,
    body: &Body,
    source: &Source,
    variables: &[VarId],
) -> Result<(), AllocError>
    requires { IsBody body.now }
    ensures { OnOk result
        (sites.new.items ≡ sites.old.items
        ++ sites_from body.now.summaries.now.program body.now.function variables.now
        (source_view source.now) source.now.brought.items) }
{
    for u in &source.brought {
        add_sites_between(sites, body, source, *u, variables)?;
    }
    Ok(())
}

/// Whether `u` flows into one of these.
fn flows_to_some(body: &Body, u: VarId, variables: &[VarId]) -> bool
    ensures { result
        ≡ flows_to_some body.now.summaries.now.program body.now.function variables.now u }
{
    variables.iter().any(|x| flows(body, u, *x))
}

/// Whether some input of a statement flows into one of these.
fn some_flows(body: &Body, brought: &[VarId], variables: &[VarId]) -> bool
    ensures { result
        ≡ list_any (flows_to_some body.now.summaries.now.program body.now.function variables.now)
        brought.now }
{
    brought.iter().any(|u| flows_to_some(body, *u, variables))
}

/// Adds the site of the inputs of a statement in no loop, which is the statement itself.
fn add_outside(
    sites: &mut Vec<StmtId>,
    body: &Body,
    source: &Source,
    variables: &[VarId],
) -> Result<(), AllocError>
    ensures { OnOk result
        (sites.new.items ≡ sites.old.items
        ++ sites_outside body.now.summaries.now.program body.now.function variables.now
        (source_view source.now)) }
{
    if !source.loops.is_empty() {
        return Ok(());
    }
    if some_flows(body, source.brought.as_slice(), variables) {
        sites.push(source.stmt)?;
    }
    Ok(())
}

/// The sites of the inputs of statements in no loop.
fn outside_sites(
    alloc: Global,
    body: &Body,
    sources: &[Source],
    variables: &[VarId],
) -> Result<Vec<StmtId>, AllocError>
    ensures { IfOk result
        (λ s. s.items
        ≡ flat_map (sites_outside body.now.summaries.now.program body.now.function variables.now)
        (map source_view sources.now)) }
{
    let mut sites = Vec::new(alloc);
    for source in sources {
        add_outside(&mut sites, body, source, variables)?;
    }
    Ok(sites)
}

/// Adds the sites of the inputs of a statement in loops for a variable.
fn add_inside(
    sites: &mut Vec<StmtId>,
    body: &Body,
    source: &Source,
    x: VarId,
) -> Result<(), AllocError>
    requires { IsBody body.now }
    ensures { OnOk result
        (sites.new.items ≡ sites.old.items
        ++ sites_inside body.now.summaries.now.program body.now.function x
        (source_view source.now)) }
{
    if source.loops.is_empty() {
        return Ok(());
    }
    let variables = [x];
    add_each_site(sites, body, source, &variables)
}

/// The sites of the inputs of statements in loops for a variable, in the order of the statements.
fn inside_sites(
    alloc: Global,
    body: &Body,
    sources: &[Source],
    x: VarId,
) -> Result<Vec<StmtId>, AllocError>
    requires { IsBody body.now }
    ensures { IfOk result
        (λ s. s.items
        ≡ flat_map (sites_inside body.now.summaries.now.program body.now.function x)
        (map source_view sources.now)) }
{
    let mut sites = Vec::new(alloc);
    for source in sources {
        add_inside(&mut sites, body, source, x)?;
    }
    Ok(sites)
}

/// The sites of inputs in loops for a variable, each once.
pub fn looped_sites(alloc: Global, body: &Body, x: VarId) -> Result<Vec<StmtId>, AllocError>
    requires { IsBody body.now }
    ensures { IfOk result
        (λ s. s.items
        ≡ looped_sites body.now.summaries.now.program body.now.function
        (sources body.now.summaries.now.program body.now.function
        (effects_at body.now.summaries.now.program body.now.function)) x) }
{
    if !body.local.has_looped {
        return Ok(Vec::new(alloc));
    }
    let mut sites = inside_sites(alloc, body, body.local.sources.as_slice(), x)?;
    sort_once(&mut sites);
    Ok(sites)
}

/// The place of a variable among those of a function.
fn place_of(variables: &[VarId], x: VarId) -> Option<usize>
    ensures { IfSome result (λ i. (i < length variables.now) × (get_or variables.now i x ≡ x)) }
{
    for i in 0..variables.len() {
        if is_same(variables[i], x) {
            return Some(i);
        }
    }
    None
}

/// The sites at a place, where they are known.
fn sites_at<'r>(rows: &'r [Vec<StmtId>], place: usize) -> Option<&'r [StmtId]>
    ensures { IfSome result (λ s. (place < length rows.now)
        × (s.now ≡ get_or (sites_view rows.now) place [])) }
{
    match rows.get(place) {
        Some(sites) => Some(sites.as_slice()),
        None => None,
    }
}

/// The sites of inputs in loops for a variable, where they are known.
fn known_sites<'b>(body: &'b Body, x: VarId) -> Option<&'b [StmtId]>
    requires { IsBody body.now }
    ensures { IfSome result
        (λ s. s.now
        ≡ looped_sites body.now.summaries.now.program body.now.function
        (sources body.now.summaries.now.program body.now.function
        (effects_at body.now.summaries.now.program body.now.function)) x) }
{
    match place_of(body.local.variables.as_slice(), x) {
        Some(place) => {
            let known = sites_at(body.looped, place);
            known
        }
        None => None,
    }
}

/// Adds the sites of inputs in loops for a variable.
fn add_looped(
    alloc: Global,
    sites: &mut Vec<StmtId>,
    body: &Body,
    x: VarId,
) -> Result<(), AllocError>
    requires { IsBody body.now }
    ensures { OnOk result
        (sites.new.items ≡ sites.old.items
        ++ looped_sites body.now.summaries.now.program body.now.function
        (sources body.now.summaries.now.program body.now.function
        (effects_at body.now.summaries.now.program body.now.function)) x) }
{
    match known_sites(body, x) {
        Some(known) => {
            sites.extend_from_slice(known)?;
            Ok(())
        }
        None => {
            let made = looped_sites(alloc, body, x)?;
            sites.extend_from_slice(made.as_slice())?;
            Ok(())
        }
    }
}

/// The sites of the local inputs of variables.
pub fn input_sites(
    alloc: Global,
    body: &Body,
    variables: &[VarId],
) -> Result<Vec<StmtId>, AllocError>
    requires { IsBody body.now }
    ensures { IfOk result
        (λ s. s.items
        ≡ all_sites_once body.now.summaries.now.program body.now.function variables.now
        (sources body.now.summaries.now.program body.now.function
        (effects_at body.now.summaries.now.program body.now.function))) }
{
    if variables.is_empty() {
        return Ok(Vec::new(alloc));
    }
    let mut sites = outside_sites(alloc, body, body.local.sources.as_slice(), variables)?;
    for x in variables {
        add_looped(alloc, &mut sites, body, *x)?;
    }
    Ok(sites)
}
