//! Which variables of a function lead to which by its statements.
ghost use Rattle.std.specs.Prelude.{◌≡◌, ◌<◌, ◌&&◌, length, map, Option, Some};
ghost use Rattle.std.proofs.Math.ListN.{get_or};
ghost use Rattle.std.specs.List.{list_all, list_any};
ghost use Rattle.oc_tree.specs.declared.tree.VarId.{VarId};
ghost use Rattle.oc_tree.specs.declared.tree.VarId.TheVariants.{Returned};
ghost use Rattle.oc_effects.specs.View.{called_view, effect_view};
ghost use Rattle.oc_flow.specs.Variables.{arg_at, begins, is_among, same_variable};
ghost use Rattle.oc_flow.specs.Flow.{leads_by_value};
ghost use Rattle.oc_flow.specs.Known.{Adds, is_ready, leads_along, leads_called, leads_from, leads_known, leads_to_callee};

use crate::known::{Known, end_of};
use crate::table::Table;
use oc_effects::effect::{Called, Effect};
use oc_tree::tree::VarId;

/// Lets all these variables lead to one.
fn link_all(table: &mut Table, from: &[VarId], t: VarId)
    ensures { Adds (λ a b. is_among a from.now && same_variable b t) table.old table.new }
{
    for u in from {
        table.link(*u, t);
    }
}

/// Lets the variables that an argument names lead to one; none where there is no such argument.
fn link_named(table: &mut Table, call: &Called, i: u32, t: VarId)
    ensures { Adds (λ a b. is_among a (arg_at (called_view call.now) i).named && same_variable b t)
        table.old table.new }
{
    if let Some(arg) = call.args.get(i as usize) {
        link_all(table, arg.named.as_slice(), t);
    }
}

/// Lets the variables that stand for a callee's variable lead to one.
fn link_begins(table: &mut Table, call: &Called, x: VarId, t: VarId)
    ensures { Adds (λ a b. begins (called_view call.now) x a && same_variable b t) table.old
        table.new }
{
    match x {
        VarId::Nv { .. } => table.link(x, t),
        VarId::Param { index } => link_named(table, call, index, t),
        VarId::Declared { .. } | VarId::Returned => {}
    }
}

/// Lets variables lead to the one that a statement sets, by the value that it sets it to.
fn value_leads(table: &mut Table, effect: &Effect)
    ensures { Adds (leads_by_value (effect_view effect.now)) table.old table.new }
{
    if let Some(t) = effect.target {
        link_all(table, effect.sources.as_slice(), t);
    }
}

/// Two variables that a callee doesn't declare, by their places.
#[derive(Clone, Copy)]
struct Flow {
    from: usize,
    to: usize,
}

/// By a callee's variables, where one flows into the other.
fn leads_along(table: &mut Table, callee: &Known, effect: &Effect, call: &Called, flow: Flow)
    requires from { flow.from < length callee.now.outer }
    requires to { flow.to < length callee.now.outer }
    ensures { Adds (leads_along callee.now (effect_view effect.now) (called_view call.now)
        (get_or callee.now.outer flow.from Returned) (get_or callee.now.outer flow.to Returned))
        table.old table.new }
{
    if callee.flows_at(flow.from, flow.to) {
        if let Some(t) = end_of(effect, call, callee.outer()[flow.to]) {
            link_begins(table, call, callee.outer()[flow.from], t);
        }
    }
}

/// By the flows of a callee's variable.
fn leads_from(table: &mut Table, callee: &Known, effect: &Effect, call: &Called, from: usize)
    requires { from < length callee.now.outer }
    ensures { Adds (leads_from callee.now (effect_view effect.now) (called_view call.now)
        (get_or callee.now.outer from Returned)) table.old table.new }
{
    for to in 0..callee.outer().len() {
        leads_along(table, callee, effect, call, Flow { from, to });
    }
}

/// Lets the caller's variables lead to others by what is known of the called function.
fn leads_to_callee(table: &mut Table, callee: &Known, effect: &Effect, call: &Called)
    ensures { Adds (λ a b. list_any
        (λ x. leads_from callee.now (effect_view effect.now) (called_view call.now) x a b)
        callee.now.outer) table.old table.new }
{
    for from in 0..callee.outer().len() {
        leads_from(table, callee, effect, call, from);
    }
}

/// Lets the caller's variables lead to others by a call; to none where the called function isn't
/// known.
fn call_leads(table: &mut Table, known: &[Option<Known>], effect: &Effect, call: &Called)
    ensures { Adds (leads_called known.now (effect_view effect.now) (Some (called_view call.now)))
        table.old table.new }
{
    if let Some(Some(callee)) = known.get(call.function as usize) {
        leads_to_callee(table, callee, effect, call);
    }
}

/// Lets variables lead to others by one statement: by its value, and by its call.
fn effect_leads(table: &mut Table, known: &[Option<Known>], effect: &Effect)
    ensures { Adds (leads_known known.now (effect_view effect.now)) table.old table.new }
{
    value_leads(table, effect);
    if let Some(call) = &effect.call {
        call_leads(table, known, effect, call);
    }
}

/// Lets variables lead to others by all statements of a function.
pub fn all_leads(table: &mut Table, known: &[Option<Known>], effects: &[Effect])
    ensures { Adds (λ a b. list_any (λ e. leads_known known.now e a b)
        (map effect_view effects.now)) table.old table.new }
{
    for effect in effects {
        effect_leads(table, known, effect);
    }
}

/// Whether the function that a statement calls is known, or it calls none.
fn is_known(known: &[Option<Known>], effect: &Effect) -> bool
    ensures { result ≡ is_ready known.now (effect_view effect.now).call }
{
    match &effect.call {
        Some(call) => match known.get(call.function as usize) {
            Some(callee) => callee.is_some(),
            None => false,
        },
        None => true,
    }
}

/// Whether all callees of a function are known.
pub fn all_known(known: &[Option<Known>], effects: &[Effect]) -> bool
    ensures { result ≡ list_all (λ e. is_ready known.now e.call) (map effect_view effects.now) }
{
    for effect in effects {
        if !is_known(known, effect) {
            return false;
        }
    }
    true
}
