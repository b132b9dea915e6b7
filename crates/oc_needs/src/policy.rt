//! Policies.
ghost use Rattle.std.specs.Prelude.{◌≡◌, ◌<◌, [], ◌∷◌, map, length, IfOk, OnOk};
ghost use Rattle.std.specs.List.{list_any};
ghost use Rattle.oc_effects.specs.Effects.{effects_at};
ghost use Rattle.oc_effects.specs.View.{effect_view};
ghost use Rattle.oc_needs.specs.Code.{asked_by};
ghost use Rattle.oc_needs.specs.Policies.{each_once, kind_of_note, policies, same_kind, same_policy};

use crate::place::{function_count, number_of};
use oc_effects::effect::{Effect, Note};
use oc_effects::effects::Effects;
use oc_flow::numbering::is_same;
use oc_tree::marked::{Policy, PolicyKind};
use std::alloc::{AllocError, Global};

/// Whether two policies of one function ask for the same.
pub fn is_same_kind(a: PolicyKind, b: PolicyKind) -> bool
    ensures { result ≡ same_kind a b }
{
    match (a, b) {
        (PolicyKind::Fresh { var: v }, PolicyKind::Fresh { var: w }) => is_same(v, w),
        (PolicyKind::Consistent { id: k }, PolicyKind::Consistent { id: j }) => k == j,
        _ => false,
    }
}

/// Whether two policies are of one function and ask for the same.
fn is_same_policy(a: Policy, b: Policy) -> bool
    ensures { result ≡ same_policy a b }
{
    a.function == b.function && is_same_kind(a.kind, b.kind)
}

/// What an annotation asks for.
pub fn kind_of(note: Note) -> PolicyKind
    ensures { result ≡ kind_of_note note }
{
    match note {
        Note::Fresh { var } => PolicyKind::Fresh { var },
        Note::Consistent { var: _, id } => PolicyKind::Consistent { id },
    }
}

/// Whether a policy is among those that were seen.
fn is_seen(policy: Policy, seen: &[Policy]) -> bool
    ensures { result ≡ list_any (same_policy policy) seen.now }
{
    seen.iter().any(|other| is_same_policy(policy, *other))
}

/// One more policy, unless it was seen.
fn add(seen: &mut Vec<Policy>, policy: Policy) -> Result<(), AllocError>
    ensures { OnOk result (seen.new.items ≡ each_once seen.old.items (policy ∷ [])) }
{
    if is_seen(policy, seen.as_slice()) {
        return Ok(());
    }
    seen.push(policy)?;
    Ok(())
}

/// The policies of the annotations in a function.
fn add_all(seen: &mut Vec<Policy>, function: u32, effects: &[Effect]) -> Result<(), AllocError>
    ensures { OnOk result
        (seen.new.items ≡ each_once seen.old.items
        (asked_by function (map effect_view effects.now))) }
{
    for effect in effects {
        if let Some(note) = effect.note {
            let kind = kind_of(note);
            add(seen, Policy { function, kind })?;
        }
    }
    Ok(())
}

/// The policies of the annotations in the function at a place.
fn add_function(
    seen: &mut Vec<Policy>,
    effects: &Effects,
    function: usize,
) -> Result<(), AllocError>
    requires { function < length effects.now.program.functions }
    ensures { OnOk result
        (seen.new.items ≡ each_once seen.old.items
        (asked_by function (effects_at effects.now.program function))) }
{
    let number = number_of(function)?;
    add_all(seen, number, effects.of_function(function))?;
    Ok(())
}

/// The policies of a program, in the order of their first annotations.
pub fn policies(alloc: Global, effects: &Effects) -> Result<Vec<Policy>, AllocError>
    ensures { IfOk result (λ q. q.items ≡ policies effects.now.program) }
{
    let mut seen = Vec::new(alloc);
    for function in 0..function_count(effects) {
        add_function(&mut seen, effects, function)?;
    }
    Ok(seen)
}
