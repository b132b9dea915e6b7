//! Policies with what they speak of.
ghost use Rattle.std.specs.Prelude.{◌≡◌, map, IfOk};
ghost use Rattle.oc_effects.specs.Effects.{effects_at};
ghost use Rattle.oc_effects.specs.View.{effect_view};
ghost use Rattle.oc_needs.specs.Policies.{is_held, is_note_of, note_variable};
ghost use Rattle.oc_needs.specs.Code.{annotated_by, held_by};
ghost use Rattle.oc_needs.specs.CodeView.{IsAsked};

use crate::place::function_count;
use crate::policy::{is_same_kind, kind_of};
use oc_effects::effect::{Effect, Note};
use oc_effects::effects::Effects;
use oc_flow::numbering::is_among;
use oc_tree::marked::{Policy, PolicyKind};
use oc_tree::tree::{StmtId, VarId};
use std::alloc::{AllocError, Global};

/// A policy, the variables of its annotations, and the statements that must be held together with
/// their inputs.
#[derive(Drop)]
pub struct Asked {
    pub policy: Policy,
    pub annotated: Vec<VarId>,
    pub held: Vec<StmtId>,
}

/// The variable that an annotation names.
fn variable_of(note: Note) -> VarId
    ensures { result ≡ note_variable note }
{
    match note {
        Note::Fresh { var } => var,
        Note::Consistent { var, id: _ } => var,
    }
}

/// Whether a statement is an annotation of a policy.
fn is_note_of(kind: PolicyKind, effect: &Effect) -> bool
    ensures { result ≡ is_note_of kind (effect_view effect.now).note }
{
    match effect.note {
        Some(note) => is_same_kind(kind, kind_of(note)),
        None => false,
    }
}

/// Whether a statement must be held together with the inputs: one that names a fresh variable, or an
/// annotation of a consistent set.
fn is_held(kind: PolicyKind, effect: &Effect) -> bool
    ensures { result ≡ is_held kind (effect_view effect.now) }
{
    match kind {
        PolicyKind::Fresh { var } => is_among(var, effect.named.as_slice()),
        PolicyKind::Consistent { id: _ } => is_note_of(kind, effect),
    }
}

/// The variables that the annotations of a policy of this kind name, in the order of these
/// statements. Err is want of memory.
fn annotated_by(
    alloc: Global,
    kind: PolicyKind,
    effects: &[Effect],
) -> Result<Vec<VarId>, AllocError>
    ensures { IfOk result (λ v. v.items ≡ annotated_by kind (map effect_view effects.now)) }
{
    let mut annotated = Vec::new(alloc);
    for effect in effects {
        if is_note_of(kind, effect) {
            if let Some(note) = effect.note {
                annotated.push(variable_of(note))?;
            }
        }
    }
    Ok(annotated)
}

/// Those of these statements that must be held together with the inputs of a policy of this kind.
/// Err is want of memory.
fn held_by(alloc: Global, kind: PolicyKind, effects: &[Effect]) -> Result<Vec<StmtId>, AllocError>
    ensures { IfOk result (λ s. s.items ≡ held_by kind (map effect_view effects.now)) }
{
    let mut held = Vec::new(alloc);
    for effect in effects {
        if is_held(kind, effect) {
            held.push(effect.stmt)?;
        }
    }
    Ok(held)
}

/// The effects of a function; none where there is no such function.
fn effects_of<'e>(effects: &'e Effects, function: usize) -> &'e [Effect]
    ensures { map effect_view result.now ≡ effects_at effects.now.program function }
{
    if function < function_count(effects) {
        effects.of_function(function)
    } else {
        &[]
    }
}

/// A policy of a program, with what it speaks of.
pub fn spoken_of(alloc: Global, effects: &Effects, policy: Policy) -> Result<Asked, AllocError>
    ensures asked { IfOk result (IsAsked effects.now.program) }
    ensures policy { IfOk result (λ a. a.policy ≡ policy) }
{
    let statements = effects_of(effects, policy.function as usize);
    let annotated = annotated_by(alloc, policy.kind, statements)?;
    let held = held_by(alloc, policy.kind, statements)?;
    Ok(Asked {
        policy,
        annotated,
        held,
    })
}
