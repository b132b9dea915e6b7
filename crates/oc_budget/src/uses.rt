//! The statements that use a fresh variable.
ghost use Rattle.std.specs.Prelude.{◌≡◌, ◌||◌, ◌&&◌, ℕ, false, map, nat_eq, OnOk, IfOk};
ghost use Rattle.std.specs.List.{list_any};
ghost use Rattle.std.proofs.Math.ListN.{get_or};
ghost use Rattle.oc_tree.specs.declared.tree.VarId.{VarId};
ghost use Rattle.oc_effects.specs.View.{effect_view};
ghost use Rattle.oc_flow.specs.Variables.{same_variable};
ghost use Rattle.oc_budget.specs.Costs.{is_fresh_note, is_use, uses_in};

use crate::tables::mark;
use oc_effects::effect::{Effect, Note};
use oc_effects::effects::Effects;
use oc_flow::numbering::is_among;
use oc_tree::tree::VarId;
use std::alloc::{AllocError, Global};

/// The variables that are annotated `Fresh` among these statements.
fn fresh_variables(alloc: Global, effects: &[Effect]) -> Result<Vec<VarId>, AllocError>
    ensures { IfOk result (λ f. (v : VarId)
        → list_any (same_variable v) f.items
        ≡ list_any (λ b. is_fresh_note v b.note) (map effect_view effects.now)) }
{
    let mut fresh = Vec::new(alloc);
    for effect in effects {
        if let Some(Note::Fresh { var }) = effect.note {
            fresh.push(var)?;
        }
    }
    Ok(fresh)
}

/// Whether one of the named variables is among the fresh ones.
fn names_fresh(fresh: &[VarId], named: &[VarId]) -> bool
    ensures { result ≡ list_any (λ v. list_any (same_variable v) fresh.now) named.now }
{
    for var in named {
        if is_among(*var, fresh) {
            return true;
        }
    }
    false
}

/// Marks those of these statements that name one of these variables.
fn mark_named(fresh: &[VarId], effects: &[Effect], uses: &mut Vec<bool>) -> Result<(), AllocError>
    ensures { OnOk result ((s : ℕ)
        → get_or uses.new.items s false
        ≡ list_any (λ a. nat_eq a.stmt s && list_any (λ v. list_any (same_variable v) fresh.now)
        a.named) (map effect_view effects.now) || get_or uses.old.items s false) }
{
    for effect in effects {
        if names_fresh(fresh, effect.named.as_slice()) {
            mark(uses, effect.stmt)?;
        }
    }
    Ok(())
}

/// Marks those of a function's statements that use a fresh variable.
fn mark_uses(alloc: Global, effects: &[Effect], uses: &mut Vec<bool>) -> Result<(), AllocError>
    ensures { OnOk result ((s : ℕ)
        → get_or uses.new.items s false
        ≡ uses_in s (map effect_view effects.now) || get_or uses.old.items s false) }
{
    let fresh = fresh_variables(alloc, effects)?;
    mark_named(fresh.as_slice(), effects, uses)?;
    Ok(())
}

/// The table of the statements that use a fresh variable.
pub fn use_table(alloc: Global, effects: &Effects) -> Result<Vec<bool>, AllocError>
    ensures { IfOk result (λ u. (s : ℕ) → get_or u.items s false ≡ is_use effects.now.program s) }
{
    let mut uses = Vec::new(alloc);
    for function in 0..effects.functions() {
        mark_uses(alloc, effects.of_function(function), &mut uses)?;
    }
    Ok(uses)
}
