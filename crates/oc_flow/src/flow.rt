//! Flow and input in all functions of a program.
ghost use Rattle.std.specs.Prelude.{◌≡◌, ℕ, IfOk};
ghost use Rattle.oc_tree.specs.declared.tree.VarId.{VarId};
ghost use Rattle.oc_effects.specs.Effects.{TEffect, effects_at};
ghost use Rattle.oc_tree.specs.Members.{IsOf};
ghost use Rattle.oc_flow.specs.Relations.{Brings, Flow};
ghost use Rattle.oc_flow.specs.Flow.{brings, flows};
ghost use Rattle.oc_flow.specs.Laws.{Decides};
ghost use Rattle.oc_tree.specs.Checked.{IsChecked};

use crate::functions::learn_all;
use crate::summary::Summaries;
use oc_effects::effects::Effects;
use oc_io::Memory;
use oc_tree::checked::Checked;
use std::alloc::{AllocError, Global};

/// The flow and the inputs of a checked program, by what its statements do. Err is want of memory.
fn summaries_of(alloc: Global, checked: &Checked) -> Result<Summaries, AllocError>
    ensures summaries { IfOk result (λ s. s ≡ checked.now) }
    ensures checked { IfOk result (λ s. IsChecked s.program s.groups) }
{
    let effects = Effects::new(alloc, checked)?;
    let known = learn_all(alloc, &effects)?;
    // For the proof alone: it tells that the program is checked.
    let _program = effects.checked().program();
    Ok(Summaries::new(effects, known))
}

/// The flow and the inputs of a program.
pub fn summaries(alloc: Global, checked: &Checked) -> Result<Summaries, Memory>
    ensures summaries { IfOk result (λ s. s ≡ checked.now) }
    // The tests decide the relations.
    ensures flow { IfOk result (λ s. (f : ℕ) (u v : VarId)
        → Decides (flows s.program f u v) (Flow s.program f u v)) }
    ensures brings { IfOk result (λ s. (f : ℕ) (a : TEffect) (v : VarId)
        → IsOf a (effects_at s.program f)
        → Decides (brings s.program a v) (Brings s.program f a v)) }
{
    match summaries_of(alloc, checked) {
        Ok(summaries) => Ok(summaries),
        Err(_) => Err(Memory),
    }
}
