//! The statements of a region.
ghost use Rattle.std.specs.Prelude.{◌≡◌, ◌<◌, ℕ, length, IfOk};
ghost use Rattle.std.proofs.Math.ListN.{get_or};
ghost use Rattle.oc_tree.specs.declared.marked.Region.{Region};
ghost use Rattle.oc_tree.specs.Regions.{region_view};
ghost use Rattle.oc_effects.specs.View.{effect_view};
ghost use Rattle.oc_writes.specs.Targets.{region_effects};
ghost use Rattle.oc_flow.specs.Known.{effects_seen};
ghost use Rattle.oc_writes.specs.Seen.{stands_in};

use oc_effects::effect::Effect;
use oc_effects::effects::Effects;
use oc_tree::marked::Region;
use std::alloc::{AllocError, Global};

/// Whether a statement stands in a region, or in a statement of it.
fn stands_in(effects: &Effects, region: &Region, effect: &Effect) -> bool
    ensures { result
        ≡ stands_in effects.now.program (region_view region.now) (effect_view effect.now) }
{
    if effects.is_in_region(region, effect.stmt) {
        return true;
    }
    for s in &effect.around {
        if effects.is_in_region(region, *s) {
            return true;
        }
    }
    false
}

/// What the statements of a region do.
pub fn region_effects<'a>(
    alloc: Global,
    effects: &'a Effects,
    region: &Region,
) -> Result<Vec<&'a Effect>, AllocError>
    requires { region.now.function < length effects.now.program.functions }
    ensures { IfOk result
        (λ e. effects_seen e.items ≡ region_effects effects.now.program (region_view region.now)) }
{
    // For the proof alone: it tells that the program is checked.
    let _checked = effects.checked().program();
    let mut inside = Vec::new(alloc);
    for effect in effects.of_function(region.function as usize) {
        if stands_in(effects, region, effect) {
            inside.push(effect)?;
        }
    }
    Ok(inside)
}

/// Whether one of these statements calls a function.
fn some_calls(effects: &[&Effect]) -> bool {
    for effect in effects {
        if effect.call.is_some() {
            return true;
        }
    }
    false
}

/// Whether a statement of some region calls a function. No target goes by this answer.
pub fn some_region_calls(
    alloc: Global,
    effects: &Effects,
    regions: &[Region],
) -> Result<bool, AllocError>
    requires { (k : ℕ) (d : Region) → k < length regions.now
        → (get_or regions.now k d).function < length effects.now.program.functions }
{
    for region in regions {
        let inside = region_effects(alloc, effects, region)?;
        if some_calls(inside.as_slice()) {
            return Ok(true);
        }
    }
    Ok(false)
}
