//! The inference of regions.
ghost use Rattle.std.specs.Prelude.{◌≡◌, map, All, IfOk, IfErr};
ghost use Rattle.std.specs.List.{list_any};
ghost use Rattle.oc_tree.specs.Members.{IsOf};
ghost use Rattle.oc_tree.specs.Regions.{region_view};
ghost use Rattle.oc_needs.specs.Policies.{policies};
ghost use Rattle.oc_needs.specs.Requirements.{TRequirement, requirements};
ghost use Rattle.oc_needs.specs.View.{requirement_view};
ghost use Rattle.oc_honest.specs.Timely.{RunsAreTimely};
ghost use Rattle.oc_timely.specs.Covering.{IsMet};
ghost use Rattle.oc_region.specs.Law.{HasSmallest};
ghost use Rattle.oc_region.specs.Inferred.{AreInferred};
ghost use Rattle.oc_region.specs.Regions.{by_first, is_inside, marked, outermost, regions, united};
ghost use Rattle.oc_region.specs.Views.{ask_view, numbered_for, stretch_view, with_reasons};

use crate::asks::{Ask, asked_ranges, asks, reasons};
use crate::places::is_within;
use crate::range::Stretch;
use crate::smallest::Grouped;
use crate::unite::{by_first, unite_all};
use oc_effects::effects::Effects;
use oc_io::Memory;
use oc_needs::policy::policies;
use oc_needs::requirement::Requirement;
use oc_tree::checked::Checked;
use oc_tree::marked::{Marked, Policy, Region};
use std::alloc::{AllocError, Global};

/// Whether a range stands inside a statement of one of these.
fn is_inside_some(effects: &Effects, r: Stretch, ranges: &[Stretch]) -> bool
    ensures { result
        ≡ list_any (is_inside effects.now.program (stretch_view r)) (map stretch_view ranges.now) }
{
    for q in ranges {
        if is_within(effects, *q, r.range.first) {
            return true;
        }
    }
    false
}

/// The ranges that aren't inside a statement of another.
fn keep_outermost(
    alloc: Global,
    effects: &Effects,
    ranges: &[Stretch],
) -> Result<Vec<Stretch>, AllocError>
    ensures { IfOk result
        (λ v. map stretch_view v.items
        ≡ outermost effects.now.program (map stretch_view ranges.now)) }
{
    let mut kept = Vec::new(alloc);
    for r in ranges {
        if !is_inside_some(effects, *r, ranges) {
            kept.push(*r)?;
        }
    }
    Ok(kept)
}

/// A range as a region, with its number and its reasons.
fn region(
    alloc: Global,
    effects: &Effects,
    asks: &[Ask],
    id: u32,
    r: Stretch,
) -> Result<Region, AllocError>
    ensures { IfOk result
        (λ q. region_view q
        ≡ with_reasons effects.now.program (map ask_view asks.now) id (stretch_view r)) }
{
    let reasons = reasons(alloc, effects, asks, r)?;
    Ok(Region {
        id,
        function: r.function,
        range: r.range,
        reasons,
    })
}

/// Ranges in order as regions, numbered from 1. There is no memory for more than there are numbers.
fn number_ranges(
    alloc: Global,
    effects: &Effects,
    asks: &[Ask],
    ranges: &[Stretch],
) -> Result<Vec<Region>, AllocError>
    ensures { IfOk result
        (λ v. map region_view v.items
        ≡ numbered_for effects.now.program (map ask_view asks.now) 1
        (map stretch_view ranges.now)) }
{
    let mut regions = Vec::new(alloc);
    let mut id: u32 = 0;
    for r in ranges {
        id = id.checked_add(1).ok_or(AllocError)?;
        regions.push(region(alloc, effects, asks, id, *r)?)?;
    }
    Ok(regions)
}

/// The regions that requirements ask for.
fn regions(
    alloc: Global,
    effects: &Effects,
    required: &[Requirement],
) -> Result<Vec<Region>, AllocError>
    requires { map requirement_view required.now ≡ requirements effects.now.program }
    ensures { IfOk result
        (λ v. map region_view v.items ≡ regions effects.now.program effects.now.groups) }
{
    let grouped = Grouped::new(alloc, effects)?;
    let asks = asks(alloc, &grouped, required)?;
    let all = unite_all(alloc, asked_ranges(alloc, &asks)?)?;
    let sorted = by_first(alloc, keep_outermost(alloc, effects, &all)?)?;
    number_ranges(alloc, effects, &asks, &sorted)
}

/// The policies and the regions of a program.
#[derive(Drop)]
pub struct Inferred {
    pub policies: Vec<Policy>,
    pub regions: Vec<Region>,
}

/// The policies and the regions of a program, by what its statements do and by its requirements.
pub fn infer_by(
    alloc: Global,
    effects: &Effects,
    required: &[Requirement],
) -> Result<Inferred, AllocError>
    requires { map requirement_view required.now ≡ requirements effects.now.program }
    ensures { IfOk result (λ r. AreInferred effects.now.program effects.now.groups r) }
{
    let policies = policies(alloc, effects)?;
    let regions = regions(alloc, effects, required)?;
    Ok(Inferred { policies, regions })
}

/// The program with its policies and regions.
pub fn mark(checked: Checked, inferred: Inferred) -> Marked
    requires { AreInferred checked.program checked.groups inferred }
    ensures marked { result ≡ marked checked.program checked.groups }
    // Each requirement has a range, which is the smallest one that holds its sites.
    ensures smallest { All (HasSmallest checked.program checked.groups)
        (requirements checked.program) }
    // One region covers all sites of a requirement.
    ensures met { (r : TRequirement) → IsOf r (requirements result.program) → IsMet result r }
    // With outages anywhere outside of regions, each run is timely.
    ensures timely { RunsAreTimely result }
{
    // For the proof alone: it tells that the program is checked.
    checked.program();
    Marked::new(checked, inferred.policies, inferred.regions)
}

/// The policies and the regions of a program whose effects are made here.
fn infer_of(
    alloc: Global,
    checked: &Checked,
    required: &[Requirement],
) -> Result<Inferred, AllocError>
    requires { map requirement_view required.now ≡ requirements checked.now.program }
    ensures { IfOk result (λ r. AreInferred checked.now.program checked.now.groups r) }
{
    let effects = Effects::new(alloc, checked)?;
    infer_by(alloc, &effects, required)
}

/// The program with its policies and regions, by its requirements. On want of memory the checked
/// program comes back.
pub fn infer(
    alloc: Global,
    checked: Checked,
    required: &[Requirement],
) -> Result<Marked, (Checked, Memory)>
    requires { map requirement_view required.now ≡ requirements checked.program }
    ensures marked { IfOk result (λ m. m ≡ marked checked.program checked.groups) }
    ensures back { IfErr result (λ e. e.0 ≡ checked) }
    // Each requirement has a range, which is the smallest one that holds its sites.
    ensures smallest { IfOk result
        (λ _. All (HasSmallest checked.program checked.groups) (requirements checked.program)) }
    // One region covers all sites of a requirement.
    ensures met { IfOk result
        (λ m. (r : TRequirement) → IsOf r (requirements m.program) → IsMet m r) }
    // With outages anywhere outside of regions, each run is timely.
    ensures timely { IfOk result (λ m. RunsAreTimely m) }
{
    match infer_of(alloc, &checked, required) {
        Ok(inferred) => Ok(mark(checked, inferred)),
        Err(_) => Err((checked, Memory)),
    }
}
