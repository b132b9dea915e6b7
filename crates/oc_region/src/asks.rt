//! Which ranges the policies ask for.
ghost use Rattle.std.specs.Prelude.{◌≡◌, map, IfOk};
ghost use Rattle.oc_needs.specs.View.{requirement_view};
ghost use Rattle.oc_region.specs.Views.{ask_range, ask_reasons, ask_view, asks, stretch_view};

use crate::places::covers;
use crate::range::Stretch;
use crate::smallest::Grouped;
use oc_effects::effects::Effects;
use oc_needs::requirement::Requirement;
use oc_tree::numbers::insert_number;
use std::alloc::{AllocError, Global};

/// A range for which a policy asks, by its number.
#[derive(Clone, Copy)]
pub struct Ask {
    /// The number of the policy.
    pub policy: u32,
    /// What it asks for.
    pub range: Stretch,
}

/// The smallest range of each requirement, with its policy.
pub fn asks(
    alloc: Global,
    grouped: &Grouped,
    required: &[Requirement],
) -> Result<Vec<Ask>, AllocError>
    ensures { IfOk result
        (λ v. map ask_view v.items
        ≡ asks grouped.now.program grouped.now.groups (map requirement_view required.now)) }
{
    let mut asks = Vec::new(alloc);
    for requirement in required {
        if let Some(range) = grouped.smallest(requirement) {
            asks.push(Ask {
                policy: requirement.policy,
                range,
            })?;
        }
    }
    Ok(asks)
}

/// The ranges for which policies ask.
pub fn asked_ranges(alloc: Global, asks: &[Ask]) -> Result<Vec<Stretch>, AllocError>
    ensures { IfOk result (λ v. map stretch_view v.items ≡ map ask_range (map ask_view asks.now)) }
{
    let mut ranges = Vec::new(alloc);
    for ask in asks {
        ranges.push(ask.range)?;
    }
    Ok(ranges)
}

/// The rising numbers of the policies that ask for a range inside this one.
pub fn reasons(
    alloc: Global,
    effects: &Effects,
    asks: &[Ask],
    r: Stretch,
) -> Result<Vec<u32>, AllocError>
    ensures { IfOk result
        (λ v. v.items ≡ ask_reasons effects.now.program (map ask_view asks.now) (stretch_view r)) }
{
    let mut found = Vec::new(alloc);
    let mut left = asks;
    while let Some((ask, rest)) = left.split_last() {
        if covers(effects, r, ask.range.range.first) {
            insert_number(&mut found, ask.policy)?;
        }
        left = rest;
    }
    Ok(found)
}
