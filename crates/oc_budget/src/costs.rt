//! The costs of regions and of runs.
ghost use Rattle.std.specs.Prelude.{◌≡◌, map, sum_by, IfOk, ◌<◌, ◌^◌};
ghost use Rattle.std.specs.List.{All};
ghost use Rattle.oc_code.specs.Code.{code_of};
ghost use Rattle.oc_tree.specs.Regions.{region_view};
ghost use Rattle.oc_tree.specs.Marked.{IsMarked};
ghost use Rattle.oc_bounds.specs.Bounds.{IsBounded};
ghost use Rattle.oc_isa.specs.Table.{device_of};
ghost use Rattle.oc_writes.specs.Targets.{may_write};
ghost use Rattle.oc_budget.specs.Bounding.{bounds_of};
ghost use Rattle.oc_budget.specs.Budgets.{budget, budgets, greatest, limited, limited_budgets, logged, safe_for, target_words};
ghost use Rattle.oc_budget.specs.Costs.{costs};
ghost use Rattle.oc_budget.specs.Fitting.{IsFitted};
ghost use Rattle.oc_budget.specs.View.{budgets_view};

use crate::held::region_spent;
use crate::known::Known;
use crate::order::all_costs;
use crate::sums::{greater, plus};
use crate::told::Budgets;
use crate::walk::known_of;
use oc_effects::effects::Effects;
use oc_io::Memory;
use oc_isa::image::Image;
use oc_tree::marked::{Marked, Region};
use oc_tree::said::Target;
use std::alloc::{AllocError, Global};

/// How many words a target has.
fn target_words(target: Target) -> u32
    ensures { result ≡ target_words target }
{
    match target {
        Target::Nv { len, .. } => len,
        Target::Param { len, .. } => len,
    }
}

/// The words of a region's targets.
fn words_of(targets: &[Target]) -> u32
    requires { sum_by target_words targets.now < 2 ^ 32 }
    ensures { result ≡ sum_by target_words targets.now }
{
    let mut words: u32 = 0;
    for target in targets {
        words += target_words(*target);
    }
    words
}

/// How many words each region logs at most.
fn all_logged(alloc: Global, targets: &[Vec<Target>]) -> Result<Vec<u32>, AllocError>
    requires { All (λ v. sum_by target_words v.items < 2 ^ 32) targets.now }
    ensures { IfOk result (λ l. l.items ≡ map (λ v. sum_by target_words v.items) targets.now) }
{
    let mut logged = Vec::new(alloc);
    for list in targets {
        logged.push(words_of(list.as_slice()))?;
    }
    Ok(logged)
}

/// The cost of a region that logs so many words.
#[tactic(auto, using(crate::proofs::SpentLaws::budget_is))]
fn region_cost(known: &Known, callees: &[u64], region: &Region, words: u32) -> Option<u64>
    requires callees { callees.now ≡ costs known.now }
    requires words { words ≡ logged known.now.program (region_view region.now) }
    ensures { IsFitted result (budget known.now (region_view region.now)) }
{
    plus(region_spent(known, callees, region)?, 1 + words as u64)
}

/// The budget of a region that logs so many words.
fn region_budget(known: &Known, callees: &[u64], region: &Region, words: u32) -> u64
    requires callees { callees.now ≡ costs known.now }
    requires words { words ≡ logged known.now.program (region_view region.now) }
    ensures { result ≡ limited (budget known.now (region_view region.now)) }
{
    region_cost(known, callees, region, words).unwrap_or(u64::MAX)
}

/// The budgets of all regions.
fn all_budgets(
    alloc: Global,
    known: &Known,
    callees: &[u64],
    words: &[u32],
) -> Result<Vec<u64>, AllocError>
    requires callees { callees.now ≡ costs known.now }
    requires words { words.now ≡ map (logged known.now.program) known.now.regions }
    ensures { IfOk result
        (λ b. b.items ≡ map limited (map (budget known.now) known.now.regions)) }
{
    let mut budgets = Vec::new(alloc);
    let regions = known.regions();
    for (i, region) in regions.iter().enumerate() {
        budgets.push(region_budget(known, callees, region, words[i]))?;
    }
    Ok(budgets)
}

/// The greatest of these budgets, or 0 where there are none.
fn greatest(budgets: &[u64]) -> u64
    ensures { result ≡ greatest 0 budgets.now }
{
    let mut most = 0;
    for budget in budgets {
        most = greater(most, *budget);
    }
    most
}

/// The steps of a period that suffice, with so many words of stack.
fn safe_for(stack: u32, budgets: &[u64]) -> u64
    ensures { result ≡ limited (safe_for stack budgets.now) }
{
    let words = stack as u64;
    if budgets.is_empty() {
        words + 6
    } else {
        plus(2 * words + 9, greatest(budgets)).unwrap_or(u64::MAX)
    }
}

/// What is told of a program with regions, of which this is the image, by the effects of its
/// statements: each number as it is, or the greatest that fits 64 bits. Err is want of memory.
fn all_told(
    alloc: Global,
    marked: &Marked,
    effects: &Effects,
    image: &Image,
) -> Result<Budgets, AllocError>
    requires same { effects.now.program ≡ marked.now.program }
    requires code { image.now
        ≡ code_of marked.now.program marked.now.regions (may_write marked.now) }
    requires marked { IsMarked marked.now }
    ensures { IfOk result (λ b. budgets_view b ≡ limited_budgets marked.now) }
{
    let known = Known::new(alloc, marked, effects)?;
    let costs = all_costs(alloc, &known)?;
    let raw = image.raw();
    let logged = all_logged(alloc, raw.targets.as_slice())?;
    let regions = all_budgets(alloc, &known, costs.as_slice(), logged.as_slice())?;
    let total = known_of(costs.as_slice(), known.main_place());
    let safe = safe_for(raw.stack, regions.as_slice());
    Ok(Budgets {
        regions,
        logged,
        total,
        safe,
    })
}

/// The budgets of a program with regions, of which this is the image, by the effects of its
/// statements. Where a budget, or the steps of a period that suffice, don't fit 64 bits, the
/// greatest number that does is told. The sums themselves bound every run of the image.
pub fn budgets_by(
    alloc: Global,
    marked: &Marked,
    effects: &Effects,
    image: &Image,
) -> Result<Budgets, Memory>
    requires same { effects.now.program ≡ marked.now.program }
    requires code { image.now
        ≡ code_of marked.now.program marked.now.regions (may_write marked.now) }
    ensures told { IfOk result (λ b. budgets_view b ≡ limited_budgets marked.now) }
    ensures bounds { IfOk result
        (λ _. IsBounded (device_of image.now) (bounds_of marked.now)) }
{
    // For the proof alone: it tells that the program is marked.
    marked.checked();
    match all_told(alloc, marked, effects, image) {
        Ok(told) => Ok(told),
        Err(_) => Err(Memory),
    }
}

/// The budgets of a program with regions, of which this is the image; its effects are made here. The
/// sums themselves bound every run of the image.
pub fn budgets(alloc: Global, marked: &Marked, image: &Image) -> Result<Budgets, Memory>
    requires { image.now ≡ code_of marked.now.program marked.now.regions (may_write marked.now) }
    ensures told { IfOk result (λ b. budgets_view b ≡ limited_budgets marked.now) }
    ensures bounds { IfOk result
        (λ _. IsBounded (device_of image.now) (bounds_of marked.now)) }
{
    match Effects::new(alloc, marked.checked()) {
        Ok(effects) => budgets_by(alloc, marked, &effects, image),
        Err(_) => Err(Memory),
    }
}
