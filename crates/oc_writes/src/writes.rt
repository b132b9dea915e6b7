//! Write targets.
ghost use Rattle.std.specs.Prelude.{◌≡◌, ◌≤◌, ◌<◌, ◌-◌, ◌++◌, ◌||◌, ℕ, [], map, length, OnOk, IfOk};
ghost use Rattle.oc_tree.specs.declared.marked.Region.{Region};
ghost use Rattle.std.specs.List.{list_any};
ghost use Rattle.std.proofs.Math.ListN.{get_or};
ghost use Rattle.oc_tree.specs.View.{program_view};
ghost use Rattle.oc_tree.specs.Regions.{region_view};
ghost use Rattle.oc_tree.specs.declared.tree.VarId.TheVariants.{Nv, Param as AParam};
ghost use Rattle.oc_effects.specs.View.{effect_view};
ghost use Rattle.oc_writes.specs.Targets.{assigns, may_write, reaches, region_targets, words_of};
ghost use Rattle.oc_writes.specs.Kept.{OnlyTargets};
ghost use Rattle.oc_flow.specs.Known.{effects_seen};
ghost use Rattle.oc_writes.specs.Seen.{slot_targets, some_assigns, stored_from, stored_targets};

use crate::inside::{region_effects, some_region_calls};
use crate::numbers::behind;
use crate::stored::{Stored, all_stored};
use crate::through::Through;
use oc_effects::effect::Effect;
use oc_effects::effects::Effects;
use oc_io::Memory;
use oc_reach::assigned::Assigned;
use oc_tree::marked::{Marked, Region};
use oc_tree::said::Target;
use oc_tree::tree::{Param, Program, ValueKind, VarId};
use std::alloc::{AllocError, Global};
use std::marker::Model;

/// What each region of a program may overwrite, which contracts see as a list for each.
#[derive(Drop)]
pub struct WriteSets {
    regions: Vec<Vec<Target>>,
}

impl Model for WriteSets {
    ghost use Rattle.std.specs.Prelude.{List, map};
    ghost use Rattle.oc_tree.specs.declared.said.Target.{Target};

    ghost Value = { List (List Target) };

    ghost view = { λ w. map (λ v. v.items) w.regions.items };
}

/// Whether a statement assigns a nonvolatile variable, or calls a function that does.
fn assigns_it(
    alloc: Global,
    through: &Through,
    effect: &Effect,
    stored: &Stored,
) -> Result<bool, AllocError>
    ensures { IfOk result
        (λ b. b ≡ (assigns through.now (Nv stored.now.index) (effect_view effect.now)
        || reaches stored.now.program (effect_view effect.now).call stored.now.name)) }
{
    let var = VarId::Nv {
        index: stored.index,
    };
    if through.assigns(effect, var) {
        return Ok(true);
    }
    let reaches = stored.is_assigned_by(alloc, &effect.call)?;
    Ok(reaches)
}

/// Whether one of the statements does.
fn assigns_stored(
    alloc: Global,
    through: &Through,
    effects: &[&Effect],
    stored: &Stored,
) -> Result<bool, AllocError>
    ensures { IfOk result
        (λ b. b ≡ some_assigns through.now (effects_seen effects.now) stored.now) }
{
    for effect in effects {
        if assigns_it(alloc, through, *effect, stored)? {
            return Ok(true);
        }
    }
    Ok(false)
}

/// Adds the nonvolatile variables that the statements assign.
fn add_stored(
    alloc: Global,
    through: &Through,
    effects: &[&Effect],
    all: &[Stored],
    targets: &mut Vec<Target>,
) -> Result<(), AllocError>
    ensures { OnOk result
        (targets.new.items ≡ targets.old.items
        ++ stored_targets through.now (effects_seen effects.now) all.now) }
{
    for stored in all {
        if assigns_stored(alloc, through, effects, stored)? {
            targets.push(Target::Nv {
                base: stored.base,
                len: stored.words,
            })?;
        }
    }
    Ok(())
}

/// Whether one of these statements may assign the parameter at a place, also by the functions that
/// it lends it to.
fn assigns_param(through: &Through, effects: &[&Effect], index: u32) -> bool
    ensures { result ≡ list_any (assigns through.now (AParam index)) (effects_seen effects.now) }
{
    for effect in effects {
        if through.assigns(*effect, VarId::Param { index }) {
            return true;
        }
    }
    false
}

/// How many words a variable of this type has.
fn words_of(kind: ValueKind) -> u32
    ensures { result ≡ words_of kind }
{
    match kind {
        ValueKind::Int | ValueKind::Bool => 1,
        ValueKind::Array { words } => words,
    }
}

/// Adds the parameters that the statements assign.
fn add_params(
    through: &Through,
    effects: &[&Effect],
    params: &[Param],
    targets: &mut Vec<Target>,
) -> Result<(), AllocError>
    ensures { OnOk result
        (targets.new.items ≡ targets.old.items
        ++ slot_targets through.now (effects_seen effects.now) 0 params.now) }
{
    let mut slot = 0;
    for param in params {
        if assigns_param(through, effects, slot) {
            targets.push(Target::Param {
                slot,
                len: words_of(param.kind),
            })?;
        }
        slot = behind(slot, 1)?;
    }
    Ok(())
}

/// What a region may overwrite: nonvolatile variables, then the parameters of its function. Err is
/// want of memory.
fn region_targets(
    alloc: Global,
    program: &Program,
    effects: &Effects,
    through: &Through,
    stored: &[Stored],
    region: &Region,
) -> Result<Vec<Target>, AllocError>
    requires same { effects.now.program ≡ program_view program.now }
    requires through { through.now ≡ program_view program.now }
    requires stored { stored.now
        ≡ stored_from (program_view program.now) 0 0 (program_view program.now).names.nvs
        (program_view program.now).nv }
    requires function { region.now.function < length program.now.functions.items }
    ensures { IfOk result
        (λ t. t.items ≡ region_targets (program_view program.now) (region_view region.now)) }
{
    let inside = region_effects(alloc, effects, region)?;
    let function = &program.functions[region.function as usize];
    let mut targets = Vec::new(alloc);
    add_stored(alloc, through, inside.as_slice(), stored, &mut targets)?;
    add_params(
        through,
        inside.as_slice(),
        function.params.as_slice(),
        &mut targets,
    )?;
    Ok(targets)
}

/// What each of these regions may overwrite. Err is want of memory.
fn targets_of(
    alloc: Global,
    program: &Program,
    effects: &Effects,
    through: &Through,
    stored: &[Stored],
    regions: &[Region],
) -> Result<Vec<Vec<Target>>, AllocError>
    requires same { effects.now.program ≡ program_view program.now }
    requires through { through.now ≡ program_view program.now }
    requires stored { stored.now
        ≡ stored_from (program_view program.now) 0 0 (program_view program.now).names.nvs
        (program_view program.now).nv }
    requires functions { (k : ℕ) (d : Region) → k < length regions.now
        → (get_or regions.now k d).function < length program.now.functions.items }
    ensures { IfOk result (λ t. map (λ v. v.items) t.items
        ≡ map (region_targets (program_view program.now)) (map region_view regions.now)) }
{
    let mut all = Vec::new(alloc);
    for region in regions {
        let targets = region_targets(alloc, program, effects, through, stored, region)?;
        all.push(targets)?;
    }
    Ok(all)
}

/// What each of these regions may overwrite, where it is known which functions assign which
/// nonvolatile variable. Err is want of memory.
fn tabled_targets<'p>(
    alloc: Global,
    program: &'p Program,
    effects: &Effects,
    assigned: &Assigned<'p>,
    regions: &[Region],
) -> Result<Vec<Vec<Target>>, AllocError>
    requires same { effects.now.program ≡ program_view program.now }
    requires assigned { assigned.now ≡ program.now.functions.items }
    requires functions { (k : ℕ) (d : Region) → k < length regions.now
        → (get_or regions.now k d).function < length program.now.functions.items }
    ensures { IfOk result (λ t. map (λ v. v.items) t.items
        ≡ map (region_targets (program_view program.now)) (map region_view regions.now)) }
{
    let asked = some_region_calls(alloc, effects, regions)?;
    let stored = all_stored(alloc, program, assigned, asked)?;
    let through = Through::new(alloc, assigned.calls(), program)?;
    targets_of(
        alloc,
        program,
        effects,
        &through,
        stored.as_slice(),
        regions,
    )
}

/// What each of these regions of a program may overwrite. Err is want of memory.
fn all_targets(
    alloc: Global,
    program: &Program,
    effects: &Effects,
    regions: &[Region],
) -> Result<Vec<Vec<Target>>, AllocError>
    requires same { effects.now.program ≡ program_view program.now }
    requires functions { (k : ℕ) (d : Region) → k < length regions.now
        → (get_or regions.now k d).function < length program.now.functions.items }
    ensures { IfOk result (λ t. map (λ v. v.items) t.items
        ≡ map (region_targets (program_view program.now)) (map region_view regions.now)) }
{
    let assigned = Assigned::new(alloc, program.functions.as_slice())?;
    tabled_targets(alloc, program, effects, &assigned, regions)
}

/// What each region of a marked program may overwrite; it leaves every other nonvolatile variable
/// alone. Err is want of memory.
fn marked_targets(
    alloc: Global,
    marked: &Marked,
    effects: &Effects,
) -> Result<Vec<Vec<Target>>, AllocError>
    requires { effects.now.program ≡ marked.now.program }
    ensures targets { IfOk result (λ t. map (λ v. v.items) t.items ≡ may_write marked.now) }
    ensures only { IfOk result (λ t. OnlyTargets marked.now (map (λ v. v.items) t.items)) }
{
    let checked = marked.checked();
    let targets = all_targets(alloc, checked.program(), effects, marked.regions())?;
    Ok(targets)
}

/// The write targets of all regions, by the effects of the program's statements. Behind a region's
/// statements every other nonvolatile variable is as it was.
pub fn may_write_by(alloc: Global, marked: &Marked, effects: &Effects) -> Result<WriteSets, Memory>
    requires { effects.now.program ≡ marked.now.program }
    ensures targets { IfOk result (λ w. w ≡ may_write marked.now) }
    ensures only { IfOk result (λ w. OnlyTargets marked.now w) }
{
    match marked_targets(alloc, marked, effects) {
        Ok(regions) => Ok(WriteSets { regions }),
        Err(_) => Err(Memory),
    }
}

/// The write targets of all regions of a program, whose effects are made here. Behind a region's
/// statements every other nonvolatile variable is as it was.
pub fn may_write(alloc: Global, marked: &Marked) -> Result<WriteSets, Memory>
    ensures targets { IfOk result (λ w. w ≡ may_write marked.now) }
    ensures only { IfOk result (λ w. OnlyTargets marked.now w) }
{
    match Effects::new(alloc, marked.checked()) {
        Ok(effects) => may_write_by(alloc, marked, &effects),
        Err(_) => Err(Memory),
    }
}

impl WriteSets {
    /// How many regions there are.
    pub fn len(&self) -> usize
        ensures { result ≡ length self.now }
    {
        self.regions.len()
    }

    /// What each region may overwrite, in their order.
    pub fn sets(&self) -> &[Vec<Target>]
        ensures { map (λ v. v.items) result.now ≡ self.now }
    {
        self.regions.as_slice()
    }

    /// What the region of a number, from 1, may overwrite: nonvolatile variables by their first
    /// words, then parameters by their slots.
    pub fn targets(&self, region: u32) -> &[Target]
        requires { (1 ≤ region) × (region ≤ length self.now) }
        ensures { result.now ≡ get_or self.now (region - 1) [] }
    {
        self.regions[region as usize - 1].as_slice()
    }
}
