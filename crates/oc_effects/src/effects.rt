//! The effects of a program's statements.
ghost use Rattle.std.specs.Prelude.{◌≡◌, ◌<◌, ◌≤◌, ◌^◌, ◌+◌, ◌++◌, All, map, length, find, option_map, slice_range, OnOk, IfOk};
ghost use Rattle.std.proofs.Math.ListN.{get_or};
ghost use Rattle.oc_tree.specs.Numbers.{numbers_on};
ghost use Rattle.oc_tree.specs.Marked.{around, is_in_region};
ghost use Rattle.oc_tree.specs.Places.{block_of, param_variables, placed};
ghost use Rattle.oc_tree.specs.Regions.{region_view};
ghost use Rattle.oc_tree.specs.View.{function_view};
ghost use Rattle.oc_effects.specs.Effects.{effect_of, effects_at, function_effects, is_numbered};
ghost use Rattle.oc_effects.specs.Flat.{all_effects, starts_from};
ghost use Rattle.oc_effects.specs.Kept.{AreKeptOf};
ghost use Rattle.oc_effects.specs.View.{effect_view, effect_seen};

use crate::effect::Effect;
use crate::known::Known;
use crate::scope::Scope;
use crate::walk::walk_block;
use oc_tree::checked::Checked;
use oc_tree::marked::Region;
use oc_tree::tree::{BlockId, Function, Param, StmtId, VarId};
use std::alloc::{AllocError, Global};
use std::marker::Model;

/// The variables that are visible in front of a function's body.
fn param_scope<'a>(alloc: Global, params: &'a [Param]) -> Result<Scope<'a>, AllocError>
    requires { length params.now < 2 ^ 32 }
    ensures { IfOk result (λ s. s ≡ param_variables 0 params.now) }
{
    let mut scope = Scope::new(alloc);
    for (i, param) in params.iter().enumerate() {
        let index = i as u32;
        scope.declare(&param.name, VarId::Param { index })?;
    }
    Ok(scope)
}

/// Adds the effects of the statements of a function.
fn add_function<'a>(
    alloc: Global,
    known: &Known<'a>,
    function: &'a Function,
    effects: &mut Vec<Effect>,
) -> Result<(), AllocError>
    requires { length function.now.params.items < 2 ^ 32 }
    ensures { OnOk result
        (map effect_view effects.new.items
        ≡ map effect_view effects.old.items
        ++ function_effects known.now (function_view function.now)) }
{
    let mut scope = param_scope(alloc, function.params.as_slice())?;
    let around = Vec::new(alloc);
    walk_block(
        alloc,
        known,
        around.as_slice(),
        &mut scope,
        &function.body,
        effects,
    )?;
    Ok(())
}

/// Those of all functions, one after another; where those of each function begin, and the end.
fn all_effects<'a>(
    alloc: Global,
    known: &Known<'a>,
    functions: &'a [Function],
) -> Result<(Vec<Effect>, Vec<usize>), AllocError>
    requires { All (λ f. length f.params < 2 ^ 32) (map function_view functions.now) }
    ensures all { IfOk result
        (λ r. map effect_view r.0.items ≡ all_effects known.now (map function_view functions.now)) }
    ensures starts { IfOk result
        (λ r. r.1.items ≡ starts_from known.now 0 (map function_view functions.now)) }
{
    let mut effects = Vec::new(alloc);
    let mut starts = Vec::new(alloc);
    for function in functions {
        starts.push(effects.len())?;
        add_function(alloc, known, function, &mut effects)?;
    }
    starts.push(effects.len())?;
    Ok((effects, starts))
}

/// Those of the function at a place.
fn part<'e>(effects: &'e [Effect], starts: &[usize], function: usize) -> &'e [Effect]
    requires below { function + 1 < length starts.now }
    requires order { get_or starts.now function 0 ≤ get_or starts.now (function + 1) 0 }
    requires within { get_or starts.now (function + 1) 0 ≤ length effects.now }
    ensures { result.now ≡ slice_range effects.now (get_or starts.now function 0)
        (get_or starts.now (function + 1) 0) }
{
    &effects[starts[function]..starts[function + 1]]
}

/// The effects of all statements of a checked program, which contracts see as that program.
#[derive(Drop)]
pub struct Effects<'a> {
    checked: &'a Checked,
    /// Those of all functions, one after another.
    effects: Vec<Effect>,
    /// Where those of each function begin, and the end.
    starts: Vec<usize>,
}

impl<'a> Model for Effects<'a> {
    ghost use Rattle.std.specs.Prelude.{◌≡◌, map};
    ghost use Rattle.std.specs.Coded.{codes};
    ghost use Rattle.oc_tree.specs.Stored.{block_code};
    ghost use Rattle.oc_tree.specs.Checked.{TChecked};
    ghost use Rattle.oc_effects.specs.Flat.{IsFlat};
    ghost use Rattle.oc_effects.specs.View.{effect_view};

    ghost Value = { TChecked };

    ghost coded = { Prim.hlevel (codes, block_code (Prim.hlevel codes)) };

    ghost view = { λ e. e.checked.now };

    ghost invariant = { λ e. IsFlat e.checked.now.program (map effect_view e.effects.items)
        e.starts.items };
}

/// The effects of a program's statements without the program, for as long as that has another owner.
#[derive(Drop)]
pub struct Kept {
    effects: Vec<Effect>,
    starts: Vec<usize>,
}

impl<'a> Effects<'a> {
    /// The effects of a program. It goes over the tree once.
    pub fn new(alloc: Global, checked: &'a Checked) -> Result<Effects<'a>, AllocError>
        ensures { IfOk result (λ e. e ≡ checked.now) }
    {
        let program = checked.program();
        let known = Known::new(alloc, program)?;
        let (effects, starts) = all_effects(alloc, &known, program.functions.as_slice())?;
        Ok(Effects {
            checked,
            effects,
            starts,
        })
    }

    /// The effects, which no longer borrow the program.
    pub fn into_kept(self) -> Kept
        ensures { AreKeptOf self.entry.program result }
    {
        // For the proof alone: the view speaks of this field.
        let _checked = self.checked;
        Kept {
            effects: self.effects,
            starts: self.starts,
        }
    }

    /// The effects of a program that were kept without it.
    pub fn from_kept(checked: &'a Checked, kept: Kept) -> Effects<'a>
        requires { AreKeptOf checked.now.program kept }
        ensures { result ≡ checked.now }
    {
        Effects {
            checked,
            effects: kept.effects,
            starts: kept.starts,
        }
    }

    /// The program.
    pub fn checked(&self) -> &'a Checked
        ensures { result.now ≡ self.now }
    {
        // For the proof alone: the view or the invariant speaks of this field.
        let _effects = &self.effects;
        self.checked
    }

    /// How many functions there are.
    pub fn functions(&self) -> usize
        ensures { result ≡ length self.now.program.functions }
    {
        // For the proof alone: the view or the invariant speaks of this field.
        let _effects = &self.effects;
        self.checked.program().functions.len()
    }

    /// The effects of the statements of the function at a place, in source order.
    pub fn of_function(&self, function: usize) -> &[Effect]
        requires { function < length self.now.program.functions }
        ensures { map effect_view result.now ≡ effects_at self.now.program function }
    {
        // For the proof alone: the view or the invariant speaks of this field.
        let _checked = self.checked;
        part(self.effects.as_slice(), self.starts.as_slice(), function)
    }

    /// The number of the first statement of the function at a place, from which on its statements
    /// are numbered in source order; 0 where it has none.
    pub fn first(&self, function: usize) -> StmtId
        requires { function < length self.now.program.functions }
        ensures numbered { map (λ e. e.stmt) (effects_at self.now.program function)
            ≡ numbers_on result (length (effects_at self.now.program function)) }
        ensures none { length (effects_at self.now.program function) ≡ 0 → result ≡ 0 }
    {
        // For the proof alone: the view or the invariant speaks of this field.
        let _checked = self.checked;
        let effects = self.of_function(function);
        if effects.is_empty() {
            0
        } else {
            effects[0].stmt
        }
    }

    /// The effect of the statement of a number, in the function at a place.
    pub fn find_in(&self, function: usize, s: StmtId) -> Option<&Effect>
        requires { function < length self.now.program.functions }
        ensures { effect_seen result ≡ find (is_numbered s) (effects_at self.now.program function) }
    {
        let first = self.first(function);
        if s < first {
            return None;
        }
        let effects = self.of_function(function);
        effects.get((s - first) as usize)
    }

    /// The effect of the statement of a number; none where there is no such statement.
    pub fn at(&self, s: StmtId) -> Option<&Effect>
        ensures { effect_seen result
            ≡ option_map (effect_of self.now.program) (placed self.now.program s) }
    {
        // For the proof alone: the view or the invariant speaks of this field.
        let _checked = self.checked;
        if s == 0 {
            return None;
        }
        self.effects.get(s as usize - 1)
    }

    /// Directly in which block a statement stands.
    pub fn block_of(&self, s: StmtId) -> Option<BlockId>
        ensures { result ≡ block_of self.now.program s }
    {
        // For the proof alone: the view or the invariant speaks of this field.
        let _checked = self.checked;
        match self.at(s) {
            Some(effect) => Some(effect.block),
            None => None,
        }
    }

    /// The statements around a statement, the innermost first.
    pub fn around(&self, s: StmtId) -> &[StmtId]
        ensures { result.now ≡ around (placed self.now.program s) }
    {
        // For the proof alone: the view or the invariant speaks of this field.
        let _checked = self.checked;
        match self.at(s) {
            Some(effect) => &effect.around,
            None => &[],
        }
    }

    /// Whether a statement stands directly in a region.
    pub fn is_in_region(&self, region: &Region, s: StmtId) -> bool
        ensures { result ≡ is_in_region self.now.program (region_view region.now) s }
    {
        // For the proof alone: the view or the invariant speaks of this field.
        let _checked = self.checked;
        let range = region.range;
        range.first <= s
            && s <= range.last
            && match self.block_of(s) {
                Some(block) => block == range.block,
                None => false,
            }
    }
}
