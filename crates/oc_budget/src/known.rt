//! What is asked of a program for every statement: what functions are called, which statements use
//! a fresh variable, and where regions begin and end.
ghost use Rattle.std.specs.Prelude.{◌≡◌, ◌<◌, ℕ, false, true, length, map, nat_eq, codes, IfOk};
ghost use Rattle.std.specs.List.{list_any};
ghost use Rattle.std.proofs.Math.ListN.{get_or};
ghost use Rattle.oc_tree.specs.View.{call_view, function_view};
ghost use Rattle.oc_tree.specs.Calls.{call_links, function_place};
ghost use Rattle.oc_tree.specs.Marked.{IsMarked, is_in_region};
ghost use Rattle.oc_tree.specs.Regions.{region_view};
ghost use Rattle.oc_tree.specs.Weight.{has_result, result_at};
ghost use Rattle.oc_weight.specs.Order.{IsOrder};
ghost use Rattle.oc_effects.specs.Effects.{effects_at};
ghost use Rattle.oc_budget.specs.Costs.{is_use};
ghost use Rattle.oc_budget.specs.Spent.{has_within};
ghost use Rattle.oc_tree.specs.Costs.{marks_at};

use crate::tables::{has, mark};
use crate::uses::use_table;
use oc_effects::effects::Effects;
use oc_names::table::{Table, function_table, main_place, result_at};
use oc_reach::marks::Marks;
use oc_tree::marked::{Marked, Region};
use oc_tree::name::Name;
use oc_tree::tree::{Call, Function, StmtId};
use oc_weight::called::callees_first;
use std::alloc::{AllocError, Global};
use std::marker::Model;

/// A marked program, which contracts see as it is, with tables by statement number.
#[derive(Drop)]
pub struct Known<'a> {
    marked: &'a Marked,
    functions: &'a [Function],
    table: Table<'a>,
    effects: &'a Effects<'a>,
    uses: Vec<bool>,
    begins: Vec<bool>,
    ends: Vec<bool>,
}

impl<'a> Model for Known<'a> {
    ghost use Rattle.std.specs.Prelude.{◌≡◌, ℕ, false, map, nat_eq};
    ghost use Rattle.std.specs.Coded.{codes};
    ghost use Rattle.std.specs.List.{list_any};
    ghost use Rattle.std.proofs.Math.ListN.{get_or};
    ghost use Rattle.oc_tree.specs.Stored.{block_code};
    ghost use Rattle.oc_tree.specs.View.{function_view};
    ghost use Rattle.oc_tree.specs.Calls.{function_names};
    ghost use Rattle.oc_tree.specs.Marked.{TMarked};
    ghost use Rattle.oc_budget.specs.Costs.{is_use};

    ghost Value = { TMarked };

    ghost coded = { Prim.hlevel (codes, block_code (Prim.hlevel codes)) };

    ghost view = { λ k. k.marked.now };

    ghost invariant = { λ k. (map function_view k.functions.now ≡ k.marked.now.program.functions)
        × (k.table ≡ function_names k.marked.now.program.functions)
        × (k.effects.now.program ≡ k.marked.now.program)
        × ((n : ℕ) → get_or k.uses.items n false ≡ is_use k.marked.now.program n)
        × ((n : ℕ) → get_or k.begins.items n false
        ≡ list_any (λ r. nat_eq r.first n) k.marked.now.regions)
        × ((n : ℕ) → get_or k.ends.items n false
        ≡ list_any (λ r. nat_eq r.last n) k.marked.now.regions) };
}

/// The table of the statements with which regions begin.
fn begin_table(alloc: Global, regions: &[Region]) -> Result<Vec<bool>, AllocError>
    ensures { IfOk result (λ t. (n : ℕ)
        → get_or t.items n false ≡ list_any (λ r. nat_eq r.first n) (map region_view regions.now)) }
{
    let mut table = Vec::new(alloc);
    for region in regions {
        mark(&mut table, region.range.first)?;
    }
    Ok(table)
}

/// The table of the statements with which regions end.
fn end_table(alloc: Global, regions: &[Region]) -> Result<Vec<bool>, AllocError>
    ensures { IfOk result (λ t. (n : ℕ)
        → get_or t.items n false ≡ list_any (λ r. nat_eq r.last n) (map region_view regions.now)) }
{
    let mut table = Vec::new(alloc);
    for region in regions {
        mark(&mut table, region.range.last)?;
    }
    Ok(table)
}

impl<'a> Known<'a> {
    /// What is asked of a program with regions, of whose statements these are the effects.
    pub fn new(
        alloc: Global,
        marked: &'a Marked,
        effects: &'a Effects<'a>,
    ) -> Result<Known<'a>, AllocError>
        requires { effects.now.program ≡ marked.now.program }
        ensures { IfOk result (λ k. k ≡ marked.now) }
    {
        let functions = marked.checked().program().functions.as_slice();
        let table = function_table(alloc, functions)?;
        let uses = use_table(alloc, effects)?;
        let begins = begin_table(alloc, marked.regions())?;
        let ends = end_table(alloc, marked.regions())?;
        Ok(Known {
            marked,
            functions,
            table,
            effects,
            uses,
            begins,
            ends,
        })
    }

    /// The functions of the program.
    pub fn functions(&self) -> &'a [Function]
        ensures { map function_view result.now ≡ self.now.program.functions }
    {
        // For the proof alone: the view or the invariant speaks of this field.
        let _marked = self.marked;
        self.functions
    }

    /// The regions of the program.
    pub fn regions(&self) -> &'a [Region]
        ensures { map region_view result.now ≡ self.now.regions }
    {
        self.marked.regions()
    }

    /// The functions in an order in which each comes behind those that it calls.
    pub fn callees_first(&self, alloc: Global) -> Result<Marks, AllocError>
        requires { IsMarked self.now }
        ensures { IfOk result (λ m. IsOrder (call_links self.now.program.functions)
            (length self.now.program.functions) m.0) }
    {
        // For the proof alone: the view or the invariant speaks of this field.
        let _marked = self.marked;
        let order = callees_first(alloc, self.functions, &self.table)?;
        Ok(order.unwrap())
    }

    /// The place of the function of a name.
    pub fn place(&self, name: &Name) -> Option<usize>
        ensures { result ≡ function_place self.now.program.functions name.now }
    {
        // For the proof alone: the view or the invariant speaks of this field.
        let _marked = self.marked;
        self.table.place(name)
    }

    /// The place of `main`.
    pub fn main_place(&self) -> Option<usize>
        ensures { result ≡ function_place self.now.program.functions (codes "main") }
    {
        // For the proof alone: the view or the invariant speaks of this field.
        let _marked = self.marked;
        main_place(self.functions)
    }

    /// Whether a call has a result.
    pub fn has_result(&self, call: &Call) -> bool
        ensures { result ≡ has_result self.now.program.functions (call_view call.now) }
    {
        // For the proof alone: the view or the invariant speaks of this field.
        let _marked = self.marked;
        result_at(self.functions, self.place(&call.function))
    }

    /// Whether a statement uses a fresh variable.
    pub fn uses(&self, s: StmtId) -> bool
        ensures { result ≡ is_use self.now.program s }
    {
        // For the proof alone: the view or the invariant speaks of this field.
        let _marked = self.marked;
        has(self.uses.as_slice(), s)
    }

    /// How many marks of regions stand at a statement.
    pub fn marks(&self, s: StmtId) -> u64
        ensures { result ≡ marks_at self.now.regions s }
    {
        // For the proof alone: the view or the invariant speaks of this field.
        let _marked = self.marked;
        let begins = if has(self.begins.as_slice(), s) { 1 } else { 0 };
        let ends = if has(self.ends.as_slice(), s) { 1 } else { 0 };
        begins + ends
    }

    /// Whether a statement stands directly in a region.
    pub fn is_in_region(&self, region: &Region, s: StmtId) -> bool
        ensures { result ≡ is_in_region self.now.program (region_view region.now) s }
    {
        // For the proof alone: the view or the invariant speaks of this field.
        let _marked = self.marked;
        self.effects.is_in_region(region, s)
    }

    /// Whether all statements of the function at a place come before a region, or all behind it.
    pub fn is_apart(&self, region: &Region, place: usize) -> bool
        requires { place < length self.now.program.functions }
        ensures { result ≡ true
            → has_within (region_view region.now) (effects_at self.now.program place) ≡ false }
    {
        // For the proof alone: the view or the invariant speaks of this field.
        let _marked = self.marked;
        let first = self.effects.first(place);
        let count = self.effects.of_function(place).len();
        let range = region.range;
        range.last < first || range.first.saturating_sub(first) as usize >= count
    }
}
