//! What is known of a function.
ghost use Rattle.std.specs.Prelude.{◌≡◌, ◌<◌, length, map, Option};
ghost use Rattle.std.proofs.Math.ListN.{get_or};
ghost use Rattle.oc_tree.specs.declared.tree.VarId.{VarId};
ghost use Rattle.oc_tree.specs.declared.tree.VarId.TheVariants.{Returned};
ghost use Rattle.oc_effects.specs.View.{called_view, effect_view};
ghost use Rattle.oc_flow.specs.Variables.{arg_at, is_variable_of};
ghost use Rattle.oc_flow.specs.Known.{TKnown, end_of, known_receives, number_in, table_flows};

use crate::numbering::is_same;
use crate::table::Table;
use oc_effects::effect::{Called, Effect};
use oc_tree::tree::VarId;
use std::marker::Model;

/// What is known of a function: the flow of its variables, those that it doesn't declare with their
/// numbers, and which receive input.
#[derive(Drop)]
pub struct Known {
    table: Table,
    outer: Vec<VarId>,
    numbers: Vec<Option<usize>>,
    received: Vec<bool>,
}

impl Model for Known {
    ghost use Rattle.std.specs.Prelude.{◌≡◌, map};
    ghost use Rattle.oc_flow.specs.Known.{TKnown, number_in};

    ghost Value = { TKnown };

    ghost view = { λ k. record {
      table = k.table;
      outer = k.outer.items;
      received = k.received.items;
    } };

    ghost invariant = { λ k. k.numbers.items ≡ map (number_in k.table.variables) k.outer.items };
}

impl Known {
    /// A function with this table, these variables with their numbers, and what variables receive.
    pub fn new(
        table: Table,
        outer: Vec<VarId>,
        numbers: Vec<Option<usize>>,
        received: Vec<bool>,
    ) -> Known
        requires { numbers.items ≡ map (number_in table.variables) outer.items }
        ensures { result ≡ record
            { table = table; outer = outer.items; received = received.items } }
    {
        Known {
            table,
            outer,
            numbers,
            received,
        }
    }

    /// The variables that the function doesn't declare.
    pub fn outer(&self) -> &[VarId]
        ensures { result.now ≡ self.now.outer }
    {
        // For the proof alone: the view or the invariant speaks of these fields.
        let _table = &self.table;
        let _numbers = &self.numbers;
        self.outer.as_slice()
    }

    /// Whether `u` flows into `v`.
    pub fn flows(&self, u: VarId, v: VarId) -> bool
        ensures { result ≡ table_flows self.now.table u v }
    {
        // For the proof alone: the view or the invariant speaks of these fields.
        let _outer = &self.outer;
        let _numbers = &self.numbers;
        self.table.flows(u, v)
    }

    /// Whether one of the variables that the function doesn't declare flows into another, by their
    /// places.
    pub fn flows_at(&self, i: usize, j: usize) -> bool
        requires i { i < length self.now.outer }
        requires j { j < length self.now.outer }
        ensures { result ≡ table_flows self.now.table (get_or self.now.outer i Returned)
            (get_or self.now.outer j Returned) }
    {
        match (self.numbers[i], self.numbers[j]) {
            (Some(m), Some(n)) => m == n || self.table.has(m, n),
            _ => false,
        }
    }

    /// Whether a variable receives input.
    pub fn receives(&self, v: VarId) -> bool
        ensures { result ≡ known_receives self.now v }
    {
        match self.table.number(v) {
            Some(i) => i < self.received.len() && self.received[i],
            None => false,
        }
    }
}

/// The variable that a call lends for the parameter with this number, if it lends one.
fn lent_at(call: &Called, i: u32) -> Option<VarId>
    ensures { result ≡ (arg_at (called_view call.now) i).lent }
{
    match call.args.get(i as usize) {
        Some(arg) => arg.lent,
        None => None,
    }
}

/// The variable of the caller that a callee's variable stands for, where it ends a flow.
pub fn end_of(effect: &Effect, call: &Called, y: VarId) -> Option<VarId>
    ensures { result ≡ end_of (effect_view effect.now) (called_view call.now) y }
{
    match y {
        VarId::Nv { .. } => Some(y),
        VarId::Param { index } => lent_at(call, index),
        VarId::Declared { .. } => None,
        VarId::Returned => effect.target,
    }
}

/// Whether it is this variable.
pub fn is_variable_of(variable: Option<VarId>, v: VarId) -> bool
    ensures { result ≡ is_variable_of variable v }
{
    match variable {
        Some(w) => is_same(w, v),
        None => false,
    }
}
