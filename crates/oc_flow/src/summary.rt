//! What is known of flow and input in all functions of a program.
ghost use Rattle.std.specs.Prelude.{◌≡◌, Option, IfOk};
ghost use Rattle.oc_tree.specs.Checked.{TChecked};
ghost use Rattle.oc_flow.specs.Flow.{brings_at, flows, may_bring_at};
ghost use Rattle.oc_flow.specs.Known.{AllKnown, Holds, known_at, known_flows};

use crate::inputs::{brought_by, may_bring};
use crate::known::Known;
use oc_effects::effects::Effects;
use oc_tree::tree::{StmtId, VarId};
use std::alloc::{AllocError, Global};
use std::marker::Model;

/// What flows where in a checked program, which contracts see as that program.
#[derive(Drop)]
pub struct Summaries<'a> {
    effects: Effects<'a>,
    known: Vec<Option<Known>>,
}

impl<'a> Model for Summaries<'a> {
    ghost use Rattle.std.specs.Coded.{codes};
    ghost use Rattle.oc_tree.specs.Stored.{block_code};
    ghost use Rattle.oc_tree.specs.Checked.{TChecked};
    ghost use Rattle.oc_flow.specs.Known.{AllKnown};

    ghost Value = { TChecked };

    ghost coded = { Prim.hlevel (codes, block_code (Prim.hlevel codes)) };

    ghost view = { λ s. s.effects };

    ghost invariant = { λ s. AllKnown s.effects.program s.known.items };
}

/// Whether `u` flows into `v` in the function at a place; not so where nothing is known of it.
fn known_flows(known: &[Option<Known>], function: u32, u: VarId, v: VarId) -> bool
    ensures { result ≡ known_flows (known_at known.now function) u v }
{
    match known.get(function as usize) {
        Some(Some(one)) => one.flows(u, v),
        _ => false,
    }
}

impl<'a> Summaries<'a> {
    /// The summaries of a program, of whose functions this is known.
    pub fn new(effects: Effects<'a>, known: Vec<Option<Known>>) -> Summaries<'a>
        requires { AllKnown effects.program known.items }
        ensures { result ≡ effects.entry }
    {
        Summaries { effects, known }
    }

    /// What the statements of the program do.
    pub fn effects(&self) -> &Effects<'a>
        ensures { result.now ≡ self.now }
    {
        // For the proof alone: the view or the invariant speaks of this field.
        let _known = &self.known;
        &self.effects
    }

    /// The same, given away.
    pub fn into_effects(self) -> Effects<'a>
        ensures { result ≡ self.entry }
    {
        // For the proof alone: the view or the invariant speaks of this field.
        let _known = &self.known;
        self.effects
    }

    /// Whether `u` flows into `v` in the function at a place; not so where there is no such function
    /// or no such variable of it.
    pub fn flows(&self, function: u32, u: VarId, v: VarId) -> bool
        ensures { result ≡ flows self.now.program function u v }
    {
        // For the proof alone: the view or the invariant speaks of this field.
        let _effects = &self.effects;
        known_flows(self.known.as_slice(), function, u, v)
    }

    /// The variables into which a statement brings input.
    pub fn brought(&self, alloc: Global, s: StmtId) -> Result<Vec<VarId>, AllocError>
        ensures { IfOk result (λ r. Holds r.items (brings_at self.now.program s)) }
    {
        // For the proof alone: it tells that the program is checked.
        let _program = self.effects.checked().program();
        match self.effects.at(s) {
            Some(effect) => {
                let brought = brought_by(alloc, self.known.as_slice(), effect)?;
                Ok(brought)
            }
            None => Ok(Vec::new(alloc)),
        }
    }

    /// Whether a statement may bring input into any variable: it reads one, or it calls a function.
    pub fn may_bring(&self, s: StmtId) -> bool
        ensures { result ≡ may_bring_at self.now.program s }
    {
        // For the proof alone: the view or the invariant speaks of this field.
        let _known = &self.known;
        // For the proof alone: it tells that the program is checked.
        let _program = self.effects.checked().program();
        match self.effects.at(s) {
            Some(effect) => may_bring(effect),
            None => false,
        }
    }
}
