//! Checked programs with regions.
ghost use Rattle.std.specs.Prelude.{◌≡◌, map};
ghost use Rattle.oc_tree.specs.Marked.{IsMarked, TMarked};
ghost use Rattle.oc_tree.specs.Regions.{region_view};

use crate::checked::Checked;
use crate::tree::{BlockId, StmtId, VarId};
use std::marker::Model;

/// What a policy asks for: that a variable is fresh, or that the inputs of the annotations with
/// this number are consistent.
#[derive(Clone, Copy)]
pub enum PolicyKind {
    /// The variable is fresh wherever it is used.
    Fresh { var: VarId },
    /// The inputs of the annotations with this number belong together.
    Consistent { id: i32 },
}

/// A policy of a function, which is told by its place.
#[derive(Clone, Copy)]
pub struct Policy {
    pub function: u32,
    pub kind: PolicyKind,
}

/// Statements that follow each other directly in a block, by the first and the last of them.
#[derive(Clone, Copy)]
pub struct Range {
    pub block: BlockId,
    pub first: StmtId,
    pub last: StmtId,
}

/// An atomic region: its number from 1, the place of its function, its statements, and the numbers
/// of the policies that ask for it, from 0.
#[derive(Drop)]
pub struct Region {
    pub id: u32,
    pub function: u32,
    pub range: Range,
    pub reasons: Vec<u32>,
}

/// A checked program with its policies and its regions. Regions are numbered by their first
/// statements, share no statement, and stand in no statement of one another.
#[derive(Drop)]
pub struct Marked {
    checked: Checked,
    policies: Vec<Policy>,
    regions: Vec<Region>,
}

impl Model for Marked {
    ghost use Rattle.std.specs.Prelude.{map};
    ghost use Rattle.std.specs.Coded.{codes};
    ghost use Rattle.oc_tree.specs.Stored.{block_code};
    ghost use Rattle.oc_tree.specs.Marked.{IsMarked, TMarked};
    ghost use Rattle.oc_tree.specs.Regions.{region_view};

    ghost Value = { TMarked };

    ghost coded = { Prim.hlevel (codes, block_code (Prim.hlevel codes)) };

    ghost view = { λ a. record {
      program = a.checked.program;
      groups = a.checked.groups;
      policies = a.policies.items;
      regions = map region_view a.regions.items;
    } };

    ghost invariant = { λ a. IsMarked (record {
      program = a.checked.program;
      groups = a.checked.groups;
      policies = a.policies.items;
      regions = map region_view a.regions.items;
    }) };
}

impl Marked {
    /// A checked program with these policies and regions.
    pub fn new(checked: Checked, policies: Vec<Policy>, regions: Vec<Region>) -> Marked
        requires { IsMarked (record {
          program = checked.program;
          groups = checked.groups;
          policies = policies.items;
          regions
              = map region_view regions.items;
        }) }
        ensures { result ≡ record {
          program = checked.program;
          groups = checked.groups;
          policies = policies.items;
          regions
              = map region_view regions.items;
        } }
    {
        Marked {
            checked,
            policies,
            regions,
        }
    }

    /// The checked program, without its policies and regions.
    pub fn checked(&self) -> &Checked
        ensures same { result.now
            ≡ record { program = self.now.program; groups = self.now.groups } }
        ensures marked { IsMarked self.now }
    {
        &self.checked
    }

    /// The regions, in the order of their numbers.
    pub fn regions(&self) -> &[Region]
        ensures { map region_view result.now ≡ self.now.regions }
    {
        &self.regions
    }

    /// The policies; the reasons of regions are places among them, from 0.
    pub fn policies(&self) -> &[Policy]
        ensures { result.now ≡ self.now.policies }
    {
        &self.policies
    }
}
