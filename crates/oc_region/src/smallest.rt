//! The smallest range of a requirement.
ghost use Rattle.std.specs.Prelude.{◌≡◌, List, ◌∷◌, Some, option_and_then, option_map, IfOk};
ghost use Rattle.oc_tree.specs.Checked.{Group, group_of};
ghost use Rattle.oc_needs.specs.View.{requirement_view};
ghost use Rattle.oc_region.specs.Smallest.{groups_in, in_block, smallest, spread};
ghost use Rattle.oc_region.specs.Views.{spread_from, stretch_view};

use crate::groups::{Group, group_table};
use crate::places::{common_block, in_block};
use crate::range::Stretch;
use oc_effects::effects::Effects;
use oc_needs::requirement::Requirement;
use oc_tree::marked::Range;
use oc_tree::tree::{BlockId, StmtId};
use std::alloc::{AllocError, Global};
use std::marker::Model;

/// The statements of a program with their groups, which contracts see as the program.
#[derive(Drop)]
pub struct Grouped<'a> {
    effects: &'a Effects<'a>,
    /// By the numbers of statements.
    groups: Vec<Option<Group>>,
}

impl<'a> Model for Grouped<'a> {
    ghost use Rattle.std.specs.Prelude.{◌≡◌, ℕ, None};
    ghost use Rattle.std.proofs.Math.ListN.{get_or};
    ghost use Rattle.std.specs.Coded.{codes};
    ghost use Rattle.oc_tree.specs.Stored.{block_code};
    ghost use Rattle.oc_tree.specs.Checked.{TChecked, group_of};

    ghost Value = { TChecked };

    ghost coded = { Prim.hlevel (codes, block_code (Prim.hlevel codes)) };

    ghost view = { λ a. a.effects.now };

    ghost invariant = { λ a. (s : ℕ) → get_or a.groups.items s None
        ≡ group_of a.effects.now.program a.effects.now.groups s };
}

/// From the first statement of groups to their last, with one more group.
fn wider(all: Option<Group>, group: Group) -> Group
    ensures { (gs : List Group) → spread_from (Some result) gs ≡ spread_from all (group ∷ gs) }
{
    match all {
        Some(g) => (g.0.min(group.0), g.1.max(group.1)),
        None => group,
    }
}

impl<'a> Grouped<'a> {
    /// The groups of the statements of a program.
    pub fn new(alloc: Global, effects: &'a Effects<'a>) -> Result<Grouped<'a>, AllocError>
        ensures { IfOk result (λ a. a ≡ effects.now) }
    {
        let groups = group_table(alloc, effects)?;
        Ok(Grouped { effects, groups })
    }

    /// The group of a statement.
    fn group_of(&self, s: StmtId) -> Option<Group>
        ensures { result ≡ group_of self.now.program self.now.groups s }
    {
        match self.groups.get(s as usize) {
            Some(group) => *group,
            None => None,
        }
    }

    /// The group in a block in which a statement stands.
    fn group_in(&self, block: BlockId, s: StmtId) -> Option<Group>
        ensures { result
            ≡ option_and_then (group_of self.now.program self.now.groups)
            (in_block self.now.program block s) }
    {
        let own = in_block(self.effects, block, s)?;
        self.group_of(own)
    }

    /// From the first to the last of the groups in a block in which these statements stand.
    fn span_sites(&self, block: BlockId, sites: &[StmtId]) -> Option<Group>
        ensures { result ≡ spread (groups_in self.now.program self.now.groups block sites.now) }
    {
        let mut all = None;
        for s in sites {
            if let Some(group) = self.group_in(block, *s) {
                all = Some(wider(all, group));
            }
        }
        all
    }

    /// The smallest range that holds the sites of a requirement.
    pub fn smallest(&self, required: &Requirement) -> Option<Stretch>
        ensures { option_map stretch_view result
            ≡ smallest self.now.program self.now.groups (requirement_view required.now) }
    {
        let block = common_block(self.effects, &required.sites)?;
        let group = self.span_sites(block, &required.sites)?;
        let range = Range {
            block,
            first: group.0,
            last: group.1,
        };
        Some(Stretch {
            function: required.function,
            range,
        })
    }
}
