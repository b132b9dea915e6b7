//! Checked programs.
ghost use Rattle.std.specs.Prelude.{◌≡◌};
ghost use Rattle.oc_tree.specs.View.{program_view};
ghost use Rattle.oc_tree.specs.Checked.{IsChecked};

use crate::tree::{Program, StmtId};
use std::marker::Model;

/// A program without inputs and calls inside expressions, which is in form and breaks no rule, with
/// its groups: each is the numbers of its first and its last statement.
#[derive(Drop)]
pub struct Checked {
    program: Program,
    groups: Vec<(StmtId, StmtId)>,
}

impl Model for Checked {
    ghost use Rattle.std.specs.Coded.{codes};
    ghost use Rattle.oc_tree.specs.Stored.{block_code};
    ghost use Rattle.oc_tree.specs.View.{program_view};
    ghost use Rattle.oc_tree.specs.Checked.{IsChecked, TChecked};

    ghost Value = { TChecked };

    ghost coded = { Prim.hlevel (codes, block_code (Prim.hlevel codes)) };

    ghost view = { λ a. record { program = program_view a.program; groups = a.groups.items } };

    ghost invariant = { λ a. IsChecked (program_view a.program) a.groups.items };
}

impl Checked {
    /// The checked program of these groups, which is known to be one.
    pub fn new(program: Program, groups: Vec<(StmtId, StmtId)>) -> Checked
        requires { IsChecked (program_view program) groups.items }
        ensures { result ≡ record { program = program_view program; groups = groups.items } }
    {
        Checked { program, groups }
    }

    /// The program, which has no inputs and calls inside expressions and breaks no rule.
    pub fn program(&self) -> &Program
        ensures same { program_view result.now ≡ self.now.program }
        ensures checked { IsChecked self.now.program self.now.groups }
    {
        &self.program
    }

    /// The groups of the program, each by the numbers of its first and its last statement.
    pub fn groups(&self) -> &[(StmtId, StmtId)]
        ensures same { result.now ≡ self.now.groups }
        ensures checked { IsChecked self.now.program self.now.groups }
    {
        &self.groups
    }
}
