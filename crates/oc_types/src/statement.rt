//! Statements with the calls in them.
ghost use Rattle.std.specs.Coded.{codes};
ghost use Rattle.std.specs.Prelude.{◌≡◌, IfOk};
ghost use Rattle.oc_tree.specs.declared.tree.StmtKind.{StmtKind};
ghost use Rattle.oc_tree.specs.contracts.tree.StmtKind as k;
ghost use Rattle.oc_tree.specs.View.{kind_view};
ghost use Rattle.oc_reach.specs.Views.{calls_seen};
ghost use Rattle.oc_tree.specs.Calls.{own_calls};

use oc_reach::parts::own_calls;
use oc_tree::tree::{Call, StmtKind};
use std::alloc::{AllocError, Global};
use std::marker::Model;

/// A statement with the calls in its own expressions and arguments, in the order in which they end.
/// Contracts see it as the statement.
#[derive(Drop)]
pub struct Statement<'a> {
    kind: &'a StmtKind,
    calls: Vec<&'a Call>,
}

impl<'a> Model for Statement<'a> {
    ghost Value = { StmtKind };

    ghost coded = { Prim.hlevel (codes, k.the_row.coded) };

    ghost view = { λ s. s.kind.now };

    ghost invariant = { λ s. calls_seen s.calls.items ≡ own_calls (kind_view s.kind.now) };
}

impl<'a> Statement<'a> {
    /// A statement, whose calls are looked for.
    pub fn new(alloc: Global, kind: &'a StmtKind) -> Result<Statement<'a>, AllocError>
        ensures { IfOk result (λ s. s ≡ kind.now) }
    {
        let mut calls = Vec::new(alloc);
        own_calls(kind, &mut calls)?;
        Ok(Statement { kind, calls })
    }

    /// The statement itself.
    pub fn kind(&self) -> &'a StmtKind
        ensures { result.now ≡ self.now }
    {
        self.kind
    }

    /// The calls in its own expressions and arguments.
    pub fn calls(&self) -> &[&'a Call]
        ensures { calls_seen result.now ≡ own_calls (kind_view self.now) }
    {
        self.calls.as_slice()
    }
}
