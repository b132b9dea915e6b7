//! What is counted, and the limits.
ghost use Rattle.std.specs.Prelude.{◌≡◌, ◌<◌, ◌≤◌, ◌^◌, ◌+◌, false, OnOk};
ghost use Rattle.std.specs.List.{list_any};
ghost use Rattle.oc_tree.specs.Nodes.{kind_nodes};
ghost use Rattle.oc_tree.specs.View.{function_view, kind_view};
ghost use Rattle.oc_tree.specs.Limits.{Tally, item_passes, nothing_counted, own_declares, policies_after, same_policy, statement_passes, with_item, with_policy, with_statement};
ghost use Rattle.oc_tree.specs.Elements.{nv_item, function_item};
ghost use Rattle.oc_tree.specs.Sizes.{call_limit, statement_limit, variable_limit, word_limit};
ghost use Rattle.oc_types.specs.Standing.{here_of};
ghost use Rattle.oc_types.specs.Small.{IsSmall};

use crate::place::Place;
use crate::scope::Scope;
use crate::statement::Statement;
use oc_tree::before::Before;
use oc_tree::name::Name;
use oc_tree::pulls::own_pulls;
use oc_tree::scope::{Annotated, Origin};
use oc_tree::tree::{Function, NvDecl, StmtKind};
use std::alloc::{AllocError, Global};
use std::marker::Model;

/// Whether two annotations ask for the same.
fn same_policy(left: Annotated, right: Annotated) -> bool
    ensures { result ≡ same_policy left right }
{
    match left {
        Annotated::Fresh { stmt } => match right {
            Annotated::Fresh { stmt: other } => stmt == other,
            Annotated::Consistent { .. } => false,
        },
        Annotated::Consistent { function, id } => match right {
            Annotated::Consistent {
                function: other,
                id: number,
            } => function == other && id == number,
            Annotated::Fresh { .. } => false,
        },
    }
}

/// Whether a policy is among these.
fn is_noted(policies: &[Annotated], policy: Annotated) -> bool
    ensures { result ≡ list_any (same_policy policy) policies.now }
{
    for noted in policies {
        if same_policy(policy, *noted) {
            return true;
        }
    }
    false
}

/// Notes a policy, unless it is there.
fn note(policies: &mut Vec<Annotated>, policy: Annotated) -> Result<(), AllocError>
    ensures { OnOk result (policies.new.items ≡ with_policy policies.old.items policy) }
{
    if is_noted(policies.as_slice(), policy) {
        return Ok(());
    }
    policies.push(policy)?;
    Ok(())
}

/// Notes the policy that a statement asks for, if it asks for one that isn't there. Err is want of
/// memory.
fn note_policy<'a>(
    policies: &mut Vec<Annotated>,
    place: Place<'a>,
    scope: &Scope<'a>,
    kind: &StmtKind,
) -> Result<(), AllocError>
    ensures { OnOk result
        (policies.new.items ≡ policies_after policies.old.items (here_of place.entry scope.now)
        (kind_view kind.now)) }
{
    match kind {
        StmtKind::Fresh { name } => match scope.get(name) {
            Some(variable) => match variable.origin {
                Origin::Let { stmt, .. } => note(policies, Annotated::Fresh { stmt }),
                _ => Ok(()),
            },
            None => Ok(()),
        },
        StmtKind::Consistent { id, .. } => note(
            policies,
            Annotated::Consistent {
                function: place.number,
                id: *id,
            },
        ),
        _ => Ok(()),
    }
}

/// How many variables a statement declares itself: 1 or 0.
fn own_declares(kind: &StmtKind) -> u64
    ensures { result ≡ own_declares (kind_view kind.now) }
{
    match kind {
        StmtKind::Let { .. } | StmtKind::LetArray { .. } | StmtKind::For { .. } => 1,
        _ => 0,
    }
}

/// The nonvolatile words so far, the variables of the function so far, and the statements, calls
/// and policies so far.
#[derive(Drop)]
pub struct Counts {
    words: u64,
    variables: u64,
    statements: u64,
    calls: u64,
    policies: Vec<Annotated>,
}

impl Model for Counts {
    ghost Value = { Tally };

    ghost view = { λ n. record {
      words = n.words;
      variables = n.variables;
      statements = n.statements;
      calls = n.calls;
      policies = n.policies.items;
    } };
}

impl Counts {
    /// Nothing is counted.
    pub fn new(alloc: Global) -> Counts
        ensures counts { result ≡ nothing_counted }
        ensures small { IsSmall result }
    {
        Counts {
            words: 0,
            variables: 0,
            statements: 0,
            calls: 0,
            policies: Vec::new(alloc),
        }
    }

    /// Counts a nonvolatile variable.
    pub fn add_nv(&mut self, name: &Name, nv: NvDecl)
        requires { IsSmall self.old }
        ensures { self.new ≡ with_item self.old (nv_item name.now nv) }
    {
        self.words += u64::from(nv.words);
    }

    /// Begins to count the variables of a function.
    pub fn begin(&mut self, function: &Function)
        ensures { self.new ≡ with_item self.old (function_item (function_view function.now)) }
    {
        self.variables = function.params.len() as u64;
    }

    /// Counts a statement.
    #[tactic(auto, using(crate::proofs::Counted::few_pulls, crate::proofs::Counted::few_calls))]
    pub fn add<'a>(
        &mut self,
        place: Place<'a>,
        scope: &Scope<'a>,
        statement: &Statement,
    ) -> Result<(), AllocError>
        requires small { IsSmall self.old }
        requires nodes { kind_nodes (kind_view statement.now) < 2 ^ 32 }
        ensures { OnOk result
            (self.new ≡ with_statement self.old (here_of place.entry scope.now)
            (kind_view statement.now)) }
    {
        let kind = statement.kind();
        let pulls = u64::from(own_pulls(kind));
        self.variables += pulls + own_declares(kind);
        self.statements += pulls + 1;
        self.calls += statement.calls().len() as u64;
        note_policy(&mut self.policies, place, scope, kind)?;
        Ok(())
    }

    /// Whether a limit is passed with a nonvolatile variable that is counted.
    pub fn nv_passes(&self, before: Before, name: &Name, nv: NvDecl) -> bool
        ensures passes { result ≡ item_passes self.now before (nv_item name.now nv) }
        ensures small { result ≡ false → self.now.words ≤ word_limit }
    {
        64 <= before.nvs || 65536 < self.words
    }

    /// Whether a limit is passed with the head of a function that is counted.
    pub fn function_passes(&self, before: Before, function: &Function) -> bool
        ensures passes { result
            ≡ item_passes self.now before (function_item (function_view function.now)) }
        ensures small { result ≡ false → self.now.variables ≤ variable_limit }
    {
        128 <= before.functions || 8 < function.params.len() || 256 < self.variables
    }

    /// Whether a limit is passed with a statement that is counted.
    pub fn statement_passes(&self) -> bool
        ensures passes { result ≡ statement_passes self.now }
        ensures small { result ≡ false
            → (self.now.variables ≤ variable_limit) × (self.now.statements ≤ statement_limit)
            × (self.now.calls ≤ call_limit) }
    {
        256 < self.variables
            || 8192 < self.statements
            || 1024 < self.calls
            || 64 < self.policies.len()
    }
}
