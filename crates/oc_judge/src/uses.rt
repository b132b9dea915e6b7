//! Uses of fresh variables.
ghost use Rattle.std.specs.Prelude.{◌≡◌, true, IfOk, List, OnOk};
ghost use Rattle.oc_tree.specs.Names.{names_seen};
ghost use Rattle.oc_tree.specs.View.{expr_view, kind_view};
ghost use Rattle.oc_meaning.specs.Exec.{done, used};
ghost use Rattle.oc_tree.specs.Named.{expr_names, own_names};
ghost use Rattle.oc_meaning.specs.Store.{Binding, Store};
ghost use Rattle.oc_meaning.specs.Uses.{is_fresh, is_use};
ghost use Rattle.oc_steps.specs.Ages.{join_ages};
ghost use Rattle.oc_steps.specs.Sets.{fresh_by, use_by};
ghost use Rattle.oc_judge.specs.Values.{age_view};
ghost use Rattle.oc_judge.specs.Fresh.{with_name};
ghost use Rattle.oc_judge.specs.Statements.{IsUse};

use crate::age::Age;
use crate::naming::is_use;
use crate::store::Store;
use oc_meaning::scope::Scope;
use oc_tree::name::Name;
use oc_tree::named::{expr_names, own_names};
use oc_tree::said::{Said, Shown};
use oc_tree::tree::{Expr, StmtId, StmtKind};
use std::alloc::{AllocError, Global};

/// Whether a statement begins a use and ends one, and the age of the fresh variables that it names.
#[derive(Clone, Copy)]
pub struct Use {
    pub begins: bool,
    pub ends: bool,
    pub age: Age,
}

/// This age, joined with that of the variable of a name that is one of a fresh variable.
fn with_name(scope: &Scope, store: &Store, name: &Name, age: Age) -> Age
    ensures { age_view result ≡ with_name scope.now store.now name.now (age_view age) }
{
    if scope.is_fresh(name) {
        store.age(scope.place(name)).join(age)
    } else {
        age
    }
}

/// The age of the fresh variables among these names.
fn age_of_fresh(scope: &Scope, store: &Store, mut names: Vec<&Name>) -> Age
    ensures { age_view result
        ≡ fresh_by join_ages scope.now store.now (names_seen names.entry.items) }
{
    let mut age = Age::Never;
    while let Some(name) = names.pop() {
        age = with_name(scope, store, name, age);
    }
    age
}

/// The names in a statement's own expressions or arguments.
fn names_in<'a>(alloc: Global, kind: &'a StmtKind) -> Result<Vec<&'a Name>, AllocError>
    ensures { IfOk result (λ ns. names_seen ns.items ≡ own_names (kind_view kind.now)) }
{
    let mut names = Vec::new(alloc);
    own_names(kind, &mut names)?;
    Ok(names)
}

/// The names in an expression.
fn names_of<'a>(alloc: Global, expr: &'a Expr) -> Result<Vec<&'a Name>, AllocError>
    ensures { IfOk result (λ ns. names_seen ns.items ≡ expr_names (expr_view expr.now)) }
{
    let mut names = Vec::new(alloc);
    expr_names(expr, &mut names)?;
    Ok(names)
}

/// The age of the fresh variables that an expression names.
pub fn expression_age(
    alloc: Global,
    scope: &Scope,
    store: &Store,
    expr: &Expr,
) -> Result<Age, AllocError>
    ensures { IfOk result
        (λ a. age_view a
        ≡ fresh_by join_ages scope.now store.now (expr_names (expr_view expr.now))) }
{
    let names = names_of(alloc, expr)?;
    Ok(age_of_fresh(scope, store, names))
}

/// What a statement that names fresh variables of this age says of a use: a `while` begins and ends
/// its uses itself, and a `return` ends them itself.
fn use_with(kind: &StmtKind, age: Age) -> Use
    ensures { (env : List Binding) (σ : Store) → is_use (is_fresh env) (kind_view kind.now) ≡ true
        → age_view age ≡ use_by join_ages env (kind_view kind.now) σ
        → IsUse env (kind_view kind.now) σ result }
{
    match kind {
        StmtKind::While { .. } => Use {
            begins: false,
            ends: false,
            age,
        },
        StmtKind::Return { .. } => Use {
            begins: true,
            ends: false,
            age,
        },
        _ => Use {
            begins: true,
            ends: true,
            age,
        },
    }
}

/// What a statement says of a use, and the age of the fresh variables that it names.
pub fn use_of(
    alloc: Global,
    scope: &Scope,
    store: &Store,
    kind: &StmtKind,
) -> Result<Use, AllocError>
    ensures { IfOk result (λ u. IsUse scope.now (kind_view kind.now) store.now u) }
{
    if !is_use(scope, kind) {
        return Ok(Use {
            begins: false,
            ends: false,
            age: Age::Never,
        });
    }
    let names = names_in(alloc, kind)?;
    let age = age_of_fresh(scope, store, names);
    Ok(use_with(kind, age))
}

/// Statement `n` begins a use of this age, if it is one.
pub fn begin_use(is: bool, n: StmtId, age: Age, store: &mut Store) -> Result<(), AllocError>
    ensures { OnOk result (store.new ≡ used is n (age_view age) store.old) }
{
    if is {
        let what = Shown::Used { stmt: n };
        store.note(Said::Showed { what }, age)?;
    }
    Ok(())
}

/// Statement `n` ends a use of this age, if it is one.
pub fn end_use(is: bool, n: StmtId, age: Age, store: &mut Store) -> Result<(), AllocError>
    ensures { OnOk result (store.new ≡ done is n (age_view age) store.old) }
{
    if is {
        let what = Shown::Finished { stmt: n };
        store.note(Said::Showed { what }, age)?;
    }
    Ok(())
}
