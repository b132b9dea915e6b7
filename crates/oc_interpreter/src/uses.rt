//! Uses of fresh variables.
ghost use Rattle.std.specs.Prelude.{◌≡◌, Some, None, IfOk, if◌then◌else◌};
ghost use Rattle.std.specs.List.{list_any};
ghost use Rattle.oc_tree.specs.View.{kind_view};
ghost use Rattle.oc_meaning.specs.Uses.{is_fresh, is_use, samples_of_fresh, use_samples};
ghost use Rattle.oc_interpreter.specs.Fresh.{with_name};
ghost use Rattle.oc_tree.specs.Names.{names_seen};

use crate::samples::Samples;
use crate::store::Store;
use oc_meaning::scope::Scope;
use oc_tree::name::Name;
use oc_tree::named::own_names;
use oc_tree::tree::StmtKind;
use std::alloc::{AllocError, Global};

/// Whether one of these names is that of a fresh variable.
fn names_fresh(scope: &Scope, names: &[&Name]) -> bool
    ensures { result ≡ list_any (is_fresh scope.now) (names_seen names.now) }
{
    for name in names {
        if scope.is_fresh(name) {
            return true;
        }
    }
    false
}

/// These samples, with those of the variable of a name that is one of a fresh variable.
fn with_name(
    scope: &Scope,
    store: &Store,
    name: &Name,
    samples: Samples,
) -> Result<Samples, AllocError>
    ensures { IfOk result (λ s. s ≡ with_name scope.now store.now name.now samples) }
{
    if scope.is_fresh(name) {
        store.samples(scope.place(name))?.union(samples)
    } else {
        Ok(samples)
    }
}

/// The samples of the fresh variables among these names.
fn samples_of_fresh(
    alloc: Global,
    scope: &Scope,
    store: &Store,
    mut names: Vec<&Name>,
) -> Result<Samples, AllocError>
    ensures { IfOk result
        (λ s. s ≡ samples_of_fresh scope.now store.now (names_seen names.entry.items)) }
{
    let mut samples = Samples::none(alloc);
    while let Some(name) = names.pop() {
        samples = with_name(scope, store, name, samples)?;
    }
    Ok(samples)
}

/// The samples of the fresh variables that a statement names, where it names one.
pub fn find_use(
    alloc: Global,
    scope: &Scope,
    store: &Store,
    kind: &StmtKind,
) -> Result<Option<Samples>, AllocError>
    ensures { IfOk result (λ o. o
        ≡ (if is_use (is_fresh scope.now) (kind_view kind.now) then Some
        (use_samples scope.now (kind_view kind.now) store.now) else None)) }
{
    let mut names = Vec::new(alloc);
    own_names(kind, &mut names)?;
    if names_fresh(scope, &names) {
        let samples = samples_of_fresh(alloc, scope, store, names)?;
        Ok(Some(samples))
    } else {
        Ok(None)
    }
}
