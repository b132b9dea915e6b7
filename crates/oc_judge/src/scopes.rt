//! Visible variables with one more.
ghost use Rattle.std.specs.Prelude.{◌≡◌, ◌∷◌, false, length, IfOk};
ghost use Rattle.oc_tree.specs.View.{kind_view, stmts_view};
ghost use Rattle.oc_meaning.specs.Exec.{grown};
ghost use Rattle.oc_meaning.specs.Scopes.{binding_view};
ghost use Rattle.oc_meaning.specs.Store.{Local};
ghost use Rattle.oc_meaning.specs.Store as meant;
ghost use Rattle.oc_meaning.specs.Uses.{is_annotated};

use oc_meaning::names::is_annotated;
use oc_meaning::place::Place;
use oc_meaning::scope::{Binding, Scope};
use oc_tree::name::Name;
use oc_tree::tree::{Stmt, StmtKind};
use std::alloc::{AllocError, Global};
use std::rc::Rc;

/// These variables, of which a copy is made where others need them too.
fn own<'a>(alloc: Global, scope: Rc<Scope<'a>>) -> Result<Scope<'a>, AllocError>
    ensures { IfOk result (λ s. s ≡ scope.entry.value) }
{
    match Rc::try_unwrap(scope) {
        Ok(own) => Ok(own),
        Err(shared) => {
            let copy = shared.copy(alloc)?;
            Ok(copy)
        }
    }
}

/// These variables, and one more.
pub fn with_variable<'a>(
    alloc: Global,
    scope: Scope<'a>,
    binding: Binding<'a>,
) -> Result<Rc<Scope<'a>>, AllocError>
    ensures { IfOk result (λ s. s.value ≡ binding_view binding.entry ∷ scope.entry) }
{
    let mut more = scope;
    more.push(binding)?;
    Ok(Rc::new(alloc, more)?)
}

/// These variables, and one more that a statement makes where so many local ones live. Those that
/// follow say whether it is fresh.
fn with_local<'a>(
    alloc: Global,
    scope: Rc<Scope<'a>>,
    name: &'a Name,
    rest: &[Stmt],
    level: usize,
) -> Result<Rc<Scope<'a>>, AllocError>
    ensures { IfOk result
        (λ s. s.value
        ≡ record {
          name = name.now;
          place = Local level;
          reference = false;
          fresh = is_annotated name.now (stmts_view rest.now);
        } ∷ scope.entry.value) }
{
    let own = own(alloc, scope)?;
    let more = with_variable(
        alloc,
        own,
        Binding {
            name,
            place: Place::Local { level },
            reference: false,
            fresh: is_annotated(name, rest),
        },
    )?;
    Ok(more)
}

/// The variables that are visible behind a statement of this kind, before which so many local ones
/// live, with those that follow it.
pub fn grow<'a>(
    alloc: Global,
    scope: Rc<Scope<'a>>,
    kind: &'a StmtKind,
    rest: &[Stmt],
    level: usize,
) -> Result<Rc<Scope<'a>>, AllocError>
    ensures { IfOk result
        (λ s. (σ : meant.Store) → level ≡ length σ.locals
        → s.value ≡ grown (kind_view kind.now) (stmts_view rest.now) scope.entry.value σ) }
{
    match kind {
        StmtKind::Let { name, .. } => with_local(alloc, scope, name, rest, level),
        StmtKind::LetArray { name, .. } => with_local(alloc, scope, name, rest, level),
        _ => Ok(scope),
    }
}
