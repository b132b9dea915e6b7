//! A statement with all that is visible to it.
ghost use Rattle.std.specs.Prelude.{◌≡◌, IfOk};
ghost use Rattle.oc_tree.specs.Names.{names_seen};
ghost use Rattle.oc_effects.specs.Effects.{variable_at, variables_at};
ghost use Rattle.oc_effects.specs.Walk.{placed_view};

use crate::known::Known;
use crate::scope::Scope;
use oc_tree::name::Name;
use oc_tree::tree::{BlockId, StmtId, StmtKind, VarId};
use std::alloc::{AllocError, Global};

/// A statement: the program, the variables that are visible, the block, the statements around it,
/// the innermost first, and what it says.
#[derive(Clone, Copy)]
pub struct Here<'h, 'a> {
    pub known: &'h Known<'a>,
    pub scope: &'h Scope<'a>,
    pub block: BlockId,
    pub around: &'h [StmtId],
    pub stmt: StmtId,
    pub line: u32,
    pub kind: &'h StmtKind,
}

/// The variable that a name stands for.
pub fn variable(here: &Here, name: &Name) -> Option<VarId>
    ensures { result ≡ variable_at here.now.known.now (placed_view here.now) name.now }
{
    match here.scope.find(name) {
        Some(variable) => Some(variable),
        None => here.known.nv(name),
    }
}

/// The variables that names stand for.
pub fn variables(alloc: Global, here: &Here, names: &[&Name]) -> Result<Vec<VarId>, AllocError>
    ensures { IfOk result
        (λ v. v.items
        ≡ variables_at here.now.known.now (placed_view here.now) (names_seen names.now)) }
{
    let mut found = Vec::new(alloc);
    for name in names {
        if let Some(variable) = variable(here, *name) {
            found.push(variable)?;
        }
    }
    Ok(found)
}
