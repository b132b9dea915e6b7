//! What a statement sets and what it says of variables.
ghost use Rattle.std.specs.Prelude.{◌≡◌};
ghost use Rattle.oc_tree.specs.View.{kind_view};
ghost use Rattle.oc_effects.specs.Effects.{is_loop, is_sense, note_of, right_of, target_of};
ghost use Rattle.oc_effects.specs.Walk.{placed_view, right_seen};

use crate::effect::Note;
use crate::here::{Here, variable};
use oc_tree::tree::{Right, StmtKind, VarId};

/// Whether a statement is a loop.
pub fn is_loop(kind: &StmtKind) -> bool
    ensures { result ≡ is_loop (kind_view kind.now) }
{
    match kind {
        StmtKind::For { .. } | StmtKind::While { .. } => true,
        _ => false,
    }
}

/// The right side of a statement.
pub fn right_of(kind: &StmtKind) -> Option<&Right>
    ensures { right_seen result ≡ right_of (kind_view kind.now) }
{
    match kind {
        StmtKind::Let { right, .. }
        | StmtKind::Assign { right, .. }
        | StmtKind::AssignIndex { right, .. }
        | StmtKind::AssignDeref { right, .. } => Some(right),
        _ => None,
    }
}

/// Whether a statement sets a variable to an input.
pub fn senses(kind: &StmtKind) -> bool
    ensures { result ≡ is_sense (right_of (kind_view kind.now)) }
{
    match right_of(kind) {
        Some(Right::Sense { .. }) => true,
        _ => false,
    }
}

/// The variable that a statement sets.
pub fn target_of(here: &Here) -> Option<VarId>
    ensures { result
        ≡ target_of here.now.known.now (placed_view here.now) (kind_view here.now.kind.now) }
{
    match here.kind {
        StmtKind::Let { .. } | StmtKind::LetArray { .. } => Some(VarId::Declared {
            stmt: here.stmt,
        }),
        StmtKind::Assign { name, .. }
        | StmtKind::AssignIndex { name, .. }
        | StmtKind::AssignDeref { name, .. } => variable(here, name),
        StmtKind::Return { .. } => Some(VarId::Returned),
        _ => None,
    }
}

/// The annotation that a statement is.
pub fn note_of(here: &Here) -> Option<Note>
    ensures { result
        ≡ note_of here.now.known.now (placed_view here.now) (kind_view here.now.kind.now) }
{
    match here.kind {
        StmtKind::Fresh { name } => {
            let var = variable(here, name)?;
            Some(Note::Fresh { var })
        }
        StmtKind::Consistent { name, id } => {
            let var = variable(here, name)?;
            Some(Note::Consistent { var, id: *id })
        }
        _ => None,
    }
}
