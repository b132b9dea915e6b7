//! The names in the values that statements set variables to.
ghost use Rattle.std.specs.Prelude.{◌≡◌, ◌++◌, OnOk};
ghost use Rattle.oc_tree.specs.View.{kind_view, right_view};
ghost use Rattle.oc_tree.specs.Names.{names_seen};
ghost use Rattle.oc_effects.specs.Effects.{source_names, value_names};

use oc_tree::name::Name;
use oc_tree::named::expr_names;
use oc_tree::tree::{Right, StmtKind};
use std::alloc::AllocError;

/// Adds the variables in a right side that is an expression.
fn value_names<'a>(right: &'a Right, names: &mut Vec<&'a Name>) -> Result<(), AllocError>
    ensures { OnOk result
        (names_seen names.new.items
        ≡ names_seen names.old.items ++ value_names (right_view right.now)) }
{
    match right {
        Right::Value { value } => expr_names(value, names),
        Right::Sense { .. } | Right::Call { .. } => Ok(()),
    }
}

/// Adds the variables in the value that a statement sets a variable to, and in its target's index.
pub fn source_names<'a>(kind: &'a StmtKind, names: &mut Vec<&'a Name>) -> Result<(), AllocError>
    ensures { OnOk result
        (names_seen names.new.items
        ≡ names_seen names.old.items ++ source_names (kind_view kind.now)) }
{
    match kind {
        StmtKind::Let { right, .. }
        | StmtKind::Assign { right, .. }
        | StmtKind::AssignDeref { right, .. } => value_names(right, names),
        StmtKind::AssignIndex { index, right, .. } => {
            expr_names(index, names)?;
            value_names(right, names)
        }
        StmtKind::Return { value } => expr_names(value, names),
        StmtKind::LetArray { .. }
        | StmtKind::If { .. }
        | StmtKind::For { .. }
        | StmtKind::While { .. }
        | StmtKind::CallOnly { .. }
        | StmtKind::SenseOnly { .. }
        | StmtKind::Emit { .. }
        | StmtKind::Fresh { .. }
        | StmtKind::Consistent { .. } => Ok(()),
    }
}
