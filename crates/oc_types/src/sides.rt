//! Whether right sides and conditions have the types that are wanted, and arrays their lengths.
ghost use Rattle.std.specs.Prelude.{◌≡◌};
ghost use Rattle.oc_tree.specs.View.{kind_view, program_view};
ghost use Rattle.oc_tree.specs.Rules.{condition_is_number, has_bad_length, is_array_value, is_bad_length, let_bad_length, sides_differ, written_array_differs, written_bad_length, written_differs};

use crate::scope::Scope;
use crate::top::TopLevel;
use crate::types::{
    is_array, is_bool, is_by_reference, is_int, is_same, is_same_kind, pointed_type, right_type,
    scalar_of, type_of, value_type,
};
use oc_tree::tree::{Param, Scalar, StmtKind, ValueKind};

/// Whether the type that is written in a `let` is another one than that of the right side; not so
/// where none is written.
fn written_differs(written: Option<ValueKind>, right: Option<Scalar>) -> bool
    ensures { result ≡ written_differs written right }
{
    match written {
        Some(kind) => !is_same(scalar_of(kind), right),
        None => false,
    }
}

/// Whether the type that is written in a `let` is no array of so many words; not so where none is
/// written.
fn written_array_differs(written: Option<ValueKind>, words: u32) -> bool
    ensures { result ≡ written_array_differs written words }
{
    match written {
        Some(kind) => !is_same_kind(kind, ValueKind::Array { words }),
        None => false,
    }
}

/// Whether a right side hasn't the type of its target, or a target of `=` is no scalar.
pub fn sides_differ<'a>(top: &TopLevel<'a>, scope: &Scope<'a>, kind: &StmtKind) -> bool
    ensures { result ≡ sides_differ (program_view top.now) scope.now (kind_view kind.now) }
{
    match kind {
        StmtKind::Let { kind, right, .. } => written_differs(*kind, right_type(top, scope, right)),
        StmtKind::LetArray { kind, words, .. } => written_array_differs(*kind, *words),
        StmtKind::Assign { name, right } => !is_same(
            value_type(top.variable(scope, name)),
            right_type(top, scope, right),
        ),
        StmtKind::AssignIndex { right, .. } => !is_int(right_type(top, scope, right)),
        StmtKind::AssignDeref { name, right } => !is_same(
            pointed_type(top.variable(scope, name)),
            right_type(top, scope, right),
        ),
        StmtKind::Emit { value, .. } => !is_int(type_of(top, scope, value)),
        _ => false,
    }
}

/// Whether the condition of a statement is no truth value.
pub fn condition_is_number<'a>(top: &TopLevel<'a>, scope: &Scope<'a>, kind: &StmtKind) -> bool
    ensures { result ≡ condition_is_number (program_view top.now) scope.now (kind_view kind.now) }
{
    match kind {
        StmtKind::If { condition, .. } | StmtKind::While { condition, .. } => !is_bool(type_of(
            top, scope, condition,
        )),
        _ => false,
    }
}

/// Whether an array may not have so many words: less than 1, or more than 65,536.
fn is_bad_length(words: u32) -> bool
    ensures { result ≡ is_bad_length words }
{
    words < 1 || 65536 < words
}

/// Whether it is an array of a length that none may have.
pub fn has_bad_length(kind: ValueKind) -> bool
    ensures { result ≡ has_bad_length kind }
{
    match kind {
        ValueKind::Array { words } => is_bad_length(words),
        _ => false,
    }
}

/// Whether the type that is written in a `let` is an array of a length that none may have; not so
/// where none is written.
fn written_bad_length(written: Option<ValueKind>) -> bool
    ensures { result ≡ written_bad_length written }
{
    match written {
        Some(kind) => has_bad_length(kind),
        None => false,
    }
}

/// Whether a `let` makes or writes down an array of a length that none may have.
pub fn let_bad_length(kind: &StmtKind) -> bool
    ensures { result ≡ let_bad_length (kind_view kind.now) }
{
    match kind {
        StmtKind::Let { kind, .. } => written_bad_length(*kind),
        StmtKind::LetArray { kind, words, .. } => written_bad_length(*kind)
            || is_bad_length(*words),
        _ => false,
    }
}

/// Whether a parameter is an array by value.
pub fn is_array_value(param: &Param) -> bool
    ensures { result ≡ is_array_value param.now }
{
    !is_by_reference(param.passing) && is_array(param.kind)
}
