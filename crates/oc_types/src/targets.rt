//! What may be written to, and lent.
ghost use Rattle.std.specs.Prelude.{◌≡◌};
ghost use Rattle.oc_tree.specs.View.{arg_view, kind_view, program_view};
ghost use Rattle.oc_tree.specs.Rules.{arg_lends, array_fixed, is_mutable_param, is_nv, is_own, is_writable, is_writable_array, origin_is, pointee_fixed, target_fixed};

use crate::scope::Scope;
use crate::top::TopLevel;
use crate::types::is_reference;
use oc_tree::scope::{Origin, Var};
use oc_tree::tree::{Arg, StmtKind};

/// A parameter by `&mut`.
fn is_mutable_param(origin: Origin) -> bool
    ensures { result ≡ is_mutable_param origin }
{
    match origin {
        Origin::Param { passing } => passing.is_mutable(),
        _ => false,
    }
}

/// A `let mut`, or a nonvolatile variable.
fn is_writable(origin: Origin) -> bool
    ensures { result ≡ is_writable origin }
{
    match origin {
        Origin::Let { mutable, .. } => mutable,
        Origin::Nv => true,
        _ => false,
    }
}

/// Whether a variable is a `let mut` or a nonvolatile one; not so where there is none.
fn may_be_written(variable: Option<Var>) -> bool
    ensures { result ≡ origin_is is_writable variable }
{
    match variable {
        Some(v) => is_writable(v.origin),
        None => false,
    }
}

/// Whether an array may be written to: a `let mut`, a nonvolatile one, or a parameter by `&mut`;
/// not so where there is none.
fn is_writable_array(variable: Option<Var>) -> bool
    ensures { result ≡ origin_is is_writable_array variable }
{
    match variable {
        Some(v) => is_writable(v.origin) || is_mutable_param(v.origin),
        None => false,
    }
}

/// Whether it is a parameter by `&mut`.
pub fn is_mutable_reference(variable: Option<Var>) -> bool
    ensures { result ≡ origin_is is_mutable_param variable }
{
    match variable {
        Some(v) => is_mutable_param(v.origin),
        None => false,
    }
}

/// Whether it is a nonvolatile variable.
pub fn is_nv(variable: Option<Var>) -> bool
    ensures { result ≡ origin_is is_nv variable }
{
    match variable {
        Some(v) => match v.origin {
            Origin::Nv => true,
            _ => false,
        },
        None => false,
    }
}

/// Whether a variable is no reference; not so where there is none.
fn is_own(variable: Option<Var>) -> bool
    ensures { result ≡ origin_is is_own variable }
{
    match variable {
        Some(v) => !is_reference(v.origin),
        None => false,
    }
}

/// Whether `x = ..` is neither to a `let mut` nor to a nonvolatile variable.
pub fn target_fixed<'a>(top: &TopLevel<'a>, scope: &Scope<'a>, kind: &StmtKind) -> bool
    ensures { result ≡ target_fixed (program_view top.now) scope.now (kind_view kind.now) }
{
    match kind {
        StmtKind::Assign { name, .. } => !may_be_written(top.variable(scope, name)),
        _ => false,
    }
}

/// Whether `a[e] = ..` is to an array that may not be written.
pub fn array_fixed<'a>(top: &TopLevel<'a>, scope: &Scope<'a>, kind: &StmtKind) -> bool
    ensures { result ≡ array_fixed (program_view top.now) scope.now (kind_view kind.now) }
{
    match kind {
        StmtKind::AssignIndex { name, .. } => !is_writable_array(top.variable(scope, name)),
        _ => false,
    }
}

/// Whether `*r = ..` is through something else than a parameter by `&mut`.
pub fn pointee_fixed<'a>(top: &TopLevel<'a>, scope: &Scope<'a>, kind: &StmtKind) -> bool
    ensures { result ≡ pointee_fixed (program_view top.now) scope.now (kind_view kind.now) }
{
    match kind {
        StmtKind::AssignDeref { name, .. } => !is_mutable_reference(top.variable(scope, name)),
        _ => false,
    }
}

/// Whether `&mut` is taken of what may be written, and `&` of what is no reference.
pub fn arg_lends<'a>(top: &TopLevel<'a>, scope: &Scope<'a>, arg: &Arg) -> bool
    ensures { result ≡ arg_lends (program_view top.now) scope.now (arg_view arg.now) }
{
    match arg {
        Arg::Value { .. } => true,
        Arg::Shared { name } => is_own(top.variable(scope, name)),
        Arg::Mutable { name } => may_be_written(top.variable(scope, name)),
    }
}
