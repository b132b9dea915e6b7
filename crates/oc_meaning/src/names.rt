//! Names: their places in lists, the functions that they name, and their annotations.
ghost use Rattle.std.specs.Prelude.{◌≡◌, map, option_map, Contains, IfOk, IfSome};
ghost use Rattle.oc_tree.specs.View.{function_view, kind_view, stmts_view};
ghost use Rattle.oc_meaning.specs.Exec.{number_in};
ghost use Rattle.oc_meaning.specs.Run.{function_named};
ghost use Rattle.oc_meaning.specs.Uses.{is_annotated, is_fresh_note};

use oc_tree::name::Name;
use oc_tree::tree::{Function, Stmt, StmtKind};
use std::alloc::AllocError;

/// The place of a name in a list, or past its end.
pub fn place_in(names: &[Name], name: &Name) -> usize
    ensures { result ≡ number_in names.now name.now }
{
    let mut number = 0;
    for other in names {
        if name.is(other) {
            return number;
        }
        number += 1;
    }
    number
}

/// The number of a sensor or a port, by its place among the names. One that doesn't fit is out of
/// memory: no checked program has so many.
pub fn number_in(names: &[Name], name: &Name) -> Result<u8, AllocError>
    ensures { IfOk result (λ n. n ≡ number_in names.now name.now) }
{
    let place = place_in(names, name);
    if place > 255 {
        return Err(AllocError);
    }
    Ok(place as u8)
}

/// The function of a name.
pub fn function_named<'a>(functions: &'a [Function], name: &Name) -> Option<&'a Function>
    ensures named { option_map (λ f. function_view f.now) result
        ≡ function_named (map function_view functions.now) name.now }
    ensures among { IfSome result (λ f. Contains functions.now f.now) }
{
    for function in functions {
        if name.is(&function.name) {
            return Some(function);
        }
    }
    None
}

/// Whether a statement annotates the variable of this name.
fn is_note(name: &Name, kind: &StmtKind) -> bool
    ensures { result ≡ is_fresh_note name.now (kind_view kind.now) }
{
    match kind {
        StmtKind::Fresh { name: noted } => name.is(noted),
        _ => false,
    }
}

/// Whether the variable that stands before these statements is annotated `Fresh` directly among them.
pub fn is_annotated(name: &Name, rest: &[Stmt]) -> bool
    ensures { result ≡ is_annotated name.now (stmts_view rest.now) }
{
    for statement in rest {
        if is_note(name, &statement.kind) {
            return true;
        }
    }
    false
}
