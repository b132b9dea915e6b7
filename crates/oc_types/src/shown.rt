//! What functions name and assign where no variable of theirs hides it, for all names at once.
ghost use Rattle.std.specs.Prelude.{◌≡◌, [], length, map, take, OnOk, IfOk};
ghost use Rattle.oc_tree.specs.View.{block_view, function_view, kind_view, stmt_view};
ghost use Rattle.oc_tree.specs.Names.{names_seen};
ghost use Rattle.oc_names.specs.Seen.{name_seen};
ghost use Rattle.oc_types.specs.Shown.{all_names, assigned_names, block_shown, end_name, function_shown, hiding, hiding_params, hiding_stmt, inner_shown, stmt_shown, unhidden};

use crate::lends::Lends;
use crate::scope::Scope;
use oc_tree::name::Name;
use oc_tree::named::own_names;
use oc_tree::scope::{Origin, Var};
use oc_tree::tree::{Block, Function, Param, Stmt, StmtKind, ValueKind};
use std::alloc::{AllocError, Global};

/// What stands in statements where nothing hides it: the names, and those of them that are assigned.
#[derive(Drop)]
pub struct Shown<'a> {
    pub named: Vec<&'a Name>,
    pub assigned: Vec<&'a Name>,
}

/// The name of the variable that a statement assigns to, whole or in part, or annotates.
fn end_name(kind: &StmtKind) -> Option<&Name>
    ensures { name_seen result ≡ end_name (kind_view kind.now) }
{
    match kind {
        StmtKind::Assign { name, .. }
        | StmtKind::AssignIndex { name, .. }
        | StmtKind::AssignDeref { name, .. }
        | StmtKind::Fresh { name }
        | StmtKind::Consistent { name, .. } => Some(name),
        _ => None,
    }
}

/// The variables that a statement itself names. Err is want of memory.
fn all_names<'a>(alloc: Global, kind: &'a StmtKind) -> Result<Vec<&'a Name>, AllocError>
    ensures { IfOk result (λ n. names_seen n.items ≡ all_names (kind_view kind.now)) }
{
    let mut names = Vec::new(alloc);
    own_names(kind, &mut names)?;
    if let Some(name) = end_name(kind) {
        names.push(name)?;
    }
    Ok(names)
}

/// Adds those of these names that nothing hides. Err is want of memory.
fn add_unhidden<'a>(
    hidden: &Scope<'a>,
    names: &[&'a Name],
    shown: &mut Vec<&'a Name>,
) -> Result<(), AllocError>
    ensures { OnOk result
        (names_seen shown.new.items
        ≡ unhidden hidden.now (names_seen shown.old.items) (names_seen names.now)) }
{
    for name in names {
        if hidden.get(*name).is_none() {
            shown.push(*name)?;
        }
    }
    Ok(())
}

/// Adds what a statement itself names and assigns, where nothing hides it. Err is want of memory.
fn show_own<'a>(
    alloc: Global,
    lends: &Lends<'a>,
    hidden: &Scope<'a>,
    shown: &mut Shown<'a>,
    kind: &'a StmtKind,
) -> Result<(), AllocError>
    ensures named { OnOk result
        (names_seen shown.new.named.items
        ≡ unhidden hidden.now (names_seen shown.old.named.items) (all_names (kind_view kind.now))) }
    ensures assigned { OnOk result
        (names_seen shown.new.assigned.items
        ≡ unhidden hidden.now (names_seen shown.old.assigned.items)
        (assigned_names (map function_view lends.now) (kind_view kind.now))) }
{
    let named = all_names(alloc, kind)?;
    add_unhidden(hidden, named.as_slice(), &mut shown.named)?;
    let assigned = lends.assigned_names(alloc, kind)?;
    add_unhidden(hidden, assigned.as_slice(), &mut shown.assigned)?;
    Ok(())
}

/// Hides a name from here on. Err is want of memory.
fn hide<'a>(hidden: &mut Scope<'a>, name: &'a Name) -> Result<(), AllocError>
    ensures after { OnOk result (hidden.new ≡ hiding hidden.old name.now) }
    ensures longer { OnOk result (take (length hidden.old) hidden.new ≡ hidden.old) }
{
    match hidden.get(name) {
        Some(_) => Ok(()),
        None => {
            let origin = Origin::For;
            let kind = ValueKind::Int;
            hidden.declare(name, Var { origin, kind })?;
            Ok(())
        }
    }
}

/// Hides the names of parameters. Err is want of memory.
fn hide_params<'a>(hidden: &mut Scope<'a>, params: &'a [Param]) -> Result<(), AllocError>
    ensures { OnOk result (hidden.new ≡ hiding_params hidden.old params.now) }
{
    for param in params {
        hide(hidden, &param.name)?;
    }
    Ok(())
}

/// Hides what a statement declares for those behind it. Err is want of memory.
fn hide_declared<'a>(hidden: &mut Scope<'a>, statement: &'a Stmt) -> Result<(), AllocError>
    ensures after { OnOk result (hidden.new ≡ hiding_stmt hidden.old (stmt_view statement.now)) }
    ensures longer { OnOk result (take (length hidden.old) hidden.new ≡ hidden.old) }
{
    match &statement.kind {
        StmtKind::Let { name, .. } | StmtKind::LetArray { name, .. } => hide(hidden, name),
        _ => Ok(()),
    }
}

/// Adds what a block shows. What is hidden is as before in the end.
#[cycle(shown)]
fn show_block<'a>(
    alloc: Global,
    lends: &Lends<'a>,
    hidden: &mut Scope<'a>,
    shown: &mut Shown<'a>,
    block: &'a Block,
) -> Result<(), AllocError>
    ensures named { OnOk result
        (names_seen shown.new.named.items
        ≡ block_shown all_names hidden.old (names_seen shown.old.named.items)
        (block_view block.now)) }
    ensures assigned { OnOk result
        (names_seen shown.new.assigned.items
        ≡ block_shown (assigned_names (map function_view lends.now)) hidden.old
        (names_seen shown.old.assigned.items) (block_view block.now)) }
    ensures kept { OnOk result (hidden.new ≡ hidden.old) }
{
    let mark = hidden.len();
    let statements = block.statements.as_slice();
    for statement in statements {
        show_stmt(alloc, lends, hidden, shown, statement)?;
        hide_declared(hidden, statement)?;
    }
    hidden.truncate(mark);
    Ok(())
}

/// Adds what a statement and those inside it show. What is hidden is as before in the end. Err is
/// want of memory.
#[cycle(shown)]
fn show_stmt<'a>(
    alloc: Global,
    lends: &Lends<'a>,
    hidden: &mut Scope<'a>,
    shown: &mut Shown<'a>,
    statement: &'a Stmt,
) -> Result<(), AllocError>
    ensures named { OnOk result
        (names_seen shown.new.named.items
        ≡ stmt_shown all_names hidden.old (names_seen shown.old.named.items)
        (stmt_view statement.now)) }
    ensures assigned { OnOk result
        (names_seen shown.new.assigned.items
        ≡ stmt_shown (assigned_names (map function_view lends.now)) hidden.old
        (names_seen shown.old.assigned.items) (stmt_view statement.now)) }
    ensures kept { OnOk result (hidden.new ≡ hidden.old) }
{
    show_own(alloc, lends, hidden, shown, &statement.kind)?;
    show_inner(alloc, lends, hidden, shown, &statement.kind)?;
    Ok(())
}

/// Adds what the statements inside a statement show. What is hidden is as before in the end. Err
/// is want of memory.
#[cycle(shown)]
fn show_inner<'a>(
    alloc: Global,
    lends: &Lends<'a>,
    hidden: &mut Scope<'a>,
    shown: &mut Shown<'a>,
    kind: &'a StmtKind,
) -> Result<(), AllocError>
    ensures named { OnOk result
        (names_seen shown.new.named.items
        ≡ inner_shown all_names hidden.old (names_seen shown.old.named.items)
        (kind_view kind.now)) }
    ensures assigned { OnOk result
        (names_seen shown.new.assigned.items
        ≡ inner_shown (assigned_names (map function_view lends.now)) hidden.old
        (names_seen shown.old.assigned.items) (kind_view kind.now)) }
    ensures kept { OnOk result (hidden.new ≡ hidden.old) }
{
    match kind {
        StmtKind::If {
            then,
            otherwise,
            ..
        } => {
            show_block(alloc, lends, hidden, shown, then)?;
            match otherwise {
                Some(block) => show_block(alloc, lends, hidden, shown, block),
                None => Ok(()),
            }
        }
        StmtKind::For { name, body, .. } => {
            let mark = hidden.len();
            hide(hidden, name)?;
            show_block(alloc, lends, hidden, shown, body)?;
            hidden.truncate(mark);
            Ok(())
        }
        StmtKind::While { body, .. } => show_block(alloc, lends, hidden, shown, body),
        _ => Ok(()),
    }
}

/// What a function shows. Err is want of memory.
pub fn shown_of<'a>(
    alloc: Global,
    lends: &Lends<'a>,
    function: &'a Function,
) -> Result<Shown<'a>, AllocError>
    ensures named { IfOk result (λ s.
        names_seen s.named.items ≡ function_shown all_names (function_view function.now)) }
    ensures assigned { IfOk result (λ s.
        names_seen s.assigned.items
        ≡ function_shown (assigned_names (map function_view lends.now))
        (function_view function.now)) }
{
    let mut hidden = Scope::new(alloc);
    let mut shown = Shown {
        named: Vec::new(alloc),
        assigned: Vec::new(alloc),
    };
    hide_params(&mut hidden, function.params.as_slice())?;
    show_block(alloc, lends, &mut hidden, &mut shown, &function.body)?;
    Ok(shown)
}
