//! The effects of all statements of a block.
ghost use Rattle.std.specs.Prelude.{◌≡◌, ◌∷◌, ◌++◌, map, OnOk, IfOk};
ghost use Rattle.oc_tree.specs.View.{block_view, kind_view, stmt_view};
ghost use Rattle.oc_effects.specs.Effects.{effect_of};
ghost use Rattle.oc_effects.specs.View.{effect_view};
ghost use Rattle.oc_effects.specs.Walk.{block_effects, declared_by, kind_effects, placed_view, standing, stmt_effects};

use crate::calls::resolve_own_call;
use crate::effect::Effect;
use crate::here::{Here, variables};
use crate::known::Known;
use crate::names::source_names;
use crate::parts::{is_loop, note_of, senses, target_of};
use crate::scope::Scope;
use oc_tree::named::own_names;
use oc_tree::tree::{Block, BlockId, Stmt, StmtId, StmtKind, VarId};
use std::alloc::{AllocError, Global};

/// What a statement does by itself.
fn effect(alloc: Global, here: &Here) -> Result<Effect, AllocError>
    ensures { IfOk result
        (λ e. effect_view e ≡ effect_of here.now.known.now (placed_view here.now)) }
{
    let mut own = Vec::new(alloc);
    own_names(here.kind, &mut own)?;
    let named = variables(alloc, here, own.as_slice())?;
    let mut set_from = Vec::new(alloc);
    source_names(here.kind, &mut set_from)?;
    let sources = variables(alloc, here, set_from.as_slice())?;
    let around = Vec::from_slice(alloc, here.around)?;
    let call = resolve_own_call(alloc, here)?;
    Ok(Effect {
        stmt: here.stmt,
        line: here.line,
        block: here.block,
        around,
        is_loop: is_loop(here.kind),
        declares: here.kind.declares(),
        named,
        sources,
        target: target_of(here),
        senses: senses(here.kind),
        call,
        note: note_of(here),
    })
}

/// The statements around those in the blocks of a statement.
fn inside(alloc: Global, stmt: StmtId, around: &[StmtId]) -> Result<Vec<StmtId>, AllocError>
    ensures { IfOk result (λ a. a.items ≡ stmt ∷ around.now) }
{
    let mut inner = Vec::new(alloc);
    inner.push(stmt)?;
    for outer in around {
        inner.push(*outer)?;
    }
    Ok(inner)
}

/// The variable that a `let` makes visible behind it.
fn declare<'a>(scope: &mut Scope<'a>, statement: &'a Stmt) -> Result<(), AllocError>
    ensures { OnOk result (scope.new ≡ scope.old ++ declared_by (stmt_view statement.now)) }
{
    match &statement.kind {
        StmtKind::Let { name, .. } | StmtKind::LetArray { name, .. } => {
            let stmt = statement.id;
            scope.declare(name, VarId::Declared { stmt })?;
        }
        _ => {}
    }
    Ok(())
}

/// Adds the effects of the statements of a block and of those inside them, in source order. The
/// scope is as before in the end.
#[cycle(walk)]
pub fn walk_block<'a>(
    alloc: Global,
    known: &Known<'a>,
    around: &[StmtId],
    scope: &mut Scope<'a>,
    block: &'a Block,
    effects: &mut Vec<Effect>,
) -> Result<(), AllocError>
    ensures effects { OnOk result
        (map effect_view effects.new.items
        ≡ map effect_view effects.old.items
        ++ block_effects known.now around.now scope.old (block_view block.now)) }
    ensures kept { OnOk result (scope.new ≡ scope.old) }
{
    let mark = scope.len();
    for statement in &block.statements {
        walk_stmt(alloc, known, block.id, around, scope, statement, effects)?;
        declare(scope, statement)?;
    }
    scope.truncate(mark);
    Ok(())
}

/// The same of one statement and of those inside it; a `let` in it isn't visible yet.
#[cycle(walk)]
fn walk_stmt<'a>(
    alloc: Global,
    known: &Known<'a>,
    block: BlockId,
    around: &[StmtId],
    scope: &mut Scope<'a>,
    statement: &'a Stmt,
    effects: &mut Vec<Effect>,
) -> Result<(), AllocError>
    ensures effects { OnOk result
        (map effect_view effects.new.items
        ≡ map effect_view effects.old.items
        ++ stmt_effects known.now block around.now scope.old (stmt_view statement.now)) }
    ensures kept { OnOk result (scope.new ≡ scope.old) }
{
    let own = own_effect(alloc, known, block, around, scope, statement)?;
    effects.push(own)?;
    walk_parts(
        alloc,
        known,
        around,
        scope,
        statement.id,
        &statement.kind,
        effects,
    )
}

/// The effect of a statement where it stands.
fn own_effect<'a>(
    alloc: Global,
    known: &Known<'a>,
    block: BlockId,
    around: &[StmtId],
    scope: &Scope<'a>,
    statement: &'a Stmt,
) -> Result<Effect, AllocError>
    ensures { IfOk result
        (λ e. effect_view e
        ≡ effect_of known.now
        (standing block around.now scope.now statement.now.id statement.now.line
        (kind_view statement.now.kind))) }
{
    let here = Here {
        known,
        scope,
        block,
        around,
        stmt: statement.id,
        line: statement.line,
        kind: &statement.kind,
    };
    effect(alloc, &here)
}

/// The same of the statements in the blocks of a statement.
#[cycle(walk)]
fn walk_parts<'a>(
    alloc: Global,
    known: &Known<'a>,
    around: &[StmtId],
    scope: &mut Scope<'a>,
    stmt: StmtId,
    kind: &'a StmtKind,
    effects: &mut Vec<Effect>,
) -> Result<(), AllocError>
    ensures effects { OnOk result
        (map effect_view effects.new.items
        ≡ map effect_view effects.old.items
        ++ kind_effects known.now around.now scope.old stmt (kind_view kind.now)) }
    ensures kept { OnOk result (scope.new ≡ scope.old) }
{
    match kind {
        StmtKind::If {
            then,
            otherwise,
            ..
        } => {
            let inner = inside(alloc, stmt, around)?;
            walk_block(alloc, known, inner.as_slice(), scope, then, effects)?;
            match otherwise {
                Some(block) => walk_block(alloc, known, inner.as_slice(), scope, block, effects),
                None => Ok(()),
            }
        }
        StmtKind::For { name, body, .. } => {
            let inner = inside(alloc, stmt, around)?;
            let mark = scope.len();
            scope.declare(name, VarId::Declared { stmt })?;
            walk_block(alloc, known, inner.as_slice(), scope, body, effects)?;
            scope.truncate(mark);
            Ok(())
        }
        StmtKind::While { body, .. } => {
            let inner = inside(alloc, stmt, around)?;
            walk_block(alloc, known, inner.as_slice(), scope, body, effects)
        }
        _ => Ok(()),
    }
}
