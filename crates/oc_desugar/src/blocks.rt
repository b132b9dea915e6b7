//! The expansion of statements and blocks.
ghost use Rattle.std.specs.Prelude.{◌≡◌, ◌<◌, ◌^◌, ◌+◌, ◌++◌, ◌∷◌, [], map, length, OnOk, IfOk};
ghost use Rattle.oc_tree.specs.Tree.{stmt};
ghost use Rattle.oc_tree.specs.View.{block_view, else_view, kind_view, right_view, stmt_view, stmts_view};
ghost use Rattle.oc_tree.specs.Expansion.{block_size, else_size, expand_block, expand_else, expand_kind, expand_stmts, inner_size, pulled, stmts_size, temporaries};
ghost use Rattle.oc_tree.specs.Pulls.{block_pulls, else_pulls, inner_pulls, own_pulls, stmts_pulls};

use crate::parts::{left_expr, temporary};
use crate::straight::{
    consistent, for_in, fresh, left_assign, left_assign_deref, left_assign_index, left_call_only,
    left_emit, left_let, left_return, let_array, sense_only,
};
use oc_tree::pulls::own_pulls;
use oc_tree::tree::{Block, Right, Stmt, StmtKind};
use std::alloc::{AllocError, Global};

/// The numbers of the next pull and of the next statement.
#[derive(Clone, Copy)]
pub struct Numbers {
    pub pull: u32,
    pub stmt: u32,
}

/// Adds the `let`s of the pulls.
fn add_temporaries(
    alloc: Global,
    k: u32,
    i: u32,
    line: u32,
    pulls: Vec<Right>,
    out: &mut Vec<Stmt>,
) -> Result<(), AllocError>
    requires pulls { k + length (map right_view pulls.items) < 2 ^ 32 }
    requires stmts { i + length (map right_view pulls.items) < 2 ^ 32 }
    ensures { OnOk result
        (map stmt_view out.new.items ≡ map stmt_view out.old.items
        ++ temporaries k i line (map right_view pulls.items)) }
{
    let mut k = k;
    let mut id = i;
    for right in pulls {
        let name = temporary(alloc, k)?;
        out.push(Stmt {
            id,
            line,
            kind: StmtKind::Let {
                mutable: false,
                name,
                kind: None,
                right,
            },
        })?;
        k += 1;
        id += 1;
    }
    Ok(())
}

/// The expansion of a block. The numbers count its pulls and its statements.
#[cycle(expand)]
pub fn expand_block(alloc: Global, n: &mut Numbers, block: &Block) -> Result<Block, AllocError>
    requires pulls { n.old.pull + block_pulls (block_view block.now) < 2 ^ 32 }
    requires stmts { n.old.stmt + block_size (block_view block.now) < 2 ^ 32 }
    ensures expanded { IfOk result
        (λ r. block_view r ≡ expand_block n.old.pull n.old.stmt (block_view block.now)) }
    ensures pull { OnOk result (n.new.pull ≡ n.old.pull + block_pulls (block_view block.now)) }
    ensures stmt { OnOk result (n.new.stmt ≡ n.old.stmt + block_size (block_view block.now)) }
{
    let statements = expand_stmts(alloc, n, block.statements.as_slice())?;
    Ok(Block {
        id: block.id,
        statements,
    })
}

/// The expansion of an `else`.
#[cycle(expand)]
fn expand_else(
    alloc: Global,
    n: &mut Numbers,
    otherwise: &Option<Block>,
) -> Result<Option<Block>, AllocError>
    requires pulls { n.old.pull + else_pulls (else_view otherwise.now) < 2 ^ 32 }
    requires stmts { n.old.stmt + else_size (else_view otherwise.now) < 2 ^ 32 }
    ensures expanded { IfOk result
        (λ r. else_view r ≡ expand_else n.old.pull n.old.stmt (else_view otherwise.now)) }
    ensures pull { OnOk result (n.new.pull ≡ n.old.pull + else_pulls (else_view otherwise.now)) }
    ensures stmt { OnOk result (n.new.stmt ≡ n.old.stmt + else_size (else_view otherwise.now)) }
{
    match otherwise {
        Some(block) => Ok(Some(expand_block(alloc, n, block)?)),
        None => Ok(None),
    }
}

/// The expansion of the statements of a block.
#[cycle(expand)]
fn expand_stmts(
    alloc: Global,
    n: &mut Numbers,
    statements: &[Stmt],
) -> Result<Vec<Stmt>, AllocError>
    requires pulls { n.old.pull + stmts_pulls (stmts_view statements.now) < 2 ^ 32 }
    requires stmts { n.old.stmt + stmts_size (stmts_view statements.now) < 2 ^ 32 }
    ensures expanded { IfOk result
        (λ r. stmts_view r.items ≡ expand_stmts n.old.pull n.old.stmt (stmts_view statements.now)) }
    ensures pull { OnOk result (n.new.pull ≡ n.old.pull + stmts_pulls (stmts_view statements.now)) }
    ensures stmt { OnOk result (n.new.stmt ≡ n.old.stmt + stmts_size (stmts_view statements.now)) }
{
    let mut out = Vec::new(alloc);
    for statement in statements {
        expand_stmt(alloc, n, statement, &mut out)?;
    }
    Ok(out)
}

/// Adds the group of a statement.
#[cycle(expand)]
#[tactic(auto, using(crate::proofs::Lengths::length_pulled))]
fn expand_stmt(
    alloc: Global,
    n: &mut Numbers,
    statement: &Stmt,
    out: &mut Vec<Stmt>,
) -> Result<(), AllocError>
    requires pulls { n.old.pull
        + (own_pulls (kind_view statement.now.kind) + inner_pulls (kind_view statement.now.kind))
        < 2 ^ 32 }
    requires stmts { n.old.stmt
        + (own_pulls (kind_view statement.now.kind) + 1 + inner_size (kind_view statement.now.kind))
        < 2 ^ 32 }
    ensures expanded { OnOk result
        (map stmt_view out.new.items
        ≡ map stmt_view out.old.items
        ++ (temporaries n.old.pull n.old.stmt statement.now.line
        (pulled n.old.pull (kind_view statement.now.kind))
        ++ stmt (n.old.stmt + own_pulls (kind_view statement.now.kind)) statement.now.line
        (expand_kind n.old.pull (n.old.stmt + own_pulls (kind_view statement.now.kind) + 1)
        (kind_view statement.now.kind)) ∷ [])) }
    ensures pull { OnOk result
        (n.new.pull ≡ n.old.pull
        + (own_pulls (kind_view statement.now.kind) + inner_pulls (kind_view statement.now.kind))) }
    ensures stmt { OnOk result
        (n.new.stmt ≡ n.old.stmt
        + (own_pulls (kind_view statement.now.kind) + 1
        + inner_size (kind_view statement.now.kind))) }
{
    let k = n.pull;
    let i = n.stmt;
    let id = i + own_pulls(&statement.kind);
    n.stmt = id + 1;
    let mut pulls = Vec::new(alloc);
    let kind = expand_kind(alloc, n, &mut pulls, &statement.kind)?;
    match add_temporaries(alloc, k, i, statement.line, pulls, out) {
        Ok(()) => {
            out.push(Stmt {
                id,
                line: statement.line,
                kind,
            })?;
            Ok(())
        }
        Err(error) => {
            // Written out, as for the conditions below: by `?` the drop of each form of a
            // statement would be proved here.
            drop(kind);
            Err(error)
        }
    }
}

/// What is left of a statement, whose pulls are added.
#[cycle(expand)]
fn expand_kind(
    alloc: Global,
    n: &mut Numbers,
    pulls: &mut Vec<Right>,
    kind: &StmtKind,
) -> Result<StmtKind, AllocError>
    requires pulls { n.old.pull
        + (own_pulls (kind_view kind.now) + inner_pulls (kind_view kind.now)) < 2 ^ 32 }
    requires stmts { n.old.stmt + inner_size (kind_view kind.now) < 2 ^ 32 }
    ensures expanded { IfOk result
        (λ r. kind_view r ≡ expand_kind n.old.pull n.old.stmt (kind_view kind.now)) }
    ensures pulled { OnOk result
        (map right_view pulls.new.items
        ≡ map right_view pulls.old.items ++ pulled n.old.pull (kind_view kind.now)) }
    ensures pull { OnOk result
        (n.new.pull ≡ n.old.pull
        + (own_pulls (kind_view kind.now) + inner_pulls (kind_view kind.now))) }
    ensures stmt { OnOk result (n.new.stmt ≡ n.old.stmt + inner_size (kind_view kind.now)) }
{
    match kind {
        StmtKind::Let {
            mutable,
            name,
            kind,
            right,
        } => left_let(alloc, &mut n.pull, pulls, *mutable, name, *kind, right),
        StmtKind::LetArray {
            mutable,
            name,
            kind,
            initial,
            words,
        } => let_array(alloc, *mutable, name, *kind, *initial, *words),
        StmtKind::Assign { name, right } => left_assign(alloc, &mut n.pull, pulls, name, right),
        StmtKind::AssignIndex { name, index, right } => {
            left_assign_index(alloc, &mut n.pull, pulls, name, index, right)
        }
        StmtKind::AssignDeref { name, right } => {
            left_assign_deref(alloc, &mut n.pull, pulls, name, right)
        }
        StmtKind::If {
            condition,
            then,
            otherwise,
        } => {
            let condition = left_expr(alloc, &mut n.pull, pulls, condition)?;
            match expand_block(alloc, n, then) {
                Ok(then) => match expand_else(alloc, n, otherwise) {
                    Ok(otherwise) => Ok(StmtKind::If {
                        condition,
                        then,
                        otherwise,
                    }),
                    Err(error) => {
                        drop(condition);
                        Err(error)
                    }
                },
                Err(error) => {
                    drop(condition);
                    Err(error)
                }
            }
        }
        StmtKind::For {
            name,
            from,
            to,
            body,
        } => {
            let body = expand_block(alloc, n, body)?;
            for_in(alloc, name, *from, *to, body)
        }
        StmtKind::While {
            condition,
            bound,
            body,
        } => {
            let condition = left_expr(alloc, &mut n.pull, pulls, condition)?;
            match expand_block(alloc, n, body) {
                Ok(body) => Ok(StmtKind::While {
                    condition,
                    bound: *bound,
                    body,
                }),
                Err(error) => {
                    drop(condition);
                    Err(error)
                }
            }
        }
        StmtKind::CallOnly { call } => left_call_only(alloc, &mut n.pull, pulls, call),
        StmtKind::SenseOnly { sensor } => sense_only(alloc, sensor),
        StmtKind::Emit { port, value } => left_emit(alloc, &mut n.pull, pulls, port, value),
        StmtKind::Fresh { name } => fresh(alloc, name),
        StmtKind::Consistent { name, id } => consistent(alloc, name, *id),
        StmtKind::Return { value } => left_return(alloc, &mut n.pull, pulls, value),
    }
}
