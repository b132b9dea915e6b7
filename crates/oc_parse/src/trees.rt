//! What is made of trees that were read, where there may be no memory for it.
ghost use Rattle.std.specs.Prelude.{◌≡◌, ◌∷◌, ◌++◌, [], MatchResult};
ghost use Rattle.oc_tree.specs.Tree.{index, unary, binary};
ghost use Rattle.oc_tree.specs.View.{expr_view};
ghost use Rattle.oc_parse.specs.Parts.{statement_of};

use crate::stop::Stop;
use oc_tree::name::Name;
use oc_tree::tree::{Arg, BinaryOp, Expr, Stmt, StmtId, StmtKind, UnaryOp};
use std::alloc::Global;

/// An operator between two operands.
#[inline(always)]
pub fn joined(alloc: Global, op: BinaryOp, first: Expr, second: Expr) -> Result<Expr, Stop>
    ensures { MatchResult result
        (λ e. expr_view e ≡ binary op (expr_view first) (expr_view second))
        (λ e. e ≡ Stop.Memory) }
{
    Ok(Expr::Binary {
        op,
        left: Box::new(alloc, first)?,
        right: Box::new(alloc, second)?,
    })
}

/// An operator before its operand.
pub fn prefixed(alloc: Global, op: UnaryOp, inner: Expr) -> Result<Expr, Stop>
    ensures { MatchResult result
        (λ e. expr_view e ≡ unary op (expr_view inner))
        (λ e. e ≡ Stop.Memory) }
{
    Ok(Expr::Unary {
        op,
        inner: Box::new(alloc, inner)?,
    })
}

/// An element of an array.
pub fn element(alloc: Global, array: Name, place: Expr) -> Result<Expr, Stop>
    ensures { MatchResult result
        (λ e. expr_view e ≡ index array (expr_view place))
        (λ e. e ≡ Stop.Memory) }
{
    Ok(Expr::Index {
        array,
        index: Box::new(alloc, place)?,
    })
}

/// Adds an argument to those of its call.
pub fn add_arg(args: &mut Vec<Arg>, arg: Arg) -> Result<(), Stop>
    ensures { MatchResult result
        (λ x. args.new.items ≡ args.old.items ++ arg ∷ [])
        (λ e. e ≡ Stop.Memory) }
{
    args.push(arg)?;
    Ok(())
}

/// Adds a statement to those of its block.
pub fn add_statement(
    statements: &mut Vec<Stmt>,
    id: StmtId,
    line: u32,
    kind: StmtKind,
) -> Result<(), Stop>
    ensures { MatchResult result
        (λ x. statements.new.items ≡ statements.old.items ++ statement_of id line kind ∷ [])
        (λ e. e ≡ Stop.Memory) }
{
    statements.push(Stmt { id, line, kind })?;
    Ok(())
}
