//! Declarations and function heads.
ghost use Rattle.std.specs.Prelude.{◌≡◌, false, map, not, IfOk};
ghost use Rattle.std.specs.List.{list_any};
ghost use Rattle.oc_tree.specs.View.{block_view, function_view, program_view, stmt_view, stmts_view};
ghost use Rattle.oc_tree.specs.Scope.{takes_param, with_params};
ghost use Rattle.oc_tree.specs.Rules.{block_returns, has_bad_length, is_array_value, is_main, is_return, main_head, return_missing, stmts_return};

use crate::scope::Scope;
use crate::sides::{has_bad_length, is_array_value};
use crate::top::TopLevel;
use oc_tree::scope::{Origin, Var};
use oc_tree::tree::{Block, Function, Param, Stmt, StmtKind};
use std::alloc::AllocError;

/// Declares the parameters, unless one has a name that is taken.
pub fn declare_params<'a>(
    top: &TopLevel<'a>,
    scope: &mut Scope<'a>,
    params: &'a [Param],
) -> Result<bool, AllocError>
    ensures taken { IfOk result (λ t. t ≡ takes_param (program_view top.now) scope.old params.now) }
    ensures declared { IfOk result (λ t. t ≡ false → scope.new ≡ with_params scope.old params.now) }
{
    for param in params {
        if top.is_taken(scope, &param.name) {
            return Ok(true);
        }
        let origin = Origin::Param {
            passing: param.passing,
        };
        scope.declare(
            &param.name,
            Var {
                origin,
                kind: param.kind,
            },
        )?;
    }
    Ok(false)
}

/// Whether `main` has a parameter or a result.
pub fn main_head(function: &Function) -> bool
    ensures { result ≡ main_head (function_view function.now) }
{
    function.name.is_main() && (0 < function.params.len() || function.result.is_some())
}

/// Whether no function is called `main`.
pub fn main_missing(functions: &[Function]) -> bool
    ensures { result ≡ not (list_any (λ f. is_main f.name) (map function_view functions.now)) }
{
    for function in functions {
        if function.name.is_main() {
            return false;
        }
    }
    true
}

/// Whether a parameter is an array of a length that none may have.
pub fn has_bad_param(params: &[Param]) -> bool
    ensures { result ≡ list_any (λ q. has_bad_length q.kind) params.now }
{
    for param in params {
        if has_bad_length(param.kind) {
            return true;
        }
    }
    false
}

/// Whether a parameter is an array by value.
pub fn has_array_value(params: &[Param]) -> bool
    ensures { result ≡ list_any is_array_value params.now }
{
    for param in params {
        if is_array_value(param) {
            return true;
        }
    }
    false
}

/// Whether a statement is a `return`.
fn is_return(statement: &Stmt) -> bool
    ensures { result ≡ is_return (stmt_view statement.now) }
{
    match statement.kind {
        StmtKind::Return { .. } => true,
        _ => false,
    }
}

/// Whether the last of these statements is a `return`; not so where there is none.
fn last_returns(statements: &[Stmt]) -> bool
    ensures { result ≡ stmts_return (stmts_view statements.now) }
{
    let count = statements.len();
    if count == 0 {
        return false;
    }
    is_return(&statements[count - 1])
}

/// Whether the last statement of a block is a `return`.
fn block_returns(block: &Block) -> bool
    ensures { result ≡ block_returns (block_view block.now) }
{
    last_returns(block.statements.as_slice())
}

/// Whether a function has a result, and its last statement is no `return`.
pub fn return_missing(function: &Function) -> bool
    ensures { result ≡ return_missing (function_view function.now) }
{
    function.result.is_some() && !block_returns(&function.body)
}
