//! The expansion of a program.
ghost use Rattle.std.specs.Prelude.{◌≡◌, ◌<◌, ◌^◌, ◌+◌, map, sum_by, OnOk, IfOk};
ghost use Rattle.oc_tree.specs.View.{block_view, function_view, program_view};
ghost use Rattle.oc_tree.specs.Expansion.{block_size, expand_function, expand_functions, expansion, program_groups, program_size};
ghost use Rattle.oc_tree.specs.Pulls.{block_pulls, program_pulls};

use crate::blocks::{Numbers, expand_block};
use crate::groups::functions_groups;
use oc_tree::tree::{Function, Param, Program, StmtId};
use std::alloc::{AllocError, Global};

/// The same parameters.
fn copy_params(alloc: Global, params: &[Param]) -> Result<Vec<Param>, AllocError>
    ensures { IfOk result (λ p. p.items ≡ params.now) }
{
    let mut copies = Vec::new(alloc);
    for param in params {
        let name = param.name.try_clone(alloc)?;
        copies.push(Param {
            name,
            passing: param.passing,
            kind: param.kind,
        })?;
    }
    Ok(copies)
}

/// The expansion of a function.
fn expand_function(
    alloc: Global,
    n: &mut Numbers,
    function: &Function,
) -> Result<Function, AllocError>
    requires pulls { n.old.pull + block_pulls (block_view function.now.body) < 2 ^ 32 }
    requires stmts { n.old.stmt + block_size (block_view function.now.body) < 2 ^ 32 }
    ensures expanded { IfOk result
        (λ f. function_view f
        ≡ expand_function n.old.pull n.old.stmt (function_view function.now)) }
    ensures pull { OnOk result
        (n.new.pull ≡ n.old.pull + block_pulls (block_view function.now.body)) }
    ensures stmt { OnOk result
        (n.new.stmt ≡ n.old.stmt + block_size (block_view function.now.body)) }
{
    let name = function.name.try_clone(alloc)?;
    let params = copy_params(alloc, function.params.as_slice())?;
    let body = expand_block(alloc, n, &function.body)?;
    Ok(Function {
        name,
        line: function.line,
        params,
        result: function.result,
        body,
    })
}

/// The expansions of functions, whose numbers begin at 1.
fn expand_functions(alloc: Global, functions: &[Function]) -> Result<Vec<Function>, AllocError>
    requires pulls { sum_by (λ f. block_pulls f.body) (map function_view functions.now) + 1
        < 2 ^ 32 }
    requires stmts { sum_by (λ f. block_size f.body) (map function_view functions.now) + 1
        < 2 ^ 32 }
    ensures { IfOk result (λ r. map function_view r.items
        ≡ expand_functions 1 1 (map function_view functions.now)) }
{
    let mut n = Numbers { pull: 1, stmt: 1 };
    let mut out = Vec::new(alloc);
    for function in functions {
        let expanded = expand_function(alloc, &mut n, function)?;
        out.push(expanded)?;
    }
    Ok(out)
}

/// The expansion of a program and its groups, each by the numbers of its first and last statement.
pub fn expand_program(
    alloc: Global,
    program: &Program,
) -> Result<(Program, Vec<(StmtId, StmtId)>), AllocError>
    requires pulls { program_pulls (program_view program.now) + 1 < 2 ^ 32 }
    requires stmts { program_size (program_view program.now) + 1 < 2 ^ 32 }
    ensures expanded { IfOk result (λ r. program_view r.0 ≡ expansion (program_view program.now)) }
    ensures groups { IfOk result (λ r. r.1.items ≡ program_groups (program_view program.now)) }
{
    let names = program.names.try_clone(alloc)?;
    let nv = Vec::from_slice(alloc, program.nv.as_slice())?;
    let functions = expand_functions(alloc, program.functions.as_slice())?;
    let order = Vec::from_slice(alloc, program.order.as_slice())?;
    let groups = functions_groups(alloc, program.functions.as_slice())?;
    let expanded = Program {
        names,
        nv,
        functions,
        order,
        last_line: program.last_line,
    };
    Ok((expanded, groups))
}
