//! How many nodes of expressions there are.
ghost use Rattle.std.specs.Prelude.{◌≡◌, ◌<◌, ◌^◌};
ghost use Rattle.oc_tree.specs.View.{arg_view, block_view, call_view, expr_view, kind_view, program_view, right_view};
ghost use Rattle.oc_tree.specs.Nodes.{arg_nodes, block_nodes, call_nodes, expr_nodes, kind_nodes, program_nodes, right_nodes};

use crate::tree::{Arg, Block, Call, Expr, Program, Right, StmtKind};

/// The nodes of an expression, itself included.
#[cycle(expression_nodes)]
pub fn expr_nodes(expr: &Expr) -> u64
    requires { expr_nodes (expr_view expr.now) < 2 ^ 64 }
    ensures { result ≡ expr_nodes (expr_view expr.now) }
{
    match expr {
        Expr::Number { .. }
        | Expr::Truth { .. }
        | Expr::Variable { .. }
        | Expr::Deref { .. }
        | Expr::Sense { .. } => 1,
        Expr::Index { index, .. } => expr_nodes(index) + 1,
        Expr::Unary { inner, .. } => expr_nodes(inner) + 1,
        Expr::Binary { left, right, .. } => expr_nodes(left) + expr_nodes(right) + 1,
        Expr::Call { call } => call_nodes(call) + 1,
    }
}

/// How many nodes of expressions an argument has.
#[cycle(expression_nodes)]
fn arg_nodes(arg: &Arg) -> u64
    requires { arg_nodes (arg_view arg.now) < 2 ^ 64 }
    ensures { result ≡ arg_nodes (arg_view arg.now) }
{
    match arg {
        Arg::Value { value } => expr_nodes(value),
        Arg::Shared { .. } | Arg::Mutable { .. } => 0,
    }
}

/// The nodes in the arguments of a call.
#[cycle(expression_nodes)]
pub fn call_nodes(call: &Call) -> u64
    requires { call_nodes (call_view call.now) < 2 ^ 64 }
    ensures { result ≡ call_nodes (call_view call.now) }
{
    let mut nodes = 0;
    for arg in &call.args {
        nodes += arg_nodes(arg);
    }
    nodes
}

/// How many nodes of expressions the right side of a `let` or an assignment has.
fn right_nodes(right: &Right) -> u64
    requires { right_nodes (right_view right.now) < 2 ^ 64 }
    ensures { result ≡ right_nodes (right_view right.now) }
{
    match right {
        Right::Value { value } => expr_nodes(value),
        Right::Sense { .. } => 0,
        Right::Call { call } => call_nodes(call),
    }
}

/// How many nodes of expressions a statement has, with those of the statements inside it.
#[cycle(statement_nodes)]
fn kind_nodes(kind: &StmtKind) -> u64
    requires { kind_nodes (kind_view kind.now) < 2 ^ 64 }
    ensures { result ≡ kind_nodes (kind_view kind.now) }
{
    match kind {
        StmtKind::LetArray { .. }
        | StmtKind::SenseOnly { .. }
        | StmtKind::Fresh { .. }
        | StmtKind::Consistent { .. } => 0,
        StmtKind::Let { right, .. }
        | StmtKind::Assign { right, .. }
        | StmtKind::AssignDeref { right, .. } => right_nodes(right),
        StmtKind::AssignIndex { index, right, .. } => expr_nodes(index) + right_nodes(right),
        StmtKind::If {
            condition,
            then,
            otherwise,
        } => {
            let nodes = expr_nodes(condition) + block_nodes(then);
            match otherwise {
                Some(block) => nodes + block_nodes(block),
                None => nodes,
            }
        }
        StmtKind::For { body, .. } => block_nodes(body),
        StmtKind::While {
            condition,
            body,
            ..
        } => expr_nodes(condition) + block_nodes(body),
        StmtKind::CallOnly { call } => call_nodes(call),
        StmtKind::Emit { value, .. } | StmtKind::Return { value } => expr_nodes(value),
    }
}

/// The nodes in the statements of a block.
#[cycle(statement_nodes)]
pub fn block_nodes(block: &Block) -> u64
    requires { block_nodes (block_view block.now) < 2 ^ 64 }
    ensures { result ≡ block_nodes (block_view block.now) }
{
    let mut nodes = 0;
    for statement in &block.statements {
        nodes += kind_nodes(&statement.kind);
    }
    nodes
}

/// The nodes in a program.
pub fn program_nodes(program: &Program) -> u64
    requires { program_nodes (program_view program.now) < 2 ^ 64 }
    ensures { result ≡ program_nodes (program_view program.now) }
{
    let mut nodes = 0;
    for function in &program.functions {
        nodes += block_nodes(&function.body);
    }
    nodes
}
