//! The stack of a function of a program without pulls, where the stacks of the functions that it
//! calls are known.
ghost use Rattle.std.specs.Prelude.{◌≡◌, ◌≤◌, map};
ghost use Rattle.oc_tree.specs.View.{arg_view, args_view, block_view, call_view, else_view, expr_view, function_view, kind_view, right_view};
ghost use Rattle.oc_tree.specs.declared.tree.BinaryOp.{BinaryOp};
ghost use Rattle.oc_tree.specs.Calls.{function_names};
ghost use Rattle.oc_tree.specs.Stack.{arg_depth, args_depth, binary_depth, block_depth, block_slots, call_depth, else_depth, else_slots, expr_depth, frame, function_stack, kind_depth, kind_slots, link_words, right_depth};
ghost use Rattle.oc_weight.specs.Capped.{capped, weight_cap};

use crate::caps::{cap, greater, plus};
use crate::cost::known_of;
use crate::measure::Measure;
use oc_names::table::Table;
use oc_tree::tree::{Arg, BinaryOp, Block, Call, Expr, Function, Right, StmtKind};

/// How many words of the frame a statement takes for the variables and counters that it and those
/// inside it declare; the cap where there are more.
#[cycle(slots)]
fn kind_slots(kind: &StmtKind) -> u64
    ensures slots { result ≡ capped (kind_slots (kind_view kind.now)) }
    ensures small { result ≤ weight_cap }
{
    match kind {
        StmtKind::Let { .. } => 1,
        StmtKind::LetArray { words, .. } => plus(1, *words as u64),
        StmtKind::If {
            then,
            otherwise,
            ..
        } => plus(block_slots(then), else_slots(otherwise)),
        StmtKind::For { body, .. } | StmtKind::While { body, .. } => plus(1, block_slots(body)),
        _ => 0,
    }
}

/// How many words of the frame the statements of an `else` take, if there is one; the cap where
/// there are more.
#[cycle(slots)]
fn else_slots(otherwise: &Option<Block>) -> u64
    ensures slots { result ≡ capped (else_slots (else_view otherwise.now)) }
    ensures small { result ≤ weight_cap }
{
    match otherwise {
        Some(block) => block_slots(block),
        None => 0,
    }
}

/// How many words of the frame the statements of a block take; the cap where there are more.
#[cycle(slots)]
fn block_slots(block: &Block) -> u64
    ensures slots { result ≡ capped (block_slots (block_view block.now)) }
    ensures small { result ≤ weight_cap }
{
    let mut slots = 0;
    for statement in &block.statements {
        slots = plus(slots, kind_slots(&statement.kind));
    }
    slots
}

/// The words of a frame that lead back to the caller: two, or none for `main`.
fn link_words(function: &Function) -> u64
    ensures { result ≡ link_words (function_view function.now) }
{
    if function.name.bytes() == b"main".as_slice() {
        0
    } else {
        2
    }
}

/// The words of a function's frame: its parameters, the way back, and its variables; the cap where
/// there are more.
fn frame(function: &Function) -> u64
    ensures frame { result ≡ capped (frame (function_view function.now)) }
    ensures small { result ≤ weight_cap }
{
    let params = cap(function.params.len() as u64);
    plus(
        plus(params, link_words(function)),
        block_slots(&function.body),
    )
}

/// How many words an operator takes at most on top of the frame, where its sides take `a` and `b`;
/// the cap where there are more.
fn binary_depth(op: BinaryOp, a: u64, b: u64) -> u64
    requires a { a ≤ weight_cap }
    requires b { b ≤ weight_cap }
    ensures depth { result ≡ capped (binary_depth op a b) }
    ensures small { result ≤ weight_cap }
{
    match op {
        BinaryOp::And | BinaryOp::Or => greater(a, b),
        BinaryOp::Eq
        | BinaryOp::Ne
        | BinaryOp::Lt
        | BinaryOp::Le
        | BinaryOp::Gt
        | BinaryOp::Ge
        | BinaryOp::Add
        | BinaryOp::Sub
        | BinaryOp::Mul
        | BinaryOp::Div
        | BinaryOp::Rem => greater(a, plus(1, b)),
    }
}

/// How many words an expression without pulls takes at most on top of the frame; the cap where
/// there are more.
#[tactic(auto, using(crate::proofs::CappedLaws::depth_capped))]
fn expr_depth(expr: &Expr) -> u64
    ensures depth { result ≡ capped (expr_depth (expr_view expr.now)) }
    ensures small { result ≤ weight_cap }
{
    match expr {
        Expr::Number { .. }
        | Expr::Truth { .. }
        | Expr::Variable { .. }
        | Expr::Deref { .. }
        | Expr::Sense { .. }
        | Expr::Call { .. } => 1,
        Expr::Index { index, .. } => plus(1, expr_depth(index)),
        Expr::Unary { inner, .. } => expr_depth(inner),
        Expr::Binary { op, left, right } => binary_depth(*op, expr_depth(left), expr_depth(right)),
    }
}

/// How many words an argument takes at most on top of the frame; the cap where there are more.
fn arg_depth(arg: &Arg) -> u64
    ensures depth { result ≡ capped (arg_depth (arg_view arg.now)) }
    ensures small { result ≤ weight_cap }
{
    match arg {
        Arg::Value { value } => expr_depth(value),
        Arg::Shared { .. } | Arg::Mutable { .. } => 1,
    }
}

/// Each argument waits for those behind it.
fn args_depth(args: &[Arg]) -> u64
    ensures depth { result ≡ capped (args_depth (args_view args.now)) }
    ensures small { result ≤ weight_cap }
{
    let mut depth = 0;
    let mut waiting = 0;
    for arg in args {
        depth = greater(depth, plus(waiting, arg_depth(arg)));
        waiting = plus(waiting, 1);
    }
    greater(depth, waiting)
}

/// How many words a call takes at most on top of the frame, with the stack of the called function;
/// the cap where there are more.
fn call_depth(functions: &[Function], table: &Table, stacks: &[u64], call: &Call) -> u64
    requires { table.now ≡ function_names (map function_view functions.now) }
    ensures depth { result
        ≡ capped (call_depth (map function_view functions.now) stacks.now (call_view call.now)) }
    ensures small { result ≤ weight_cap }
{
    let callee = known_of(stacks, table.place(&call.function));
    greater(1, greater(args_depth(call.args.as_slice()), callee))
}

/// How many words the right side of a `let` or an assignment takes at most on top of the frame; the
/// cap where there are more.
fn right_depth(functions: &[Function], table: &Table, stacks: &[u64], right: &Right) -> u64
    requires { table.now ≡ function_names (map function_view functions.now) }
    ensures depth { result
        ≡ capped (right_depth (map function_view functions.now) stacks.now (right_view right.now)) }
    ensures small { result ≤ weight_cap }
{
    match right {
        Right::Value { value } => expr_depth(value),
        Right::Sense { .. } => 1,
        Right::Call { call } => call_depth(functions, table, stacks, call),
    }
}

/// How many words an `else` takes at most on top of the frame, if there is one; the cap where there
/// are more.
#[cycle(depth)]
fn else_depth(
    functions: &[Function],
    table: &Table,
    stacks: &[u64],
    otherwise: &Option<Block>,
) -> u64
    requires { table.now ≡ function_names (map function_view functions.now) }
    ensures depth { result
        ≡ capped
        (else_depth (map function_view functions.now) stacks.now (else_view otherwise.now)) }
    ensures small { result ≤ weight_cap }
{
    match otherwise {
        Some(block) => block_depth(functions, table, stacks, block),
        None => 0,
    }
}

/// How many words a statement takes at most on top of the frame, with those inside it; the cap
/// where there are more.
#[cycle(depth)]
fn kind_depth(functions: &[Function], table: &Table, stacks: &[u64], kind: &StmtKind) -> u64
    requires { table.now ≡ function_names (map function_view functions.now) }
    ensures depth { result
        ≡ capped (kind_depth (map function_view functions.now) stacks.now (kind_view kind.now)) }
    ensures small { result ≤ weight_cap }
{
    match kind {
        StmtKind::Let { right, .. } | StmtKind::Assign { right, .. } => right_depth(
            functions, table, stacks, right,
        ),
        StmtKind::LetArray { .. } => 3,
        StmtKind::AssignIndex { index, right, .. } => {
            let place = plus(2, expr_depth(index));
            greater(right_depth(functions, table, stacks, right), place)
        }
        StmtKind::AssignDeref { right, .. } => greater(
            right_depth(functions, table, stacks, right),
            2,
        ),
        StmtKind::If {
            condition,
            then,
            otherwise,
        } => {
            let then = block_depth(functions, table, stacks, then);
            let branches = greater(then, else_depth(functions, table, stacks, otherwise));
            greater(expr_depth(condition), branches)
        }
        StmtKind::For { body, .. } => greater(2, block_depth(functions, table, stacks, body)),
        StmtKind::While {
            condition,
            body,
            ..
        } => {
            let test = greater(2, expr_depth(condition));
            greater(test, block_depth(functions, table, stacks, body))
        }
        StmtKind::CallOnly { call } => call_depth(functions, table, stacks, call),
        StmtKind::SenseOnly { .. } => 1,
        StmtKind::Emit { value, .. } | StmtKind::Return { value } => expr_depth(value),
        StmtKind::Fresh { .. } | StmtKind::Consistent { .. } => 0,
    }
}

/// How many words a block takes at most on top of the frame; the cap where there are more.
#[cycle(depth)]
fn block_depth(functions: &[Function], table: &Table, stacks: &[u64], block: &Block) -> u64
    requires { table.now ≡ function_names (map function_view functions.now) }
    ensures depth { result
        ≡ capped (block_depth (map function_view functions.now) stacks.now (block_view block.now)) }
    ensures small { result ≤ weight_cap }
{
    let mut depth = 0;
    for statement in &block.statements {
        depth = greater(depth, kind_depth(functions, table, stacks, &statement.kind));
    }
    depth
}

/// The stack of a function.
pub fn function_stack(
    functions: &[Function],
    table: &Table,
    stacks: &[u64],
    function: &Function,
) -> u64
    requires { table.now ≡ function_names (map function_view functions.now) }
    ensures stack { result
        ≡ capped
        (function_stack (map function_view functions.now) stacks.now (function_view function.now)) }
    ensures small { result ≤ weight_cap }
{
    plus(
        frame(function),
        block_depth(functions, table, stacks, &function.body),
    )
}

/// Measures functions by their stacks.
pub struct StackWords;

impl Measure for StackWords {
    ghost use Rattle.oc_tree.specs.Stack.{function_stack, stacks_to};
    ghost use Rattle.oc_weight.specs.MeasureLaws.{stack_measure};

    ghost measure = { function_stack };

    ghost levels = { stacks_to };

    fn measure(functions: &[Function], table: &Table, known: &[u64], function: &Function) -> u64 {
        function_stack(functions, table, known, function)
    }

    ghost laws = { stack_measure };
}
