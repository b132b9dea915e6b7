//! The cost of a tree without pulls, where the weights of the functions that it calls are known.
ghost use Rattle.std.specs.Prelude.{◌≡◌, ◌≤◌, ◌+◌, ◌*◌, map};
ghost use Rattle.oc_tree.specs.Tree.{call_only};
ghost use Rattle.oc_tree.specs.View.{arg_view, args_view, block_view, call_view, else_view, expr_view, function_view, kind_view, right_view};
ghost use Rattle.oc_tree.specs.Calls.{function_names};
ghost use Rattle.oc_tree.specs.Weight.{arg_cost, args_cost, binary_cost, block_cost, call_cost, else_cost, expr_cost, function_cost, has_result, kind_cost, known_of, result_at, right_cost, turns};
ghost use Rattle.std.specs.Prelude.{Option};
ghost use Rattle.oc_tree.specs.declared.tree.BinaryOp.{BinaryOp};
ghost use Rattle.oc_weight.specs.Capped.{capped, weight_cap};

use crate::caps::{cap, greater, plus, times};
use crate::measure::Measure;
use oc_names::table::{Table, result_at};
use oc_tree::tree::{Arg, BinaryOp, Block, Call, Expr, Function, Right, StmtKind};

/// How many instructions an operator takes at most, with its sides, which take `a` and `b`; the cap
/// where there are more.
fn binary_cost(op: BinaryOp, a: u64, b: u64) -> u64
    requires a { a ≤ weight_cap }
    requires b { b ≤ weight_cap }
    ensures cost { result ≡ capped (binary_cost op a b) }
    ensures small { result ≤ weight_cap }
{
    match op {
        BinaryOp::And => plus(plus(a, b), 2),
        BinaryOp::Or => plus(plus(a, 1), greater(2, b)),
        BinaryOp::Eq
        | BinaryOp::Ne
        | BinaryOp::Lt
        | BinaryOp::Le
        | BinaryOp::Gt
        | BinaryOp::Ge
        | BinaryOp::Add
        | BinaryOp::Sub
        | BinaryOp::Mul
        | BinaryOp::Div
        | BinaryOp::Rem => plus(plus(a, b), 1),
    }
}

/// How many instructions an expression without pulls takes at most; the cap where there are more.
#[tactic(auto, using(crate::proofs::CappedLaws::cost_capped))]
fn expr_cost(expr: &Expr) -> u64
    ensures cost { result ≡ capped (expr_cost (expr_view expr.now)) }
    ensures small { result ≤ weight_cap }
{
    match expr {
        Expr::Number { .. } | Expr::Truth { .. } | Expr::Variable { .. } => 1,
        Expr::Index { index, .. } => plus(expr_cost(index), 3),
        Expr::Deref { .. } => 2,
        Expr::Unary { inner, .. } => plus(expr_cost(inner), 1),
        Expr::Binary { op, left, right } => binary_cost(*op, expr_cost(left), expr_cost(right)),
        Expr::Sense { .. } | Expr::Call { .. } => 0,
    }
}

/// How many instructions an argument takes at most; the cap where there are more.
fn arg_cost(arg: &Arg) -> u64
    ensures cost { result ≡ capped (arg_cost (arg_view arg.now)) }
    ensures small { result ≤ weight_cap }
{
    match arg {
        Arg::Value { value } => expr_cost(value),
        Arg::Shared { .. } | Arg::Mutable { .. } => 1,
    }
}

/// How many instructions arguments take at most together; the cap where there are more.
fn args_cost(args: &[Arg]) -> u64
    ensures cost { result ≡ capped (args_cost (args_view args.now)) }
    ensures small { result ≤ weight_cap }
{
    let mut cost = 0;
    for arg in args {
        cost = plus(cost, arg_cost(arg));
    }
    cost
}

/// What is known of the function at a place.
pub fn known_of(weights: &[u64], place: Option<usize>) -> u64
    ensures known { result ≡ capped (known_of weights.now place) }
    ensures small { result ≤ weight_cap }
{
    match place {
        Some(place) => {
            if place < weights.len() {
                cap(weights[place])
            } else {
                0
            }
        }
        None => 0,
    }
}

/// How many instructions a call takes at most, with its arguments and the called function; the cap
/// where there are more.
fn call_cost(functions: &[Function], table: &Table, weights: &[u64], call: &Call) -> u64
    requires { table.now ≡ function_names (map function_view functions.now) }
    ensures cost { result
        ≡ capped (call_cost (map function_view functions.now) weights.now (call_view call.now)) }
    ensures small { result ≤ weight_cap }
{
    plus(
        plus(args_cost(call.args.as_slice()), 1),
        known_of(weights, table.place(&call.function)),
    )
}

/// How many instructions the right side of a `let` or an assignment takes at most; the cap where
/// there are more.
fn right_cost(functions: &[Function], table: &Table, weights: &[u64], right: &Right) -> u64
    requires { table.now ≡ function_names (map function_view functions.now) }
    ensures cost { result
        ≡ capped (right_cost (map function_view functions.now) weights.now (right_view right.now)) }
    ensures small { result ≤ weight_cap }
{
    match right {
        Right::Value { value } => expr_cost(value),
        Right::Sense { .. } => 1,
        Right::Call { call } => call_cost(functions, table, weights, call),
    }
}

/// Whether the called function has a result; not so where there is no such function.
fn has_result(functions: &[Function], table: &Table, call: &Call) -> bool
    requires { table.now ≡ function_names (map function_view functions.now) }
    ensures { result ≡ has_result (map function_view functions.now) (call_view call.now) }
{
    result_at(functions, table.place(&call.function))
}

/// An assignment to an element.
fn element_cost(
    functions: &[Function],
    table: &Table,
    weights: &[u64],
    index: &Expr,
    right: &Right,
) -> u64
    requires { table.now ≡ function_names (map function_view functions.now) }
    ensures cost { result
        ≡ capped
        (right_cost (map function_view functions.now) weights.now (right_view right.now)
        + expr_cost (expr_view index.now) + 3) }
    ensures small { result ≤ weight_cap }
{
    let sides = plus(
        right_cost(functions, table, weights, right),
        expr_cost(index),
    );
    plus(sides, 3)
}

/// A call that is a statement, which drops its result.
fn call_only_cost(functions: &[Function], table: &Table, weights: &[u64], call: &Call) -> u64
    requires { table.now ≡ function_names (map function_view functions.now) }
    ensures cost { result
        ≡ capped
        (kind_cost (map function_view functions.now) weights.now
        (call_only (call_view call.now))) }
    ensures small { result ≤ weight_cap }
{
    let dropped = if has_result(functions, table, call) {
        1
    } else {
        0
    };
    plus(call_cost(functions, table, weights, call), dropped)
}

/// How many turns a `for` from `from` up to, but without, `to` has.
fn turns(from: i32, to: i32) -> u32
    ensures { result ≡ turns from to }
{
    let turns = to as i64 - from as i64;
    if turns < 0 { 0 } else { turns as u32 }
}

/// The cost of a block.
#[cycle(cost)]
pub fn block_cost(functions: &[Function], table: &Table, weights: &[u64], block: &Block) -> u64
    requires { table.now ≡ function_names (map function_view functions.now) }
    ensures cost { result
        ≡ capped (block_cost (map function_view functions.now) weights.now (block_view block.now)) }
    ensures small { result ≤ weight_cap }
{
    let mut cost = 0;
    for statement in &block.statements {
        cost = plus(cost, kind_cost(functions, table, weights, &statement.kind));
    }
    cost
}

/// Both branches of an `if`, the first of which has the cost `then`.
#[cycle(cost)]
fn else_cost(
    functions: &[Function],
    table: &Table,
    weights: &[u64],
    then: u64,
    otherwise: &Option<Block>,
) -> u64
    requires table { table.now ≡ function_names (map function_view functions.now) }
    requires small { then ≤ weight_cap }
    ensures cost { result
        ≡ capped (else_cost (map function_view functions.now) weights.now then
        (else_view otherwise.now)) }
    ensures small { result ≤ weight_cap }
{
    match otherwise {
        Some(block) => greater(plus(then, 1), block_cost(functions, table, weights, block)),
        None => then,
    }
}

/// A `for` of so many turns.
#[cycle(cost)]
fn for_cost(functions: &[Function], table: &Table, weights: &[u64], turns: u32, body: &Block) -> u64
    requires { table.now ≡ function_names (map function_view functions.now) }
    ensures cost { result
        ≡ capped
        (6
        + turns
        * (9 + block_cost (map function_view functions.now) weights.now (block_view body.now))) }
    ensures small { result ≤ weight_cap }
{
    let turn = plus(9, block_cost(functions, table, weights, body));
    plus(6, times(turns, turn))
}

/// A `while` of at most so many turns.
#[cycle(cost)]
fn while_cost(
    functions: &[Function],
    table: &Table,
    weights: &[u64],
    bound: u32,
    body: &Block,
    condition: &Expr,
) -> u64
    requires { table.now ≡ function_names (map function_view functions.now) }
    ensures cost { result
        ≡ capped
        (6
        + bound
        * (10 + expr_cost (expr_view condition.now)
        + block_cost (map function_view functions.now) weights.now (block_view body.now))) }
    ensures small { result ≤ weight_cap }
{
    let test = plus(10, expr_cost(condition));
    let turn = plus(test, block_cost(functions, table, weights, body));
    plus(6, times(bound, turn))
}

/// How many instructions a statement takes at most, with those inside it; the cap where there are
/// more.
#[cycle(cost)]
#[tactic(auto, using(crate::proofs::CappedLaws::else_capped))]
fn kind_cost(functions: &[Function], table: &Table, weights: &[u64], kind: &StmtKind) -> u64
    requires { table.now ≡ function_names (map function_view functions.now) }
    ensures cost { result
        ≡ capped (kind_cost (map function_view functions.now) weights.now (kind_view kind.now)) }
    ensures small { result ≤ weight_cap }
{
    match kind {
        StmtKind::Let { right, .. } | StmtKind::Assign { right, .. } => {
            plus(right_cost(functions, table, weights, right), 1)
        }
        StmtKind::LetArray { words, .. } => plus(6, times(*words, 14)),
        StmtKind::AssignIndex { index, right, .. } => {
            element_cost(functions, table, weights, index, right)
        }
        StmtKind::AssignDeref { right, .. } => plus(
            right_cost(functions, table, weights, right),
            2,
        ),
        StmtKind::If {
            condition,
            then,
            otherwise,
        } => {
            let then = block_cost(functions, table, weights, then);
            plus(
                plus(expr_cost(condition), 1),
                else_cost(functions, table, weights, then, otherwise),
            )
        }
        StmtKind::For { from, to, body, .. } => {
            for_cost(functions, table, weights, turns(*from, *to), body)
        }
        StmtKind::While {
            condition,
            bound,
            body,
        } => while_cost(functions, table, weights, *bound, body, condition),
        StmtKind::CallOnly { call } => call_only_cost(functions, table, weights, call),
        StmtKind::SenseOnly { .. } => 2,
        StmtKind::Emit { value, .. } | StmtKind::Return { value } => plus(expr_cost(value), 1),
        StmtKind::Fresh { .. } | StmtKind::Consistent { .. } => 0,
    }
}

/// The weight of a function.
pub fn function_cost(
    functions: &[Function],
    table: &Table,
    weights: &[u64],
    function: &Function,
) -> u64
    requires { table.now ≡ function_names (map function_view functions.now) }
    ensures cost { result
        ≡ capped
        (function_cost (map function_view functions.now) weights.now (function_view function.now)) }
    ensures small { result ≤ weight_cap }
{
    let returns = if function.result.is_some() { 0 } else { 1 };
    plus(
        block_cost(functions, table, weights, &function.body),
        returns,
    )
}

/// Measures functions by their weights.
pub struct Instructions;

impl Measure for Instructions {
    ghost use Rattle.oc_tree.specs.Weight.{function_cost, weights_to};
    ghost use Rattle.oc_weight.specs.MeasureLaws.{cost_measure};

    ghost measure = { function_cost };

    ghost levels = { weights_to };

    fn measure(functions: &[Function], table: &Table, known: &[u64], function: &Function) -> u64 {
        function_cost(functions, table, known, function)
    }

    ghost laws = { cost_measure };
}
