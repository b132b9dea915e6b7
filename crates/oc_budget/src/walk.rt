//! The cost of a tree, where the costs of the functions that it calls are known.
ghost use Rattle.std.specs.Prelude.{◌≡◌, ◌≤◌, ◌+◌, ◌*◌};
ghost use Rattle.oc_tree.specs.Tree.{call_only};
ghost use Rattle.oc_tree.specs.View.{block_view, call_view, else_view, expr_view, function_view, kind_view, right_view};
ghost use Rattle.oc_tree.specs.Weight.{call_cost, expr_cost, kind_cost, known_of, right_cost, turns};
ghost use Rattle.oc_budget.specs.Costs.{is_use};
ghost use Rattle.oc_budget.specs.Fitting.{IsFitted};
ghost use Rattle.oc_tree.specs.Costs.{one, probes, inner_cost, else_cost, block_cost, function_cost};

use crate::exprs::{args_cost, expr_cost};
use crate::known::Known;
use crate::sums::{greater, plus, times};
use oc_tree::tree::{Block, Call, Expr, Function, Right, StmtId, StmtKind};

/// What is known of the function at a place.
pub fn known_of(costs: &[u64], place: Option<usize>) -> u64
    ensures { result ≡ known_of costs.now place }
{
    match place {
        Some(place) => { if place < costs.len() { costs[place] } else { 0 } }
        None => 0,
    }
}

/// The cost of a call, with its arguments and the called function; none where it doesn't fit 64
/// bits.
fn call_cost(known: &Known, costs: &[u64], call: &Call) -> Option<u64>
    ensures { IsFitted result
        (call_cost known.now.program.functions costs.now (call_view call.now)) }
{
    let arguments = plus(args_cost(call.args.as_slice())?, 1)?;
    plus(arguments, known_of(costs, known.place(&call.function)))
}

/// The cost of the right side of a `let` or an assignment; none where it doesn't fit 64 bits.
fn right_cost(known: &Known, costs: &[u64], right: &Right) -> Option<u64>
    ensures { IsFitted result
        (right_cost known.now.program.functions costs.now (right_view right.now)) }
{
    match right {
        Right::Value { value } => expr_cost(value),
        Right::Sense { .. } => Some(1),
        Right::Call { call } => call_cost(known, costs, call),
    }
}

/// The cost of an assignment to an element.
fn element_cost(known: &Known, costs: &[u64], index: &Expr, right: &Right) -> Option<u64>
    ensures { IsFitted result
        (right_cost known.now.program.functions costs.now (right_view right.now)
        + expr_cost (expr_view index.now) + 3) }
{
    let sides = plus(right_cost(known, costs, right)?, expr_cost(index)?)?;
    plus(sides, 3)
}

/// The cost of a call that is a statement, which drops its result.
fn call_only_cost(known: &Known, costs: &[u64], call: &Call) -> Option<u64>
    ensures { IsFitted result
        (kind_cost known.now.program.functions costs.now (call_only (call_view call.now))) }
{
    let dropped = if known.has_result(call) { 1 } else { 0 };
    plus(call_cost(known, costs, call)?, dropped)
}

/// How many turns a `for` from `from` up to, but without, `to` has.
fn turns(from: i32, to: i32) -> u32
    ensures { result ≡ turns from to }
{
    let turns = to as i64 - from as i64;
    if turns < 0 { 0 } else { turns as u32 }
}

/// One step where there is one.
fn one(is: bool) -> u64
    ensures { result ≡ one is }
{
    if is { 1 } else { 0 }
}

/// The probes around a statement, but for those of a `while`, which are a part of its cost.
pub fn probes(uses: bool, kind: &StmtKind) -> u64
    ensures probes { result ≡ probes uses (kind_view kind.now) }
{
    match kind {
        StmtKind::While { .. } => 0,
        _ => { if uses { 2 } else { 0 } }
    }
}

/// The cost of a block.
#[cycle(cost)]
pub fn block_cost(known: &Known, costs: &[u64], block: &Block) -> Option<u64>
    ensures { IsFitted result
        (block_cost known.now.program.functions (is_use known.now.program) known.now.regions
        costs.now (block_view block.now)) }
{
    let mut cost = 0;
    for statement in &block.statements {
        let inner = inner_cost(known, costs, statement.id, &statement.kind)?;
        let probed = plus(inner, probes(known.uses(statement.id), &statement.kind))?;
        let marked = plus(known.marks(statement.id), probed)?;
        cost = plus(cost, marked)?;
    }
    Some(cost)
}

/// Both branches of an `if`, the first of which has the cost `then`.
#[cycle(cost)]
fn else_cost(known: &Known, costs: &[u64], then: u64, otherwise: &Option<Block>) -> Option<u64>
    ensures { IsFitted result
        (else_cost known.now.program.functions (is_use known.now.program) known.now.regions
        costs.now then (else_view otherwise.now)) }
{
    match otherwise {
        Some(block) => Some(greater(plus(then, 1)?, block_cost(known, costs, block)?)),
        None => Some(then),
    }
}

/// The cost of a `for` of so many turns.
#[cycle(cost)]
fn for_cost(known: &Known, costs: &[u64], turns: u32, body: &Block) -> Option<u64>
    ensures { IsFitted result
        (6
        + turns
        * (9
        + block_cost known.now.program.functions (is_use known.now.program) known.now.regions
        costs.now (block_view body.now))) }
{
    if turns == 0 {
        return Some(6);
    }
    let turn = plus(9, block_cost(known, costs, body)?)?;
    plus(6, times(turns, turn)?)
}

/// The cost of a `while` of at most so many turns, with so many steps for each of its probes.
#[cycle(cost)]
fn while_cost(
    known: &Known,
    costs: &[u64],
    probe: u64,
    bound: u32,
    body: &Block,
    condition: &Expr,
) -> Option<u64>
    requires { probe ≤ 1 }
    ensures { IsFitted result
        (6
        + bound
        * (10 + probe + expr_cost (expr_view condition.now)
        + block_cost known.now.program.functions (is_use known.now.program) known.now.regions
        costs.now (block_view body.now))
        + probe) }
{
    if bound == 0 {
        return Some(6 + probe);
    }
    let test = plus(10 + probe, expr_cost(condition)?)?;
    let turn = plus(test, block_cost(known, costs, body)?)?;
    plus(plus(6, times(bound, turn)?)?, probe)
}

/// The cost of a statement, without the probes and marks around it.
#[cycle(cost)]
pub fn inner_cost(known: &Known, costs: &[u64], s: StmtId, kind: &StmtKind) -> Option<u64>
    ensures { IsFitted result
        (inner_cost known.now.program.functions (is_use known.now.program) known.now.regions
        costs.now s (kind_view kind.now)) }
{
    match kind {
        StmtKind::Let { right, .. } | StmtKind::Assign { right, .. } => {
            plus(right_cost(known, costs, right)?, 1)
        }
        StmtKind::LetArray { words, .. } => plus(6, times(*words, 14)?),
        StmtKind::AssignIndex { index, right, .. } => element_cost(known, costs, index, right),
        StmtKind::AssignDeref { right, .. } => plus(right_cost(known, costs, right)?, 2),
        StmtKind::If {
            condition,
            then,
            otherwise,
        } => {
            let test = plus(expr_cost(condition)?, 1)?;
            let then = block_cost(known, costs, then)?;
            plus(test, else_cost(known, costs, then, otherwise)?)
        }
        StmtKind::For { from, to, body, .. } => for_cost(known, costs, turns(*from, *to), body),
        StmtKind::While {
            condition,
            bound,
            body,
        } => while_cost(known, costs, one(known.uses(s)), *bound, body, condition),
        StmtKind::CallOnly { call } => call_only_cost(known, costs, call),
        StmtKind::SenseOnly { .. } => Some(2),
        StmtKind::Emit { value, .. } | StmtKind::Return { value } => plus(expr_cost(value)?, 1),
        StmtKind::Fresh { .. } => Some(0),
        StmtKind::Consistent { .. } => Some(1),
    }
}

/// The cost of a function.
pub fn function_cost(known: &Known, costs: &[u64], function: &Function) -> Option<u64>
    ensures { IsFitted result
        (function_cost known.now.program.functions (is_use known.now.program) known.now.regions
        costs.now (function_view function.now)) }
{
    let returns = if function.result.is_some() { 0 } else { 1 };
    plus(block_cost(known, costs, &function.body)?, returns)
}
