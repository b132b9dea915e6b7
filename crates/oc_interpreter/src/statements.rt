//! Statements, executed.
ghost use Rattle.std.specs.Prelude.{◌≡◌, ◌∷◌, ◌-◌, [], ◌-ℤ◌, drop, length, map, IfOk, OnErr, OnOk};
ghost use Rattle.oc_tree.specs.View.{block_view, call_view, expr_view, kind_view, right_view, stmts_view};
ghost use Rattle.oc_tree.specs.Weight.{count_of};
ghost use Rattle.oc_meaning.specs.Store as meant;
ghost use Rattle.oc_meaning.specs.Eval.{value_of};
ghost use Rattle.oc_meaning.specs.Uses.{is_fresh, is_use, use_samples};
ghost use Rattle.oc_meaning.specs.Exec.{for_turns, grown, in_turn, while_turns};
ghost use Rattle.oc_interpreter.specs.Seen.{completion_at, passed_view};
ghost use Rattle.oc_meaning.specs.Cuts.{Oldest, events_in};
ghost use Rattle.oc_interpreter.specs.Runs.{block_here, call_here, callee, kind_here, right_here, stmt_here, stmts_here, stmts_in};

use crate::arguments::{Passing, pass_arguments};
use crate::calls::frame;
use crate::completion::{Completion, Passed};
use crate::eval::value_of;
use crate::interrupted::Interrupted;
use crate::marks::{begin, begin_turn, end, end_turns, is_use};
use crate::running::{Running, is_zero};
use crate::samples::Samples;
use crate::simple::{
    assign, assign_index, drop_value, emit, evaluate, leave, make, make_array, return_value, sense,
    tag,
};
use crate::store::Store;
use crate::uses::find_use;
use crate::value::Got;
use oc_meaning::names::{function_named, is_annotated};
use oc_meaning::place::Place;
use oc_meaning::regions::{begun_by, ended_by};
use oc_meaning::scope::{Binding, Scope};
use oc_tree::name::Name;
use oc_tree::tree::{Block, Call, Expr, Right, Stmt, StmtId, StmtKind};
use std::alloc::AllocError;
use std::collections::VecDeque;

/// The variable that a `let` makes visible for the statements that follow it, where so many local
/// variables lived before.
fn grow<'a>(
    scope: &mut Scope<'a>,
    level: usize,
    kind: &'a StmtKind,
    rest: &[Stmt],
) -> Result<(), AllocError>
    ensures { OnOk result ((σ : meant.Store) → length σ.locals ≡ level
        → scope.new ≡ grown (kind_view kind.now) (stmts_view rest.now) scope.old σ) }
{
    match kind {
        StmtKind::Let { name, .. } => scope.push(Binding {
            name,
            place: Place::Local { level },
            reference: false,
            fresh: is_annotated(name, rest),
        }),
        StmtKind::LetArray { name, .. } => scope.push(Binding {
            name,
            place: Place::Local { level },
            reference: false,
            fresh: is_annotated(name, rest),
        }),
        _ => Ok(()),
    }
}

/// Executes a block. The scope is as before in the end.
#[cycle(run)]
pub fn block<'a>(
    run: &Running<'a>,
    scope: &mut Scope<'a>,
    block: &'a Block,
    store: &mut Store,
) -> Result<Completion, Interrupted>
    ensures runs { IfOk result
        (λ o. completion_at o store.new
        ≡ block_here run.now scope.old (block_view block.now) store.old) }
    ensures scope { OnOk result (scope.new ≡ scope.old) }
    ensures cut { OnErr result
        (Oldest store.new.events
        (events_in (block_here run.now scope.old (block_view block.now) store.old))) }
{
    let visible = scope.len();
    let locals = store.locals();
    store.enter(block.id)?;
    let completion = statements(run, scope, block, store)?;
    scope.truncate(visible);
    Ok(leave(locals, completion, store))
}

/// The statements of a block, whose variables stay visible.
#[cycle(run)]
fn statements<'a>(
    run: &Running<'a>,
    scope: &mut Scope<'a>,
    block: &'a Block,
    store: &mut Store,
) -> Result<Completion, Interrupted>
    ensures runs { IfOk result
        (λ o. completion_at o store.new
        ≡ stmts_here run.now scope.old (stmts_in (block_view block.now)) store.old) }
    ensures scope { OnOk result (drop (length scope.new - length scope.old) scope.new ≡ scope.old) }
    ensures cut { OnErr result
        (Oldest store.new.events
        (events_in (stmts_here run.now scope.old (stmts_in (block_view block.now)) store.old))) }
{
    let all = block.statements.as_slice();
    let mut done = 0;
    for inner in all {
        done += 1;
        let level = store.locals();
        match statement(run, scope, inner, store)? {
            Completion::Went => grow(scope, level, &inner.kind, &all[done..])?,
            other => return Ok(other),
        }
    }
    Ok(Completion::Went)
}

/// A statement with its region and its use.
#[cycle(run)]
fn statement<'a>(
    run: &Running<'a>,
    scope: &mut Scope<'a>,
    statement: &'a Stmt,
    store: &mut Store,
) -> Result<Completion, Interrupted>
    ensures runs { IfOk result
        (λ o. completion_at o store.new
        ≡ stmt_here run.now scope.old statement.now.id (kind_view statement.now.kind) store.old) }
    ensures scope { OnOk result (scope.new ≡ scope.old) }
    ensures cut { OnErr result
        (Oldest store.new.events
        (events_in (stmt_here run.now scope.old statement.now.id (kind_view statement.now.kind)
        store.old))) }
{
    let n = statement.id;
    let uses = find_use(run.alloc, scope, store, &statement.kind)?;
    store.open_region(begun_by(run.regions, n))?;
    begin(&statement.kind, &uses, n, store)?;
    match kind(run, scope, n, &statement.kind, store)? {
        Completion::Went => {
            end(&statement.kind, uses, n, store)?;
            store.close_region(ended_by(run.regions, n))?;
            Ok(Completion::Went)
        }
        other => Ok(other),
    }
}

/// A statement's own work.
#[cycle(run)]
fn kind<'a>(
    run: &Running<'a>,
    scope: &mut Scope<'a>,
    n: StmtId,
    kind: &'a StmtKind,
    store: &mut Store,
) -> Result<Completion, Interrupted>
    ensures runs { IfOk result
        (λ o. completion_at o store.new
        ≡ kind_here run.now scope.old n (kind_view kind.now) store.old) }
    ensures scope { OnOk result (scope.new ≡ scope.old) }
    ensures cut { OnErr result
        (Oldest store.new.events (events_in
        (kind_here run.now scope.old n (kind_view kind.now) store.old))) }
{
    match kind {
        StmtKind::Let { right: side, .. } => {
            let given = right(run, scope, n, side, store)?;
            make(run.alloc, given, store)
        }
        StmtKind::LetArray { initial, words, .. } => {
            make_array(run.alloc, *initial, *words, store)
        }
        StmtKind::Assign { name, right: side } => {
            let given = right(run, scope, n, side, store)?;
            assign(run.alloc, scope, name, given, store)
        }
        StmtKind::AssignIndex {
            name,
            index,
            right: side,
        } => {
            let given = right(run, scope, n, side, store)?;
            assign_index(run.alloc, scope, n, name, index, given, store)
        }
        StmtKind::AssignDeref { name, right: side } => {
            let given = right(run, scope, n, side, store)?;
            assign(run.alloc, scope, name, given, store)
        }
        StmtKind::If {
            condition,
            then,
            otherwise,
        } => match value_of(run.alloc, scope, store, condition)? {
            Got::Traps { kind: trapped } => store.trap(trapped, n),
            Got::Value { value } => {
                if !is_zero(&value) {
                    return block(run, scope, then, store);
                }
                match otherwise {
                    None => Ok(Completion::Went),
                    Some(second) => block(run, scope, second, store),
                }
            }
        },
        StmtKind::For {
            name,
            from,
            to,
            body,
        } => for_turns(run, scope, name, *from, *to, body, store),
        StmtKind::While {
            condition,
            bound,
            body,
        } => while_turns(run, scope, n, kind, condition, *bound, body, store),
        StmtKind::CallOnly { call: inner } => {
            let given = call(run, scope, n, inner, store)?;
            Ok(drop_value(given))
        }
        StmtKind::SenseOnly { sensor } => {
            let given = sense(run, sensor, store)?;
            Ok(drop_value(given))
        }
        StmtKind::Emit { port, value } => emit(run, scope, n, port, value, store),
        StmtKind::Fresh { .. } => Ok(Completion::Went),
        StmtKind::Consistent { name, id } => tag(run, scope, n, name, *id, store),
        StmtKind::Return { value } => return_value(run, scope, n, kind, value, store),
    }
}

/// The turns of a `for`.
#[cycle(run)]
fn for_turns<'a>(
    run: &Running<'a>,
    scope: &mut Scope<'a>,
    name: &'a Name,
    from: i32,
    to: i32,
    body: &'a Block,
    store: &mut Store,
) -> Result<Completion, Interrupted>
    ensures runs { IfOk result
        (λ o. completion_at o store.new
        ≡ for_turns (count_of (to -ℤ from)) from
        (λ i. block_here run.now (in_turn name.now i ∷ scope.old) (block_view body.now))
        store.old) }
    ensures scope { OnOk result (scope.new ≡ scope.old) }
    ensures cut { OnErr result
        (Oldest store.new.events (events_in (for_turns (count_of (to -ℤ from)) from
        (λ i. block_here run.now (in_turn name.now i ∷ scope.old) (block_view body.now))
        store.old))) }
{
    let visible = scope.len();
    let mut turn = from;
    while turn < to {
        scope.push(Binding {
            name,
            place: Place::Turn { value: turn },
            reference: false,
            fresh: false,
        })?;
        let completion = block(run, scope, body, store)?;
        scope.truncate(visible);
        match completion {
            Completion::Went => turn += 1,
            other => return Ok(other),
        }
    }
    Ok(Completion::Went)
}

/// At most so many turns of the `while` `n`, which is of this kind.
#[cycle(run)]
fn while_turns<'a>(
    run: &Running<'a>,
    scope: &mut Scope<'a>,
    n: StmtId,
    kind: &'a StmtKind,
    condition: &'a Expr,
    bound: u32,
    body: &'a Block,
    store: &mut Store,
) -> Result<Completion, Interrupted>
    ensures runs { IfOk result
        (λ o. completion_at o store.new
        ≡ while_turns bound n (is_use (is_fresh scope.old) (kind_view kind.now))
        (use_samples scope.old (kind_view kind.now))
        (λ τ. value_of scope.old τ (expr_view condition.now))
        (block_here run.now scope.old (block_view body.now)) [] store.old) }
    ensures scope { OnOk result (scope.new ≡ scope.old) }
    ensures cut { OnErr result
        (Oldest store.new.events (events_in
        (while_turns bound n (is_use (is_fresh scope.old) (kind_view kind.now))
        (use_samples scope.old (kind_view kind.now))
        (λ τ. value_of scope.old τ (expr_view condition.now))
        (block_here run.now scope.old (block_view body.now)) [] store.old))) }
{
    let is_use = is_use(run.alloc, scope, store, kind)?;
    let mut samples = Samples::none(run.alloc);
    for _turn in 0..bound {
        samples = begin_turn(run.alloc, scope, n, kind, samples, store)?;
        match value_of(run.alloc, scope, store, condition)? {
            Got::Traps { kind: trapped } => return store.trap(trapped, n),
            Got::Value { value } => {
                if is_zero(&value) {
                    return end_turns(is_use, samples, n, store);
                }
            }
        }
        match block(run, scope, body, store)? {
            Completion::Went => {}
            other => return Ok(other),
        }
    }
    end_turns(is_use, samples, n, store)
}

/// A right side of the statement `n`.
#[cycle(run)]
fn right<'a>(
    run: &Running<'a>,
    scope: &Scope<'a>,
    n: StmtId,
    side: &'a Right,
    store: &mut Store,
) -> Result<Completion, Interrupted>
    ensures runs { IfOk result
        (λ o. completion_at o store.new
        ≡ right_here run.now scope.now n store.old (right_view side.now)) }
    ensures cut { OnErr result
        (Oldest store.new.events (events_in
        (right_here run.now scope.now n store.old (right_view side.now)))) }
{
    match side {
        Right::Value { value } => evaluate(run.alloc, scope, n, value, store),
        Right::Sense { sensor } => sense(run, sensor, store),
        Right::Call { call: inner } => call(run, scope, n, inner, store),
    }
}

/// A call by the statement `n`.
#[cycle(run)]
fn call<'a>(
    run: &Running<'a>,
    scope: &Scope<'a>,
    n: StmtId,
    call: &'a Call,
    store: &mut Store,
) -> Result<Completion, Interrupted>
    ensures runs { IfOk result
        (λ o. completion_at o store.new
        ≡ call_here run.now scope.now n store.old (call_view call.now)) }
    ensures cut { OnErr result
        (Oldest store.new.events (events_in
        (call_here run.now scope.now n store.old (call_view call.now)))) }
{
    match pass_arguments(run.alloc, scope, store, call.args.as_slice())? {
        Passing::Breaks { kind: trapped } => store.trap(trapped, n),
        Passing::Passes { passed } => call_to(run, &call.function, passed, store),
    }
}

/// Executes a function, if calls may go so deep.
#[cycle(run)]
pub fn call_to<'a>(
    run: &Running<'a>,
    name: &Name,
    passed: VecDeque<Passed>,
    store: &mut Store,
) -> Result<Completion, Interrupted>
    ensures runs { IfOk result
        (λ o. completion_at o store.new
        ≡ callee run.now name.now (map passed_view passed.items) store.old) }
    ensures cut { OnErr result
        (Oldest store.new.events (events_in
        (callee run.now name.now (map passed_view passed.items) store.old))) }
{
    if run.depth == 0 {
        return Ok(Completion::Went);
    }
    match function_named(run.program.functions.as_slice(), name) {
        None => Ok(Completion::Went),
        Some(function) => {
            let locals = store.locals();
            let mut scope = frame(run.alloc, run.program, function, passed, store)?;
            let inner = Running {
                depth: run.depth - 1,
                body: &function.body,
                ..*run
            };
            let completion = block(&inner, &mut scope, &function.body, store)?;
            Ok(leave(locals, completion, store))
        }
    }
}
