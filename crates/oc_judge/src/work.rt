//! A statement's own work.
ghost use Rattle.std.specs.Prelude.{◌≡◌, [], ◌∷◌, ◌-ℤ◌, IfOk, IfSome, List, OnOk};
ghost use Rattle.oc_tree.specs.Tree.{consistent, emit, if_else, return};
ghost use Rattle.oc_tree.specs.View.{block_view, else_view, expr_view, kind_view, right_view};
ghost use Rattle.oc_tree.specs.Weight.{count_of};
ghost use Rattle.oc_meaning.specs.Exec.{Returned, Went, array_of};
ghost use Rattle.oc_meaning.specs.Store.{Store, made};
ghost use Rattle.oc_steps.specs.Ages.{join_ages};
ghost use Rattle.oc_steps.specs.Sets.{value_by};
ghost use Rattle.oc_steps.specs.Steps.{Goes, Loop, Take, Turns, on_value};
ghost use Rattle.oc_steps.specs.Steps as steps;
ghost use Rattle.oc_judge.specs.Frames.{frames_view, inside_view};
ghost use Rattle.oc_judge.specs.Going.{right_here, step_at, taken_here, work_here};
ghost use Rattle.oc_judge.specs.Leading.{HasValue, IsWorked, Takes, TakesRight};
ghost use Rattle.oc_judge.specs.Stores.{completion_at};
ghost use Rattle.oc_judge.specs.Values.{value_view};

use crate::age::{Age, Got, Value};
use crate::blocks::{begin_here, call};
use crate::eval::{is_zero, value_of};
use crate::frames::{ForTurns, Frame, Inside, Task, WhileTurns, push_frame, push_task};
use crate::going::Going;
use crate::held::Held;
use crate::naming::expression_is_use;
use crate::running::Running;
use crate::store::{Completion, Store};
use crate::uses::{end_use, expression_age};
use oc_meaning::homes::set_home;
use oc_meaning::names::number_in;
use oc_meaning::regions::ended_by;
use oc_meaning::scope::Scope;
use oc_tree::name::Name;
use oc_tree::said::{Said, Shown};
use oc_tree::tree::{Block, Expr, Right, StmtId, StmtKind};
use std::alloc::{AllocError, Global};
use std::rc::Rc;

/// A right side that is an expression of the statement `n`.
fn evaluate(
    scope: &Scope,
    n: StmtId,
    value: &Expr,
    store: &mut Store,
) -> Result<Completion, AllocError>
    ensures { IfOk result
        (λ o. (fs : List steps.Frame) → Goes fs (completion_at o store.new)
        ≡ on_value (value_by join_ages scope.now store.old (expr_view value.now)) n store.old fs
        (λ v. Goes fs (Returned v store.old))) }
{
    match value_of(scope, store, value) {
        Got::Traps { kind } => store.trap(kind, n),
        Got::Value { value: found } => Ok(Completion::Returned { value: found }),
    }
}

/// A right side of the statement `n`.
fn right<'a>(
    run: &Running<'a>,
    inside: Inside<'a>,
    scope: &Scope<'a>,
    n: StmtId,
    side: &'a Right,
    frames: &mut Vec<Frame<'a>>,
    store: &mut Store,
) -> Result<Going, AllocError>
    ensures { IfOk result
        (λ s. step_at s (frames_view frames.new.items) store.new
        ≡ right_here run.now (inside_view inside.entry) scope.now n (right_view side.now)
        (frames_view frames.old.items) store.old) }
{
    match side {
        Right::Value { value } => {
            let completion = evaluate(scope, n, value, store)?;
            Ok(Going::Goes { completion })
        }
        Right::Sense { sensor } => {
            let sensor = number_in(run.program.names.sensors.as_slice(), sensor)?;
            Ok(Going::Asks { sensor })
        }
        Right::Call { call: inner } => {
            let completion = call(run, inside, scope, n, inner, frames, store)?;
            Ok(Going::Goes { completion })
        }
    }
}

/// The statement `n` takes the value of its right side then.
fn push_take<'a>(
    scope: &Rc<Scope<'a>>,
    n: StmtId,
    kind: &'a StmtKind,
    frames: &mut Vec<Frame<'a>>,
) -> Result<(), AllocError>
    ensures { OnOk result
        (frames_view frames.new.items
        ≡ Take scope.now.value n (kind_view kind.now) ∷ frames_view frames.old.items) }
{
    let scope = Rc::clone(scope)?;
    push_task(scope, Task::Take { stmt: n, kind }, frames)?;
    Ok(())
}

/// The right side of a statement that takes its value then.
fn right_to_take<'a>(
    run: &Running<'a>,
    inside: Inside<'a>,
    scope: &Rc<Scope<'a>>,
    n: StmtId,
    kind: &'a StmtKind,
    side: &'a Right,
    frames: &mut Vec<Frame<'a>>,
    store: &mut Store,
) -> Result<Going, AllocError>
    ensures { IfOk result
        (λ s. step_at s (frames_view frames.new.items) store.new
        ≡ right_here run.now (inside_view inside.entry) scope.now.value n (right_view side.now)
        (Take scope.now.value n (kind_view kind.now) ∷ frames_view frames.old.items) store.old) }
{
    push_take(scope, n, kind, frames)?;
    let going = right(run, inside, scope, n, side, frames, store)?;
    Ok(going)
}

/// The value of the right side of the statement `n`, which is of this kind, is taken.
pub fn take(
    run: &Running,
    scope: &Scope,
    n: StmtId,
    kind: &StmtKind,
    value: Value,
    store: &mut Store,
) -> Result<Completion, AllocError>
    ensures { IfOk result
        (λ o. (fs : List steps.Frame) → Goes fs (completion_at o store.new)
        ≡ taken_here run.now scope.now n (kind_view kind.now) (value_view value) fs store.old) }
{
    match kind {
        StmtKind::Let { .. } => {
            let held = Held::holding(run.alloc, value)?;
            store.make(held)?;
            Ok(Completion::Went)
        }
        StmtKind::Assign { name, .. } => {
            store.assign(scope.place(name), value);
            Ok(Completion::Went)
        }
        StmtKind::AssignDeref { name, .. } => {
            store.assign(scope.place(name), value);
            Ok(Completion::Went)
        }
        StmtKind::AssignIndex { name, index, .. } => match value_of(scope, store, index) {
            Got::Traps { kind: trapped } => store.trap(trapped, n),
            Got::Value { value: element } => {
                store.assign_element(scope.place(name), element, value, n)
            }
        },
        _ => Ok(Completion::Went),
    }
}

/// The right side whose value a statement takes, where it has one.
fn right_of(kind: &StmtKind) -> Option<&Right>
    ensures { IfSome result (λ r. TakesRight (kind_view kind.now) (right_view r.now)) }
{
    match kind {
        StmtKind::Let { right, .. } => Some(right),
        StmtKind::Assign { right, .. } => Some(right),
        StmtKind::AssignDeref { right, .. } => Some(right),
        StmtKind::AssignIndex { right, .. } => Some(right),
        _ => None,
    }
}

/// The value of a right side that asks and calls nothing, where it has one.
fn right_value(scope: &Scope, store: &Store, side: &Right) -> Option<Value>
    ensures { IfSome result
        (λ v. HasValue scope.now store.now (right_view side.now) (value_view v)) }
{
    match side {
        Right::Value { value } => match value_of(scope, store, value) {
            Got::Value { value: found } => Some(found),
            Got::Traps { .. } => None,
        },
        _ => None,
    }
}

/// The value that a statement takes, where it asks and calls nothing for it.
fn find_value(scope: &Scope, store: &Store, kind: &StmtKind) -> Option<Value>
    ensures { IfSome result (λ v. Takes scope.now store.now (kind_view kind.now) (value_view v)) }
{
    match right_of(kind) {
        Some(side) => right_value(scope, store, side),
        None => None,
    }
}

/// The whole work of the statement `n`, which is of this kind, where it takes a value for which
/// nothing is asked and called, or does nothing.
#[tactic(auto, using(crate::proofs::Leading::at_once))]
pub fn work_at_once(
    run: &Running,
    scope: &Scope,
    n: StmtId,
    kind: &StmtKind,
    store: &mut Store,
) -> Result<Option<Completion>, AllocError>
    requires { store.old.events ≡ [] }
    ensures { IfOk result
        (λ o. (f : steps.Inside) (fs : List steps.Frame)
        → IsWorked run.now f scope.now n (kind_view kind.now) fs store.old o store.new) }
{
    match find_value(scope, store, kind) {
        Some(value) => {
            let completion = take(run, scope, n, kind, value, store)?;
            Ok(Some(completion))
        }
        None => match kind {
            StmtKind::Fresh { .. } => Ok(Some(Completion::Went)),
            _ => Ok(None),
        },
    }
}

/// An `if` of the statement `n`.
fn branch<'a>(
    run: &Running<'a>,
    inside: Inside<'a>,
    scope: &Rc<Scope<'a>>,
    n: StmtId,
    condition: &'a Expr,
    then: &'a Block,
    otherwise: &'a Option<Block>,
    frames: &mut Vec<Frame<'a>>,
    store: &mut Store,
) -> Result<Completion, AllocError>
    ensures { IfOk result
        (λ o. Goes (frames_view frames.new.items) (completion_at o store.new)
        ≡ work_here run.now (inside_view inside.entry) scope.now.value n
        (if_else (expr_view condition.now) (block_view then.now) (else_view otherwise.now))
        (frames_view frames.old.items) store.old) }
{
    match value_of(scope, store, condition) {
        Got::Traps { kind } => store.trap(kind, n),
        Got::Value { value } => {
            if !is_zero(value.number) {
                return begin_here(inside, scope, then, frames, store);
            }
            match otherwise {
                None => Ok(Completion::Went),
                Some(second) => begin_here(inside, scope, second, frames, store),
            }
        }
    }
}

/// An output of the statement `n`.
fn emit<'a>(
    run: &Running<'a>,
    inside: Inside<'a>,
    scope: &Rc<Scope<'a>>,
    n: StmtId,
    port: &Name,
    value: &Expr,
    store: &mut Store,
) -> Result<Completion, AllocError>
    ensures { IfOk result
        (λ o. (fs : List steps.Frame) → Goes fs (completion_at o store.new)
        ≡ work_here run.now (inside_view inside.entry) scope.now.value n
        (emit port.now (expr_view value.now)) fs store.old) }
{
    match value_of(scope, store, value) {
        Got::Traps { kind } => store.trap(kind, n),
        Got::Value { value: found } => {
            let port = number_in(run.program.names.ports.as_slice(), port)?;
            let what = Shown::Emitted {
                port,
                value: found.number,
            };
            store.note(Said::Showed { what }, found.age)?;
            Ok(Completion::Went)
        }
    }
}

/// An annotation of the consistent set `id` by the statement `n`.
fn tag<'a>(
    run: &Running<'a>,
    inside: Inside<'a>,
    scope: &Rc<Scope<'a>>,
    n: StmtId,
    name: &Name,
    id: i32,
    store: &mut Store,
) -> Result<Completion, AllocError>
    ensures { IfOk result
        (λ o. (fs : List steps.Frame) → Goes fs (completion_at o store.new)
        ≡ work_here run.now (inside_view inside.entry) scope.now.value n (consistent name.now id) fs
        store.old) }
{
    let age = store.age(scope.place(name));
    let home = set_home(inside.body, id)?;
    store.tag(home, n, age)?;
    Ok(Completion::Went)
}

/// A `return` by the statement `n`.
fn give_back<'a>(
    run: &Running<'a>,
    inside: Inside<'a>,
    scope: &Scope<'a>,
    n: StmtId,
    value: &'a Expr,
    frames: &mut Vec<Frame<'a>>,
    store: &mut Store,
) -> Result<Completion, AllocError>
    ensures { IfOk result
        (λ o. Goes (frames_view frames.new.items) (completion_at o store.new)
        ≡ work_here run.now (inside_view inside.entry) scope.now n (return (expr_view value.now))
        (frames_view frames.old.items) store.old) }
{
    match value_of(scope, store, value) {
        Got::Traps { kind } => store.trap(kind, n),
        Got::Value { value: found } => {
            let region = ended_by(run.regions, n);
            push_frame(
                Frame::Back {
                    value: found,
                    region,
                },
                frames,
            )?;
            let is = expression_is_use(scope, value);
            let age = expression_age(run.alloc, scope, store, value)?;
            end_use(is, n, age, store)?;
            Ok(Completion::Went)
        }
    }
}

/// The turns of a `for`.
fn push_turns<'a>(
    inside: Inside<'a>,
    scope: &Rc<Scope<'a>>,
    name: &'a Name,
    from: i32,
    to: i32,
    body: &'a Block,
    frames: &mut Vec<Frame<'a>>,
) -> Result<(), AllocError>
    ensures { OnOk result
        (frames_view frames.new.items
        ≡ Turns (inside_view inside.entry) name.now (count_of (to -ℤ from)) from
        (block_view body.now) scope.now.value ∷ frames_view frames.old.items) }
{
    let scope = Rc::clone(scope)?;
    let turns = ForTurns {
        inside,
        name,
        next: from,
        to,
        body,
    };
    push_task(scope, Task::Turns { turns }, frames)?;
    Ok(())
}

/// The turns of the `while` `n`.
fn push_loop<'a>(
    inside: Inside<'a>,
    scope: &Rc<Scope<'a>>,
    n: StmtId,
    condition: &'a Expr,
    bound: u32,
    body: &'a Block,
    frames: &mut Vec<Frame<'a>>,
) -> Result<(), AllocError>
    ensures { OnOk result
        (frames_view frames.new.items
        ≡ Loop (inside_view inside.entry) scope.now.value n (expr_view condition.now) bound
        (block_view body.now) [] ∷ frames_view frames.old.items) }
{
    let scope = Rc::clone(scope)?;
    let turns = WhileTurns {
        inside,
        stmt: n,
        condition,
        left: bound,
        body,
        age: Age::Never,
    };
    push_task(scope, Task::Loop { turns }, frames)?;
    Ok(())
}

/// An array that is made.
fn make_array(
    alloc: Global,
    initial: i32,
    words: u32,
    store: &mut Store,
) -> Result<Completion, AllocError>
    ensures { IfOk result
        (λ o. completion_at o store.new ≡ Went (made (array_of initial words) store.old)) }
{
    let held = Held::array(alloc, initial, words)?;
    store.make(held)?;
    Ok(Completion::Went)
}

/// The work of the statement `n`, which is of this kind.
pub fn work<'a>(
    run: &Running<'a>,
    inside: Inside<'a>,
    scope: &Rc<Scope<'a>>,
    n: StmtId,
    kind: &'a StmtKind,
    frames: &mut Vec<Frame<'a>>,
    store: &mut Store,
) -> Result<Going, AllocError>
    ensures { IfOk result
        (λ s. step_at s (frames_view frames.new.items) store.new
        ≡ work_here run.now (inside_view inside.entry) scope.now.value n (kind_view kind.now)
        (frames_view frames.old.items) store.old) }
{
    match kind {
        StmtKind::Let { right: side, .. } => {
            right_to_take(run, inside, scope, n, kind, side, frames, store)
        }
        StmtKind::Assign { right: side, .. } => {
            right_to_take(run, inside, scope, n, kind, side, frames, store)
        }
        StmtKind::AssignDeref { right: side, .. } => {
            right_to_take(run, inside, scope, n, kind, side, frames, store)
        }
        StmtKind::AssignIndex { right: side, .. } => {
            right_to_take(run, inside, scope, n, kind, side, frames, store)
        }
        StmtKind::SenseOnly { sensor } => {
            let sensor = number_in(run.program.names.sensors.as_slice(), sensor)?;
            push_take(scope, n, kind, frames)?;
            Ok(Going::Asks { sensor })
        }
        StmtKind::CallOnly { call: inner } => {
            push_take(scope, n, kind, frames)?;
            let completion = call(run, inside, scope, n, inner, frames, store)?;
            Ok(Going::Goes { completion })
        }
        StmtKind::LetArray { initial, words, .. } => {
            let completion = make_array(run.alloc, *initial, *words, store)?;
            Ok(Going::Goes { completion })
        }
        StmtKind::If {
            condition,
            then,
            otherwise,
        } => {
            let completion = branch(
                run, inside, scope, n, condition, then, otherwise, frames, store,
            )?;
            Ok(Going::Goes { completion })
        }
        StmtKind::For {
            name,
            from,
            to,
            body,
        } => {
            push_turns(inside, scope, name, *from, *to, body, frames)?;
            Ok(Going::Goes {
                completion: Completion::Went,
            })
        }
        StmtKind::While {
            condition,
            bound,
            body,
        } => {
            push_loop(inside, scope, n, condition, *bound, body, frames)?;
            Ok(Going::Goes {
                completion: Completion::Went,
            })
        }
        StmtKind::Emit { port, value } => {
            let completion = emit(run, inside, scope, n, port, value, store)?;
            Ok(Going::Goes { completion })
        }
        StmtKind::Fresh { .. } => Ok(Going::Goes {
            completion: Completion::Went,
        }),
        StmtKind::Consistent { name, id } => {
            let completion = tag(run, inside, scope, n, name, *id, store)?;
            Ok(Going::Goes { completion })
        }
        StmtKind::Return { value } => {
            let completion = give_back(run, inside, scope, n, value, frames, store)?;
            Ok(Going::Goes { completion })
        }
    }
}
