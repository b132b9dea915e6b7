//! One step of a run.
ghost use Rattle.std.specs.Prelude.{◌≡◌, ◌++◌, IfOk};
ghost use Rattle.std.specs.List.{list_any};
ghost use Rattle.oc_tree.specs.Named.{expr_names};
ghost use Rattle.oc_tree.specs.View.{expr_view, kind_view};
ghost use Rattle.oc_meaning.specs.Exec.{Returned, Went, done};
ghost use Rattle.oc_meaning.specs.Uses.{is_fresh};
ghost use Rattle.oc_steps.specs.Steps.{Goes, Use};
ghost use Rattle.oc_steps.specs.Steps as steps;
ghost use Rattle.oc_judge.specs.Frames.{for_frame, frame_view, frames_view, inside_view, task_frames, test_frame, while_frame};
ghost use Rattle.oc_judge.specs.Going.{IsKept, step_here, went_here};
ghost use Rattle.oc_judge.specs.Leading.{LeadsOn, LeadsTo};
ghost use Rattle.oc_judge.specs.Stores.{completion_at};
ghost use Rattle.oc_judge.specs.Values.{age_view, value_view};

use crate::age::{Age, Got, Value};
use crate::blocks::begin;
use crate::eval::{is_zero, value_of};
use crate::frames::{ForTurns, Frame, Inside, Task, WhileTurns, push_frame, push_task};
use crate::going::Going;
use crate::naming::expression_is_use;
use crate::running::Running;
use crate::scopes::with_variable;
use crate::statement::{begin_work, leave_statement, rest};
use crate::store::{Completion, Store};
use crate::uses::{begin_use, end_use, expression_age, use_of};
use crate::work::{take, work};
use oc_meaning::place::Place;
use oc_meaning::scope::{Binding, Scope};
use oc_tree::tree::{StmtId, StmtKind};
use std::alloc::AllocError;
use std::rc::Rc;

/// A turn of a `for`, if one is left.
#[tactic(auto, using(crate::proofs::Turning::turn_over, crate::proofs::Turning::turn_more))]
fn turn<'a>(
    run: &Running<'a>,
    scope: Rc<Scope<'a>>,
    turns: ForTurns<'a>,
    frames: &mut Vec<Frame<'a>>,
    store: &mut Store,
) -> Result<Completion, AllocError>
    ensures { IfOk result
        (λ o. Goes (frames_view frames.new.items) (completion_at o store.new)
        ≡ went_here run.now (for_frame scope.entry.value turns.entry) (frames_view frames.old.items)
        store.old) }
{
    if turns.next < turns.to {
        let more = scope.copy(run.alloc)?;
        let inner = with_variable(
            run.alloc,
            more,
            Binding {
                name: turns.name,
                place: Place::Turn { value: turns.next },
                reference: false,
                fresh: false,
            },
        )?;
        let mut behind = turns;
        behind.next += 1;
        push_task(scope, Task::Turns { turns: behind }, frames)?;
        return begin(turns.inside, inner, turns.body, frames, store);
    }
    Ok(Completion::Went)
}

/// The use of the condition of a `while` ends.
fn end_while(
    run: &Running,
    scope: &Scope,
    turns: WhileTurns,
    store: &mut Store,
) -> Result<Completion, AllocError>
    ensures { IfOk result
        (λ o. completion_at o store.new
        ≡ Went (done
        (list_any (is_fresh scope.now) (expr_names (expr_view turns.entry.condition.now)))
        turns.entry.stmt (age_view turns.entry.age) store.old)) }
{
    let is = expression_is_use(scope, turns.condition);
    end_use(is, turns.stmt, turns.age, store)?;
    Ok(Completion::Went)
}

/// The use of the condition of a `while` begins, if a turn is left, or ends.
fn turn_while<'a>(
    run: &Running<'a>,
    scope: Rc<Scope<'a>>,
    turns: WhileTurns<'a>,
    frames: &mut Vec<Frame<'a>>,
    store: &mut Store,
) -> Result<Completion, AllocError>
    ensures { IfOk result
        (λ o. Goes (frames_view frames.new.items) (completion_at o store.new)
        ≡ went_here run.now (while_frame scope.entry.value turns.entry)
        (frames_view frames.old.items) store.old) }
{
    if turns.left == 0 {
        return end_while(run, &scope, turns, store);
    }
    let is = expression_is_use(&scope, turns.condition);
    let now = expression_age(run.alloc, &scope, store, turns.condition)?;
    let mut behind = turns;
    behind.left -= 1;
    behind.age = behind.age.join(now);
    push_task(scope, Task::Test { turns: behind }, frames)?;
    begin_use(is, turns.stmt, now, store)?;
    Ok(Completion::Went)
}

/// The condition of a turn of a `while`, and then its body or what is behind it.
fn test<'a>(
    run: &Running<'a>,
    scope: Rc<Scope<'a>>,
    turns: WhileTurns<'a>,
    frames: &mut Vec<Frame<'a>>,
    store: &mut Store,
) -> Result<Completion, AllocError>
    ensures { IfOk result
        (λ o. Goes (frames_view frames.new.items) (completion_at o store.new)
        ≡ went_here run.now (test_frame scope.entry.value turns.entry)
        (frames_view frames.old.items) store.old) }
{
    match value_of(&scope, store, turns.condition) {
        Got::Traps { kind } => store.trap(kind, turns.stmt),
        Got::Value { value } => {
            if is_zero(value.number) {
                return end_while(run, &scope, turns, store);
            }
            let inner = Rc::clone(&scope)?;
            push_task(scope, Task::Loop { turns }, frames)?;
            begin(turns.inside, inner, turns.body, frames, store)
        }
    }
}

/// The use of the statement `n`, which is of this kind, begins, and then its work.
fn use_and_work<'a>(
    run: &Running<'a>,
    inside: Inside<'a>,
    scope: Rc<Scope<'a>>,
    n: StmtId,
    age: Age,
    kind: &'a StmtKind,
    frames: &mut Vec<Frame<'a>>,
    store: &mut Store,
) -> Result<Completion, AllocError>
    ensures { IfOk result
        (λ o. Goes (frames_view frames.new.items) (completion_at o store.new)
        ≡ went_here run.now
        (Use (inside_view inside.entry) scope.entry.value n (age_view age) (kind_view kind.now))
        (frames_view frames.old.items) store.old) }
{
    let found = use_of(run.alloc, &scope, store, kind)?;
    begin_work(inside, scope, n, kind, found.begins, age, frames, store)
}

/// A task with these variables, where what was before it went through.
#[tactic(auto, using(crate::proofs::Leading::at_once))]
fn perform<'a>(
    run: &Running<'a>,
    scope: Rc<Scope<'a>>,
    task: Task<'a>,
    frames: &mut Vec<Frame<'a>>,
    store: &mut Store,
) -> Result<Going, AllocError>
    ensures { IfOk result
        (λ g. LeadsTo run.now
        (step_here run.now
        (task_frames scope.entry.value task.entry ++ frames_view frames.old.items)
        (Went store.old))
        g (frames_view frames.new.items) store.new) }
{
    let completion = match task {
        Task::Work { inside, stmt, kind } => {
            return work(run, inside, &scope, stmt, kind, frames, store);
        }
        Task::Rest { inside, statements } => {
            return rest(run, inside, scope, statements, frames, store);
        }
        Task::Behind {
            inside,
            stmt,
            is_use,
            age,
            region,
            statements,
        } => {
            return leave_statement(
                run, inside, scope, stmt, is_use, age, region, statements, frames, store,
            );
        }
        Task::Use {
            inside,
            stmt,
            age,
            kind,
        } => use_and_work(run, inside, scope, stmt, age, kind, frames, store)?,
        Task::Take { stmt, kind } => take(run, &scope, stmt, kind, Value::plain(0), store)?,
        Task::Turns { turns } => turn(run, scope, turns, frames, store)?,
        Task::Loop { turns } => turn_while(run, scope, turns, frames, store)?,
        Task::Test { turns } => test(run, scope, turns, frames, store)?,
    };
    Ok(Going::Goes { completion })
}

/// A frame, where what was before it went through.
#[tactic(auto, using(crate::proofs::Leading::at_once))]
fn go_on<'a>(
    run: &Running<'a>,
    frame: Frame<'a>,
    frames: &mut Vec<Frame<'a>>,
    store: &mut Store,
) -> Result<Going, AllocError>
    ensures { IfOk result
        (λ g. LeadsTo run.now
        (step_here run.now (frame_view frame.entry ++ frames_view frames.old.items)
        (Went store.old))
        g (frames_view frames.new.items) store.new) }
{
    match frame {
        Frame::Scoped { scope, task } => perform(run, scope, task, frames, store),
        Frame::Close { region } => {
            store.close_region(region)?;
            Ok(Going::Goes {
                completion: Completion::Went,
            })
        }
        Frame::Leave { locals } => {
            store.leave(locals);
            Ok(Going::Goes {
                completion: Completion::Went,
            })
        }
        Frame::Back { value, region } => {
            store.close_region(region)?;
            Ok(Going::Goes {
                completion: Completion::Returned { value },
            })
        }
    }
}

/// A task with these variables, where a value was returned before it.
fn give_to<'a>(
    run: &Running<'a>,
    scope: Rc<Scope<'a>>,
    task: Task<'a>,
    value: Value,
    frames: &mut Vec<Frame<'a>>,
    store: &mut Store,
) -> Result<Completion, AllocError>
    ensures { IfOk result
        (λ o. Goes (frames_view frames.new.items) (completion_at o store.new)
        ≡ step_here run.now
        (task_frames scope.entry.value task.entry ++ frames_view frames.old.items)
        (Returned (value_view value) store.old)) }
{
    match task {
        Task::Take { stmt, kind } => take(run, &scope, stmt, kind, value, store),
        Task::Behind {
            inside,
            region,
            statements,
            ..
        } => {
            push_task(scope, Task::Rest { inside, statements }, frames)?;
            push_frame(Frame::Close { region }, frames)?;
            Ok(Completion::Returned { value })
        }
        _ => Ok(Completion::Returned { value }),
    }
}

/// A frame, where a value was returned before it.
fn go_back<'a>(
    run: &Running<'a>,
    frame: Frame<'a>,
    value: Value,
    frames: &mut Vec<Frame<'a>>,
    store: &mut Store,
) -> Result<Completion, AllocError>
    ensures { IfOk result
        (λ o. Goes (frames_view frames.new.items) (completion_at o store.new)
        ≡ step_here run.now (frame_view frame.entry ++ frames_view frames.old.items)
        (Returned (value_view value) store.old)) }
{
    match frame {
        Frame::Scoped { scope, task } => give_to(run, scope, task, value, frames, store),
        Frame::Leave { locals } => {
            store.leave(locals);
            Ok(Completion::Returned { value })
        }
        _ => Ok(Completion::Returned { value }),
    }
}

/// One step of a run that came to this, if one is left, and some that follow it where nothing was
/// said before them.
#[tactic(auto, using(crate::proofs::Leading::at_once))]
pub fn step<'a>(
    run: &Running<'a>,
    completion: Completion,
    frames: &mut Vec<Frame<'a>>,
    store: &mut Store,
) -> Result<Option<Going>, AllocError>
    ensures step { IfOk result
        (λ s. LeadsOn run.now
        (step_here run.now (frames_view frames.old.items) (completion_at completion store.old))
        s (frames_view frames.new.items) store.new) }
    ensures kept { IfOk result
        (λ s. IsKept s (frames_view frames.old.items) store.old (frames_view frames.new.items)
        store.new) }
{
    match completion {
        Completion::Trapped => Ok(None),
        Completion::Went => match frames.pop() {
            None => Ok(None),
            Some(frame) => {
                let going = go_on(run, frame, frames, store)?;
                Ok(Some(going))
            }
        },
        Completion::Returned { value } => match frames.pop() {
            None => Ok(None),
            Some(frame) => {
                let completion = go_back(run, frame, value, frames, store)?;
                Ok(Some(Going::Goes { completion }))
            }
        },
    }
}
