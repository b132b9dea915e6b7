//! Blocks and calls that begin.
ghost use Rattle.std.specs.Prelude.{◌≡◌, ◌∷◌, length, map, Some, IfOk, OnOk};
ghost use Rattle.oc_tree.specs.View.{block_view, call_view, function_view};
ghost use Rattle.oc_steps.specs.Ages.{of_ages};
ghost use Rattle.oc_steps.specs.Steps.{Goes, Leave, begin};
ghost use Rattle.oc_judge.specs.Frames.{frames_view, inside_view};
ghost use Rattle.oc_judge.specs.Going.{call_here, function_here, passed_here};
ghost use Rattle.oc_judge.specs.Passing.{passed_view};
ghost use Rattle.oc_judge.specs.Stores.{completion_at};

use crate::arguments::{Passed, Passing, pass_arguments};
use crate::calls::frame;
use crate::frames::{Frame, Inside, Task, push_frame, push_task};
use crate::running::Running;
use crate::store::{Completion, Store};
use oc_meaning::names::function_named;
use oc_meaning::scope::Scope;
use oc_tree::name::Name;
use oc_tree::tree::{Block, Call, Function, StmtId};
use std::alloc::AllocError;
use std::collections::VecDeque;
use std::rc::Rc;

/// The local variables that are made from here on are gone behind what comes first.
fn push_leave(frames: &mut Vec<Frame>, store: &Store) -> Result<(), AllocError>
    ensures { OnOk result
        (frames_view frames.new.items
        ≡ Leave (length store.now.locals) ∷ frames_view frames.old.items) }
{
    let locals = store.locals();
    push_frame(Frame::Leave { locals }, frames)?;
    Ok(())
}

/// A block is begun with these variables.
pub fn begin<'a>(
    inside: Inside<'a>,
    scope: Rc<Scope<'a>>,
    block: &'a Block,
    frames: &mut Vec<Frame<'a>>,
    store: &mut Store,
) -> Result<Completion, AllocError>
    ensures { IfOk result
        (λ o. Goes (frames_view frames.new.items) (completion_at o store.new)
        ≡ begin of_ages (inside_view inside.entry) scope.entry.value (block_view block.now)
        (frames_view frames.old.items) store.old) }
{
    push_leave(frames, store)?;
    let statements = block.statements.as_slice();
    push_task(scope, Task::Rest { inside, statements }, frames)?;
    store.enter(block.id)?;
    Ok(Completion::Went)
}

/// A block is begun with the variables that are visible here.
pub fn begin_here<'a>(
    inside: Inside<'a>,
    scope: &Rc<Scope<'a>>,
    block: &'a Block,
    frames: &mut Vec<Frame<'a>>,
    store: &mut Store,
) -> Result<Completion, AllocError>
    ensures { IfOk result
        (λ o. Goes (frames_view frames.new.items) (completion_at o store.new)
        ≡ begin of_ages (inside_view inside.entry) scope.now.value (block_view block.now)
        (frames_view frames.old.items) store.old) }
{
    let shared = Rc::clone(scope)?;
    begin(inside, shared, block, frames, store)
}

/// A function is begun, from which calls may go so deep.
fn begin_function<'a>(
    run: &Running<'a>,
    depth: usize,
    function: &'a Function,
    passed: VecDeque<Passed>,
    frames: &mut Vec<Frame<'a>>,
    store: &mut Store,
) -> Result<Completion, AllocError>
    ensures { IfOk result
        (λ o. Goes (frames_view frames.new.items) (completion_at o store.new)
        ≡ function_here run.now depth (Some (function_view function.now))
        (map passed_view passed.items) (frames_view frames.old.items) store.old) }
{
    push_leave(frames, store)?;
    let scope = frame(run.alloc, run.program, function, passed, store)?;
    let shared = Rc::new(run.alloc, scope)?;
    let inside = Inside {
        depth,
        body: &function.body,
    };
    begin(inside, shared, &function.body, frames, store)
}

/// The function of a name is begun, if calls may go so deep.
pub fn begin_call<'a>(
    run: &Running<'a>,
    depth: usize,
    name: &Name,
    passed: VecDeque<Passed>,
    frames: &mut Vec<Frame<'a>>,
    store: &mut Store,
) -> Result<Completion, AllocError>
    ensures { IfOk result
        (λ o. Goes (frames_view frames.new.items) (completion_at o store.new)
        ≡ passed_here run.now depth name.now (map passed_view passed.items)
        (frames_view frames.old.items) store.old) }
{
    if depth == 0 {
        return Ok(Completion::Went);
    }
    match function_named(run.program.functions.as_slice(), name) {
        None => Ok(Completion::Went),
        Some(function) => begin_function(run, depth - 1, function, passed, frames, store),
    }
}

/// A call by the statement `n`.
pub fn call<'a>(
    run: &Running<'a>,
    inside: Inside<'a>,
    scope: &Scope<'a>,
    n: StmtId,
    call: &'a Call,
    frames: &mut Vec<Frame<'a>>,
    store: &mut Store,
) -> Result<Completion, AllocError>
    ensures { IfOk result
        (λ o. Goes (frames_view frames.new.items) (completion_at o store.new)
        ≡ call_here run.now (inside_view inside.entry) scope.now n (call_view call.now)
        (frames_view frames.old.items) store.old) }
{
    match pass_arguments(run.alloc, scope, store, call.args.as_slice())? {
        Passing::Breaks { kind } => store.trap(kind, n),
        Passing::Passes { passed } => {
            begin_call(run, inside.depth, &call.function, passed, frames, store)
        }
    }
}
