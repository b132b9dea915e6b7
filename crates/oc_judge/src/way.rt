//! A run under way, and what it does next.
ghost use Rattle.std.specs.Prelude.{◌≡◌, true, IfOk};
ghost use Rattle.oc_steps.specs.Fold.{after_step, at_first};
ghost use Rattle.oc_steps.specs.Steps.{Goes};
ghost use Rattle.oc_judge.specs.Frames.{frames_view};
ghost use Rattle.oc_judge.specs.Going.{main_here, program_of, regions_of, step_at};
ghost use Rattle.oc_judge.specs.Stores.{completion_at};
ghost use Rattle.oc_judge.specs.Ways.{Comes, KeepsRest, ahead_view, next_view, way_view};
ghost use Rattle.oc_judge.specs.declared.way.Ahead.TheVariants.{On};

use crate::age::Age;
use crate::blocks::begin_call;
use crate::frames::{Frame, copies};
use crate::going::Going;
use crate::passes::pass_turns;
use crate::running::Running;
use crate::step::step;
use crate::store::{Completion, Event, Store};
use oc_tree::name::Name;
use std::alloc::{AllocError, Global};
use std::collections::VecDeque;

/// The last tag of a consistent set, which is told by its function and its number: the execution of
/// the set's block that it belongs to, and the age of the samples of all its tags in there.
#[derive(Clone, Copy)]
pub struct Instance {
    pub set: (usize, i32),
    pub number: u64,
    pub age: Age,
}

/// A run under way: what is left to do, what it came to, its store, the last instance of each
/// consistent set, whether a region is open, and whether its end was told.
#[derive(Drop)]
pub struct Way<'a> {
    pub frames: Vec<Frame<'a>>,
    pub completion: Completion,
    pub store: Store,
    pub sets: Vec<Instance>,
    pub inside: bool,
    pub over: bool,
}

/// What a run does next: it says something, it wants a sample, or it has come to its end.
#[derive(Clone, Copy)]
pub enum Next {
    /// It says this.
    Says { event: Event },
    /// It asks this sensor for a sample.
    Wants { sensor: u8 },
    /// It is at its end.
    Stands,
}

/// The same run.
pub fn copy<'a>(alloc: Global, way: &Way<'a>) -> Result<Way<'a>, AllocError>
    ensures { IfOk result (λ w. way_view w ≡ way_view way.now) }
{
    let sets = way.sets.clone()?;
    let store = way.store.copy(alloc)?;
    let frames = copies(alloc, &way.frames)?;
    Ok(Way {
        frames,
        completion: way.completion,
        store,
        sets,
        inside: way.inside,
        over: way.over,
    })
}

/// `main` is begun. Calls go at most as deep as there are functions.
fn begin_main<'a>(
    run: &Running<'a>,
    frames: &mut Vec<Frame<'a>>,
    store: &mut Store,
) -> Result<Completion, AllocError>
    ensures { IfOk result
        (λ o. Goes (frames_view frames.new.items) (completion_at o store.new)
        ≡ main_here run.now (frames_view frames.old.items) store.old) }
{
    let main = Name::new(Vec::from_slice(run.alloc, b"main")?);
    let functions = run.program.functions.as_slice();
    let passed = VecDeque::new(run.alloc);
    let begun = begin_call(run, functions.len() + 1, &main, passed, frames, store)?;
    Ok(begun)
}

/// The run before its first step.
#[tactic(auto, using(crate::proofs::Advancing::starts))]
pub fn first_way<'a>(run: &Running<'a>) -> Result<Way<'a>, AllocError>
    ensures { IfOk result (λ w. way_view w ≡ at_first (program_of run.now) (regions_of run.now)) }
{
    let mut store = Store::new(run.alloc, run.program.nv.as_slice())?;
    let mut frames = Vec::new(run.alloc);
    let completion = begin_main(run, &mut frames, &mut store)?;
    Ok(Way {
        frames,
        completion,
        store,
        sets: Vec::new(run.alloc),
        inside: false,
        over: false,
    })
}

/// What a run has come to: it only went on, or it does this next.
#[derive(Clone, Copy)]
pub enum Ahead {
    /// It went on.
    On,
    /// It says something, which its store has.
    Says,
    /// It asks this sensor for a sample.
    Wants { sensor: u8 },
    /// It is at its end.
    Stands,
}

/// What a run has come to that came to this by a step.
#[tactic(auto, using(crate::proofs::Advancing::says_ahead, crate::proofs::Advancing::goes_ahead))]
fn find_ahead(going: Going, way: &mut Way) -> Ahead
    ensures next { ahead_view result way.new
        ≡ after_step (way_view way.old)
        (step_at going (frames_view way.old.frames.items) way.old.store) }
    ensures kept { KeepsRest (way_view way.old) (way_view way.new) }
{
    match going {
        Going::Asks { sensor } => Ahead::Wants { sensor },
        Going::Goes { completion } => {
            way.completion = completion;
            if way.store.has_event() {
                return Ahead::Says;
            }
            Ahead::On
        }
    }
}

/// One step of a run, with those behind it that say nothing, and what the run has come to.
fn advance<'a>(run: &Running<'a>, way: &mut Way<'a>) -> Result<Ahead, AllocError>
    ensures next { IfOk result
        (λ a. Comes (program_of run.now) (regions_of run.now) (way_view way.old)
        (ahead_view a way.new)) }
    ensures kept { IfOk result (λ a. KeepsRest (way_view way.old) (way_view way.new)) }
{
    let stepped = step(run, way.completion, &mut way.frames, &mut way.store)?;
    match stepped {
        None => Ok(Ahead::Stands),
        Some(going) => {
            let ahead = find_ahead(going, way);
            Ok(ahead)
        }
    }
}

/// Whether a run only went on.
fn is_on(ahead: Ahead) -> bool
    ensures { result ≡ true → ahead ≡ On }
{
    match ahead {
        Ahead::On => true,
        _ => false,
    }
}

/// What a run does next that has come to this. Err is that it only went on.
#[tactic(auto, using(crate::proofs::Advancing::told_ahead))]
fn take_next(ahead: Ahead, way: &mut Way) -> Result<Next, AllocError>
    ensures next { IfOk result (λ n. next_view n way.new ≡ ahead_view ahead way.old) }
    ensures kept { IfOk result (λ n. KeepsRest (way_view way.old) (way_view way.new)) }
{
    match ahead {
        Ahead::Wants { sensor } => Ok(Next::Wants { sensor }),
        Ahead::Stands => Ok(Next::Stands),
        Ahead::Says => match way.store.take_event() {
            Some(event) => Ok(Next::Says { event }),
            None => Err(AllocError),
        },
        Ahead::On => Err(AllocError),
    }
}

/// What a run does next, behind all steps that say nothing.
#[tactic(auto, using(crate::proofs::Skips::stays))]
pub fn go<'a>(run: &Running<'a>, way: &mut Way<'a>) -> Result<Next, AllocError>
    ensures next { IfOk result
        (λ n. Comes (program_of run.now) (regions_of run.now) (way_view way.old)
        (next_view n way.new)) }
    ensures kept { IfOk result (λ n. KeepsRest (way_view way.old) (way_view way.new)) }
{
    for _step in 0..u64::MAX {
        pass_turns(run, way)?;
        let ahead = advance(run, way)?;
        if !is_on(ahead) {
            let next = take_next(ahead, way)?;
            return Ok(next);
        }
    }
    Err(AllocError)
}
