//! Loops with nothing in them, which are gone over at once.
ghost use Rattle.std.specs.Prelude.{◌≡◌, ◌-◌, ◌∷◌, length, take, List, IfSome, OnOk};
ghost use Rattle.oc_meaning.specs.Store.{Binding};
ghost use Rattle.oc_steps.specs.Steps as steps;
ghost use Rattle.oc_judge.specs.Frames.{for_frame, frames_view};
ghost use Rattle.oc_judge.specs.Going.{program_of, regions_of};
ghost use Rattle.oc_judge.specs.Passes.{HasTurns, Reaches};
ghost use Rattle.oc_judge.specs.Ways.{KeepsRest, way_view};

use crate::frames::{ForTurns, Frame, Task};
use crate::running::Running;
use crate::store::Completion;
use crate::way::Way;
use oc_tree::tree::BlockId;
use std::alloc::AllocError;

/// The body of a `for` and how many turns are left, where it is empty.
fn empty_turns(turns: &ForTurns) -> Option<(BlockId, u64)>
    ensures { IfSome result
        (λ t. (env : List Binding) (behind : List steps.Frame)
        → HasTurns (for_frame env turns.now ∷ behind) behind t.0 t.1) }
{
    if turns.next < turns.to {
        return match turns.body.statements.split_first() {
            None => Some((turns.body.id, u64::from(turns.to.abs_diff(turns.next)))),
            Some(_) => None,
        };
    }
    None
}

/// The turns of a `for` with an empty body, where they are what is left to do first.
fn first_turns(frames: &[Frame]) -> Option<(BlockId, u64)>
    ensures { IfSome result
        (λ t. HasTurns (frames_view frames.now)
        (frames_view (take (length frames.now - 1) frames.now)) t.0 t.1) }
{
    match frames.last() {
        Some(
            Frame::Scoped {
                task: Task::Turns { turns },
                ..
            },
        ) => empty_turns(turns),
        _ => None,
    }
}

/// What is left to do behind what comes first.
fn leave_first(frames: &mut Vec<Frame>)
    ensures { frames.new.items ≡ take (length frames.old.items - 1) frames.old.items }
{
    frames.truncate(frames.len().saturating_sub(1));
}

/// The run behind the turns of a `for` with an empty body, where they are what it does next.
#[tactic(auto, using(crate::proofs::Skips::stays))]
pub fn pass_turns<'a>(run: &Running<'a>, way: &mut Way<'a>) -> Result<(), AllocError>
    ensures reached { OnOk result
        (Reaches (program_of run.now) (regions_of run.now) (way_view way.old) (way_view way.new)) }
    ensures kept { OnOk result (KeepsRest (way_view way.old) (way_view way.new)) }
{
    match way.completion {
        Completion::Went => {
            match first_turns(&way.frames) {
                None => Ok(()),
                Some((block, times)) => {
                    if way.store.has_event() {
                        return Ok(());
                    }
                    leave_first(&mut way.frames);
                    way.store.enter_times(block, times)?;
                    Ok(())
                }
            }
        }
        _ => Ok(()),
    }
}
