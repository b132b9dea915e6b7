//! What the audit answers to an item.
ghost use Rattle.std.specs.Prelude.{◌≡◌, ◌<◌, ◌&&◌, ℤ, true, List, Option, option_map, vec_len, vec_capacity, IfOk, OnOk};
ghost use Rattle.oc_tree.specs.declared.said.Said.TheVariants.{Committed, Ended, Entered, Sensed, Showed};
ghost use Rattle.oc_tree.specs.Tree.{TProgram};
ghost use Rattle.oc_items.specs.Told.{told_of};
ghost use Rattle.oc_meaning.specs.Run.{words_of};
ghost use Rattle.oc_steps.specs.Ages.{join_ages, of_ages};
ghost use Rattle.oc_steps.specs.Auditing.{IsHeard, first_watch};
ghost use Rattle.oc_steps.specs.Fold.{aborted, has_words, is_said, may_show, off, with_shown};
ghost use Rattle.oc_steps.specs.Heard.{cleared};
ghost use Rattle.oc_steps.specs.Steps.{sensed};
ghost use Rattle.oc_judge.specs.Going.{program_of, regions_of};
ghost use Rattle.oc_judge.specs.Seeking.{IsSetOf};
ghost use Rattle.oc_judge.specs.Stores.{event_view};
ghost use Rattle.oc_judge.specs.Watches.{IsTold, answered, halts, watch_view};
ghost use Rattle.oc_judge.specs.Ways.{way_view};

use crate::age::{Age, Value};
use crate::answers::{are_words, is_new, says_committed, says_ended, says_entered, says_shown};
use crate::running::Running;
use crate::sets::{may_tag, tell_tag};
use crate::store::{Completion, Event};
use crate::way::{Next, Way, copy, first_way, go};
use oc_items::item::Item;
use oc_tree::said::{Ending, Said, Shown};
use std::alloc::{AllocError, Global};

/// The run before an `enter`, and the region.
#[derive(Drop)]
pub struct Saved<'a> {
    pub region: u32,
    pub way: Way<'a>,
}

/// The run under way and, where no `commit` or `abort` came since, the one before the last `enter`.
#[derive(Drop)]
pub struct Watch<'a> {
    pub now: Way<'a>,
    pub saved: Option<Saved<'a>>,
}

/// Before the first item.
pub fn first_watch<'a>(run: &Running<'a>) -> Result<Watch<'a>, AllocError>
    ensures { IfOk result
        (λ w. watch_view w ≡ first_watch (program_of run.now) (regions_of run.now)) }
{
    let now = first_way(run)?;
    Ok(Watch { now, saved: None })
}

/// The sample that the run wanted.
fn give_sample<'a>(run: &Running<'a>, way: &mut Way<'a>, sensor: u8, value: i32)
    ensures { way_view way.new
        ≡ record (way_view way.old) {
          out = cleared (sensed (program_of run.now) (regions_of run.now) join_ages of_ages
              sensor value way.old.store);
        } }
{
    let age = Age::Once {
        outages: way.store.outages(),
    };
    way.completion = Completion::Returned {
        value: Value { number: value, age },
    };
    // From here on nothing is left that was said.
    let _said = way.store.take_event();
}

/// An input.
fn hear_input<'a>(
    run: &Running<'a>,
    watch: &mut Watch<'a>,
    sensor: u8,
    value: i32,
) -> Result<bool, AllocError>
    ensures { IfOk result
        (λ good. (nv : Option (List ℤ))
        → IsTold (program_of run.now) (regions_of run.now) nv (watch_view watch.old)
        (Sensed sensor value) (answered good watch.new)) }
{
    match go(run, &mut watch.now)? {
        Next::Says { .. } => Ok(false),
        Next::Wants { sensor: wanted } => {
            if sensor != wanted {
                return Ok(false);
            }
            give_sample(run, &mut watch.now, sensor, value);
            Ok(true)
        }
        Next::Stands => Ok(false),
    }
}

/// Whether an event of the source other than an input may be told now.
#[tactic(auto, using(crate::proofs::Hearing::store_at))]
fn may_show(way: &Way, what: Shown, set: Option<(usize, i32)>, event: Event) -> bool
    ensures { (p : TProgram) (nv : Option (List ℤ)) → IsSetOf p (Showed what) set
        → result ≡ may_show p nv (way_view way.now) what (event_view event) }
{
    match what {
        Shown::Emitted { .. } => true,
        Shown::Used { .. } => is_new(way.store.outages(), event.age),
        Shown::Finished { .. } => is_new(way.store.outages(), event.age),
        Shown::Tagged { .. } => may_tag(set, event, &way.sets),
    }
}

/// An event of the source other than an input is told, where there is room for one more set.
fn show(way: &mut Way, what: Shown, set: Option<(usize, i32)>, event: Event)
    requires { vec_len way.old.sets < vec_capacity way.old.sets }
    ensures { (p : TProgram) (nv : Option (List ℤ)) → IsSetOf p (Showed what) set
        → way_view way.new ≡ with_shown p nv (way_view way.old) what (event_view event) }
{
    match what {
        Shown::Emitted { .. } => {}
        Shown::Used { .. } => {}
        Shown::Finished { .. } => {}
        Shown::Tagged { .. } => tell_tag(set, event, &mut way.sets),
    }
}

/// Makes room for one more set.
fn make_room(way: &mut Way) -> Result<(), AllocError>
    ensures same { OnOk result (way_view way.new ≡ way_view way.old) }
    ensures room { OnOk result (vec_len way.new.sets < vec_capacity way.new.sets) }
{
    way.sets.reserve(1)?;
    Ok(())
}

/// Whether an event is an output, a use or its end, or a tag that may be told; it is told then. It
/// wants no memory, since there is room for one more set.
fn tell_shown(way: &mut Way, what: Shown, set: Option<(usize, i32)>, event: Event) -> bool
    requires { vec_len way.old.sets < vec_capacity way.old.sets }
    ensures right { (p : TProgram) (nv : Option (List ℤ)) → IsSetOf p (Showed what) set → result
        ≡ is_said event.said (Showed what)
        && may_show p nv (way_view way.old) what (event_view event) }
    ensures told { result ≡ true
        → (p : TProgram) (nv : Option (List ℤ)) → IsSetOf p (Showed what) set
        → way_view way.new ≡ with_shown p nv (way_view way.old) what (event_view event) }
{
    if !says_shown(event.said, what) {
        return false;
    }
    if !may_show(way, what, set, event) {
        return false;
    }
    show(way, what, set, event);
    true
}

/// An output, a use or its end, or a tag.
fn hear_shown<'a>(
    run: &Running<'a>,
    watch: &mut Watch<'a>,
    what: Shown,
    set: Option<(usize, i32)>,
) -> Result<bool, AllocError>
    requires { IsSetOf (program_of run.now) (Showed what) set }
    ensures { IfOk result
        (λ good. (nv : Option (List ℤ))
        → IsTold (program_of run.now) (regions_of run.now) nv (watch_view watch.old)
        (Showed what) (answered good watch.new)) }
{
    match go(run, &mut watch.now)? {
        Next::Says { event } => {
            make_room(&mut watch.now)?;
            Ok(tell_shown(&mut watch.now, what, set, event))
        }
        Next::Wants { .. } => Ok(false),
        Next::Stands => Ok(false),
    }
}

/// A region is entered: the run before it is kept.
fn hear_enter<'a>(run: &Running<'a>, watch: &mut Watch<'a>, region: u32) -> Result<bool, AllocError>
    ensures { IfOk result
        (λ good. (nv : Option (List ℤ))
        → IsTold (program_of run.now) (regions_of run.now) nv (watch_view watch.old)
        (Entered region) (answered good watch.new)) }
{
    let way = copy(run.alloc, &watch.now)?;
    watch.saved = Some(Saved { region, way });
    match go(run, &mut watch.now)? {
        Next::Says { event } => {
            if !says_entered(event.said, region) {
                return Ok(false);
            }
            watch.now.inside = true;
            Ok(true)
        }
        Next::Wants { .. } => Ok(false),
        Next::Stands => Ok(false),
    }
}

/// A region is committed.
fn hear_commit<'a>(
    run: &Running<'a>,
    watch: &mut Watch<'a>,
    region: u32,
) -> Result<bool, AllocError>
    ensures { IfOk result
        (λ good. (nv : Option (List ℤ))
        → IsTold (program_of run.now) (regions_of run.now) nv (watch_view watch.old)
        (Committed region) (answered good watch.new)) }
{
    match go(run, &mut watch.now)? {
        Next::Says { event } => {
            if !says_committed(event.said, region) {
                return Ok(false);
            }
            watch.now.inside = false;
            watch.saved = None;
            Ok(true)
        }
        Next::Wants { .. } => Ok(false),
        Next::Stands => Ok(false),
    }
}

/// Whether these are the nonvolatile words now.
fn has_words(alloc: Global, nv: Option<&[i32]>, way: &Way) -> Result<bool, AllocError>
    ensures { IfOk result
        (λ b. (p : TProgram) (told : Option (List ℤ))
        → b ≡ has_words p told (option_map (λ w. w.now) nv.entry) (words_of way.now.store.nv)) }
{
    match nv {
        None => Ok(false),
        Some(words) => {
            let own = way.store.words(alloc)?;
            Ok(are_words(words, &own))
        }
    }
}

/// Whether the run has come to its end, of which nothing was told yet.
fn halts(way: &Way) -> bool
    ensures { result ≡ halts way.now }
{
    match way.completion {
        Completion::Went => !way.over,
        Completion::Returned { .. } => !way.over,
        Completion::Trapped => false,
    }
}

/// The end of the run.
fn hear_end<'a>(
    run: &Running<'a>,
    nv: Option<&[i32]>,
    watch: &mut Watch<'a>,
    how: Ending,
) -> Result<bool, AllocError>
    ensures { IfOk result
        (λ good. IsTold (program_of run.now) (regions_of run.now) (option_map (λ w. w.now) nv.entry)
        (watch_view watch.old) (Ended how) (answered good watch.new)) }
{
    match go(run, &mut watch.now)? {
        Next::Says { event } => {
            if says_ended(event.said, how) && has_words(run.alloc, nv, &watch.now)? {
                watch.now.over = true;
                return Ok(true);
            }
            Ok(false)
        }
        Next::Wants { .. } => Ok(false),
        Next::Stands => match how {
            Ending::Halted => {
                if halts(&watch.now) && has_words(run.alloc, nv, &watch.now)? {
                    watch.now.over = true;
                    return Ok(true);
                }
                Ok(false)
            }
            Ending::Trapped { .. } => Ok(false),
        },
    }
}

/// An outage.
fn hear_off(watch: &mut Watch) -> Result<bool, AllocError>
    ensures { IfOk result
        (λ good. (p : TProgram) (nv : Option (List ℤ))
        → answered good watch.new ≡ off p nv (watch_view watch.old)) }
{
    if watch.now.inside {
        return Ok(false);
    }
    watch.now.store.lose_power()?;
    Ok(true)
}

/// A region is aborted: the run is again what it was before its `enter`.
fn hear_abort<'a>(watch: &mut Watch<'a>, region: u32) -> bool
    ensures { (p : TProgram) (nv : Option (List ℤ))
        → answered result watch.new ≡ aborted p nv region (watch_view watch.old).saved }
{
    match watch.saved.take() {
        None => false,
        Some(saved) => {
            if saved.region != region {
                return false;
            }
            watch.now = saved.way;
            true
        }
    }
}

/// What an item says.
pub fn said_by(item: Item) -> Said
    ensures { result ≡ (told_of item).said }
{
    match item {
        Item::Sense { sensor, value, .. } => Said::Sensed { sensor, value },
        Item::Emit { port, value, .. } => Said::Showed {
            what: Shown::Emitted { port, value },
        },
        Item::Use { stmt, .. } => Said::Showed {
            what: Shown::Used { stmt },
        },
        Item::Done { stmt, .. } => Said::Showed {
            what: Shown::Finished { stmt },
        },
        Item::Tag { stmt, .. } => Said::Showed {
            what: Shown::Tagged { stmt },
        },
        Item::Enter { region, .. } => Said::Entered { region },
        Item::Commit { region, .. } => Said::Committed { region },
        Item::Abort { region, .. } => Said::Aborted { region },
        Item::Off { ticks, .. } => Said::Off { ticks },
        Item::Dark { .. } => Said::Dark,
        Item::Trap { kind, stmt, .. } => Said::Ended {
            how: Ending::Trapped { kind, stmt },
        },
        Item::End { .. } => Said::Ended {
            how: Ending::Halted,
        },
    }
}

/// How the audit goes on after this was said, or that the report breaks there. The set is that of
/// the statement whose tag this is.
pub fn hear<'a>(
    run: &Running<'a>,
    nv: Option<&[i32]>,
    watch: &mut Watch<'a>,
    said: Said,
    set: Option<(usize, i32)>,
) -> Result<bool, AllocError>
    requires { IsSetOf (program_of run.now) said set }
    ensures { IfOk result
        (λ good. IsHeard (program_of run.now) (regions_of run.now)
        (option_map (λ w. w.now) nv.entry)
        (watch_view watch.old) said (answered good watch.new)) }
{
    match said {
        Said::Sensed { sensor, value } => hear_input(run, watch, sensor, value),
        Said::Showed { what } => hear_shown(run, watch, what, set),
        Said::Entered { region } => hear_enter(run, watch, region),
        Said::Committed { region } => hear_commit(run, watch, region),
        Said::Aborted { region } => Ok(hear_abort(watch, region)),
        Said::Off { .. } => hear_off(watch),
        Said::Dark => Ok(true),
        Said::Ended { how } => hear_end(run, nv, watch, how),
    }
}
