//! What a run told, once it is over.
ghost use Rattle.std.specs.Prelude.{◌≡◌, ◌<◌, [], length, map, take, true, false, IfOk, OnOk};
ghost use Rattle.oc_meaning.specs.Run.{AtShort, in_order, trace_at, words_of};
ghost use Rattle.oc_meaning.specs.Unmarked.{without_marks};
ghost use Rattle.oc_interpreter.specs.Stores.{event_view};
ghost use Rattle.oc_interpreter.specs.Telling.{Adds, IsPart, TellsParts};
ghost use Rattle.oc_meaning.specs.Parts.{AreParts};
ghost use Rattle.oc_interpreter.specs.Traces.{Rises, ending_of, parts, said_of, trace_view};

use crate::held::Held;
use crate::store::{Event, Store};
use oc_tree::said::{Ending, Said, Shown, SourceEvent, Visible};
use std::alloc::{AllocError, Global};

/// How a run came to its end: by itself, by a trap, or for want of samples.
#[derive(Clone, Copy)]
pub enum Outcome {
    /// It came to the end of `main`.
    Ended,
    /// It trapped.
    Trapped,
    /// It asked for one more sample than there was.
    Short,
}

/// The events of the source in order, how the run ended, and the nonvolatile words at that moment.
#[derive(Drop)]
pub struct SourceTrace {
    pub events: Vec<SourceEvent>,
    pub outcome: Outcome,
    pub nv: Vec<i32>,
}

/// The begin or the end of a region, with so many events of the source before it.
#[derive(Clone, Copy)]
pub struct Mark {
    pub region: u32,
    pub enter: bool,
    pub before: u64,
}

/// A run with the marks of its regions, as far as it is told: `whole` says that it has no more parts.
/// Where it has, the run is cut: its outcome is `Short`, and it has no nonvolatile words.
#[derive(Drop)]
pub struct MarkedTrace {
    pub trace: SourceTrace,
    pub marks: Vec<Mark>,
    pub whole: bool,
}

/// What something that was noted is in a trace.
#[derive(Drop)]
enum Told {
    Source { event: SourceEvent },
    Marked { mark: Mark },
    Nothing,
}

/// The event of what a program shows.
fn convert_shown(what: Shown) -> Visible
    ensures { said_of result ≡ Said.Showed what }
{
    match what {
        Shown::Emitted { port, value } => Visible::Emit { port, value },
        Shown::Used { stmt } => Visible::Use { stmt },
        Shown::Finished { stmt } => Visible::Done { stmt },
        Shown::Tagged { stmt } => Visible::Tag { stmt },
    }
}

/// The event of how a run ends.
fn convert_ending(how: Ending) -> Visible
    ensures { said_of result ≡ Said.Ended how }
{
    match how {
        Ending::Halted => Visible::End,
        Ending::Trapped { kind, stmt } => Visible::Trap { kind, stmt },
    }
}

/// What an event is in a trace, with so many events of the source before it.
fn part_of(event: Event, before: u64) -> Told
    ensures { IsPart (event_view event) before result }
{
    let visible = match event.said {
        Said::Sensed { sensor, value } => Visible::Sense { sensor, value },
        Said::Showed { what } => convert_shown(what),
        Said::Ended { how } => convert_ending(how),
        Said::Entered { region } => return Told::Marked {
            mark: Mark {
                region,
                enter: true,
                before,
            },
        },
        Said::Committed { region } => return Told::Marked {
            mark: Mark {
                region,
                enter: false,
                before,
            },
        },
        Said::Aborted { .. } | Said::Off { .. } | Said::Dark => return Told::Nothing,
    };
    Told::Source {
        event: SourceEvent {
            visible,
            samples: event.samples.into_set(),
            instance: event.instance,
        },
    }
}

/// Adds an event.
fn add(events: &mut Vec<SourceEvent>, marks: &mut Vec<Mark>, event: Event) -> Result<(), AllocError>
    ensures { OnOk result
        (Adds events.old.items marks.old.items (event_view event) events.new.items
        marks.new.items) }
{
    match part_of(event, events.len() as u64) {
        Told::Source { event } => events.push(event)?,
        Told::Marked { mark } => marks.push(mark)?,
        Told::Nothing => (),
    }
    Ok(())
}

/// The events of the source and the marks among what was noted.
fn split(alloc: Global, noted: Vec<Event>) -> Result<(Vec<SourceEvent>, Vec<Mark>), AllocError>
    requires { AreParts (map event_view noted.items) }
    ensures { IfOk result (λ t. TellsParts t.0.items t.1.items (map event_view noted.items)) }
{
    let mut events = Vec::new(alloc);
    let mut marks = Vec::new(alloc);
    for event in noted {
        add(&mut events, &mut marks, event)?;
    }
    Ok((events, marks))
}

/// The words of all these variables.
fn words_of(alloc: Global, variables: &[Held]) -> Result<Vec<i32>, AllocError>
    ensures { IfOk result (λ w. w.items ≡ words_of variables.now) }
{
    let mut words = Vec::new(alloc);
    for variable in variables {
        words.extend_from_slice(variable.words())?;
    }
    Ok(words)
}

/// The trace and the marks of what was noted, with the words of these variables.
fn make_trace(
    alloc: Global,
    noted: Vec<Event>,
    nv: Vec<Held>,
    outcome: Outcome,
) -> Result<(SourceTrace, Vec<Mark>), AllocError>
    requires { AreParts (map event_view noted.items) }
    ensures events { IfOk result
        (λ t. TellsParts t.0.events.items t.1.items (map event_view noted.items)) }
    ensures outcome { IfOk result (λ t. t.0.outcome ≡ outcome) }
    ensures nv { IfOk result (λ t. t.0.nv.items ≡ words_of nv.items) }
{
    let (events, marks) = split(alloc, noted)?;
    let nv = words_of(alloc, &nv)?;
    let trace = SourceTrace {
        events,
        outcome,
        nv,
    };
    Ok((trace, marks))
}

/// The first `limit` parts of a run with the marks of its regions that told more than these.
pub fn cut_trace(alloc: Global, store: Store, limit: u64) -> Result<MarkedTrace, AllocError>
    requires parts { AreParts (in_order store.events) }
    requires more { limit < length store.events }
    ensures parts { IfOk result (λ t. parts t ≡ take limit (in_order store.entry.events)) }
    ensures cut { IfOk result (λ t. t.whole ≡ false) }
    ensures short { IfOk result (λ t. ending_of t.trace.outcome ≡ AtShort) }
    ensures words { IfOk result (λ t. t.trace.nv.items ≡ []) }
    ensures rises { IfOk result (λ t. Rises 0 t.marks.items (length t.trace.events.items)) }
{
    let (mut noted, _nv) = store.into_parts();
    noted.truncate(limit as usize);
    let (trace, marks) = make_trace(alloc, noted, Vec::new(alloc), Outcome::Short)?;
    Ok(MarkedTrace {
        trace,
        marks,
        whole: false,
    })
}

/// All that a run told with the marks of its regions.
pub fn whole_trace(alloc: Global, store: Store, outcome: Outcome) -> Result<MarkedTrace, AllocError>
    requires { AreParts (in_order store.events) }
    ensures parts { IfOk result (λ t. parts t ≡ in_order store.entry.events) }
    ensures whole { IfOk result (λ t. t.whole ≡ true) }
    ensures source { IfOk result
        (λ t. trace_view t.trace ≡ without_marks (trace_at (ending_of outcome) store.entry)) }
    ensures rises { IfOk result (λ t. Rises 0 t.marks.items (length t.trace.events.items)) }
{
    let (noted, nv) = store.into_parts();
    let (trace, marks) = make_trace(alloc, noted, nv, outcome)?;
    Ok(MarkedTrace {
        trace,
        marks,
        whole: true,
    })
}

/// What a run told, without marks.
pub fn source_trace(
    alloc: Global,
    store: Store,
    outcome: Outcome,
) -> Result<SourceTrace, AllocError>
    requires { AreParts (in_order store.events) }
    ensures { IfOk result
        (λ t. trace_view t ≡ without_marks (trace_at (ending_of outcome) store.entry)) }
{
    let (noted, nv) = store.into_parts();
    let (trace, _marks) = make_trace(alloc, noted, nv, outcome)?;
    Ok(trace)
}
