//! What some programs say over lists of samples, with the samples on which each event depends; and at
//! last the first parts of a run with the marks of its regions, and all of it.
#![tactic(auto)]

mod marked;
mod sources;

use marked::put_marked;
use oc_interpreter::run::run_source;
use oc_interpreter::trace::{Outcome, SourceTrace};
use oc_io::sink::Sink;
use oc_io::stream::StreamSink;
use oc_tree::checked::Checked;
use oc_tree::name::{Name, Names};
use oc_tree::said::{SourceEvent, TrapKind, Visible};
use oc_worked::check_source;
use sources::{Worked, cases};
use std::alloc::Global;
use std::io;

/// The greatest length of a source, in bytes.
const LIMIT: usize = 1048576;

/// Writes a word, the name of a sensor or a port, and a value.
fn put_named<O: Sink>(
    alloc: Global,
    word: &[u8],
    names: &[Name],
    number: u8,
    value: i32,
    out: &mut O,
) -> anyhow::Result<()> {
    out.put(word)?;
    if let Some(name) = names.get(usize::from(number)) {
        out.put(name.bytes())?;
    }
    let text = format!(in alloc; " {value}")?;
    out.put(text.as_bytes())?;
    Ok(())
}

/// Writes a word and a statement.
fn put_stmt<O: Sink>(alloc: Global, word: &str, stmt: u32, out: &mut O) -> anyhow::Result<()> {
    let text = format!(in alloc; "{word} {stmt}")?;
    out.put(text.as_bytes())?;
    Ok(())
}

/// Writes what is said by an event, with names in the place of numbers.
fn put_visible<O: Sink>(
    alloc: Global,
    names: &Names,
    visible: Visible,
    out: &mut O,
) -> anyhow::Result<()> {
    match visible {
        Visible::Sense { sensor, value } => {
            put_named(alloc, b"sense ", &names.sensors, sensor, value, out)
        }
        Visible::Emit { port, value } => {
            put_named(alloc, b"emit ", &names.ports, port, value, out)
        }
        Visible::Use { stmt } => put_stmt(alloc, "use", stmt, out),
        Visible::Done { stmt } => put_stmt(alloc, "done", stmt, out),
        Visible::Tag { stmt } => put_stmt(alloc, "tag", stmt, out),
        Visible::End => {
            out.put(b"end")?;
            Ok(())
        }
        Visible::Trap {
            kind: TrapKind::Zero,
            stmt,
        } => put_stmt(alloc, "trap zero", stmt, out),
        Visible::Trap {
            kind: TrapKind::Index,
            stmt,
        } => put_stmt(alloc, "trap index", stmt, out),
    }
}

/// Writes a set of samples.
fn put_samples<O: Sink>(alloc: Global, samples: &[u32], out: &mut O) -> anyhow::Result<()> {
    out.put(b" {")?;
    let mut gap = "";
    for sample in samples {
        let text = format!(in alloc; "{gap}{sample}")?;
        out.put(text.as_bytes())?;
        gap = " ";
    }
    out.put(b"}")?;
    Ok(())
}

/// Writes an event, its samples, and of a tag which execution of its block it is of.
fn put_event<O: Sink>(
    alloc: Global,
    names: &Names,
    event: &SourceEvent,
    out: &mut O,
) -> anyhow::Result<()> {
    put_visible(alloc, names, event.visible, out)?;
    put_samples(alloc, &event.samples.numbers, out)?;
    let instance = event.instance;
    if instance != 0 {
        let text = format!(in alloc; " instance {instance}")?;
        out.put(text.as_bytes())?;
    }
    out.put(b"\n")?;
    Ok(())
}

/// How a run over the samples ended, as a word of the table.
fn outcome_name(outcome: Outcome) -> &'static [u8] {
    match outcome {
        Outcome::Ended => b"Ended",
        Outcome::Trapped => b"Trapped",
        Outcome::Short => b"Short",
    }
}

/// Writes the events, the outcome and the nonvolatile words.
fn put_trace<O: Sink>(
    alloc: Global,
    names: &Names,
    trace: &SourceTrace,
    out: &mut O,
) -> anyhow::Result<()> {
    for event in &trace.events {
        put_event(alloc, names, event, out)?;
    }
    out.put(outcome_name(trace.outcome))?;
    for word in &trace.nv {
        let text = format!(in alloc; " {word}")?;
        out.put(text.as_bytes())?;
    }
    out.put(b"\n\n")?;
    Ok(())
}

/// Writes a source and the samples that it is given.
fn put_given<O: Sink>(alloc: Global, worked: &Worked, out: &mut O) -> anyhow::Result<()> {
    out.put(worked.source.as_bytes())?;
    out.put(b"\nsamples")?;
    for sample in worked.samples {
        let text = format!(in alloc; " {sample}")?;
        out.put(text.as_bytes())?;
    }
    out.put(b"\n")?;
    Ok(())
}

/// Writes what a program says over samples.
fn put_run<O: Sink>(
    alloc: Global,
    checked: &Checked,
    samples: &[i32],
    out: &mut O,
) -> anyhow::Result<()> {
    let trace = run_source(alloc, checked, samples)?;
    put_trace(alloc, &checked.program().names, &trace, out)
}

/// Writes a source, its samples, and what it says over them.
fn put_worked<O: Sink>(alloc: Global, worked: &Worked, out: &mut O) -> anyhow::Result<()> {
    let source = worked.source.as_bytes();
    if source.len() <= LIMIT {
        put_given(alloc, worked, out)?;
        let checked = check_source(alloc, source)?;
        put_run(alloc, &checked, worked.samples, out)?;
    }
    Ok(())
}

/// Writes the runs of all cases on the standard output.
fn main(rt: HostRuntime) -> anyhow::Result<()> {
    let alloc = rt.alloc();
    let mut out = StreamSink::new(io::writer(&rt));
    for worked in &cases() {
        put_worked(alloc, worked, &mut out)?;
    }
    put_marked(alloc, &mut out)?;
    out.flush()?;
    Ok(())
}
