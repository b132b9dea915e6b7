//! Files of images from anyone: what is read, what is refused, and how the others run.
//!
//! The standard input has a file in each line, its name and its bytes in hexadecimal, or a heading;
//! `checks/images.py` writes it. First come images that were written down for each rule, to break it
//! alone or barely not, and one file with changed bytes that no image holds. At last come files of
//! which each front part is taken, and each byte is changed.
#![tactic(auto)]

mod answer;
mod changes;

use answer::{answer_to, report_sink};
use changes::put_changes;
use oc_io::memory_sink::MemorySink;
use oc_io::sink::Sink;
use oc_io::stream::StreamSink;
use std::alloc::Global;
use std::io;

/// How the name of a file begins that is cut and changed.
const CHANGES: &str = "changes of ";

/// Writes what becomes of a file, its bytes, and its report where it is run.
fn put_answer<O: Sink>(
    alloc: Global,
    (name, digits): (&str, &str),
    bytes: &[u8],
    report: &mut MemorySink,
    out: &mut O,
) -> anyhow::Result<()> {
    let answer = answer_to(alloc, bytes, report)?;
    let text = format!(in alloc; "{name}: {answer}\nfile {digits}\n")?;
    out.put(text.as_bytes())?;
    out.put(report.bytes())?;
    Ok(())
}

/// Writes what becomes of a file and, where its name says so, of its front parts and changes.
fn put_file<O: Sink>(
    alloc: Global,
    line: (&str, &str),
    bytes: &[u8],
    out: &mut O,
) -> anyhow::Result<()> {
    put_answer(alloc, line, bytes, &mut report_sink(alloc)?, out)?;
    if line.0.starts_with(CHANGES) {
        put_changes(alloc, bytes, out)?;
    }
    Ok(())
}

/// Writes what becomes of the file of a line, or the line where it is a heading.
fn put_line<O: Sink>(alloc: Global, line: &str, out: &mut O) -> anyhow::Result<()> {
    if let Some((name, digits)) = line.split_once(": ") {
        let bytes = hex::decode(alloc, digits)?;
        return put_file(alloc, (name, digits), &bytes, out);
    }
    out.put(line.as_bytes())?;
    out.put(b"\n")?;
    Ok(())
}

/// Writes what becomes of the files of all lines.
fn put_lines<O: Sink>(alloc: Global, text: &str, out: &mut O) -> anyhow::Result<()> {
    for line in text.lines() {
        put_line(alloc, line, out)?;
    }
    out.flush()?;
    Ok(())
}

/// Writes what becomes of the files of the standard input on the standard output.
fn main(rt: HostRuntime) -> anyhow::Result<()> {
    let alloc = rt.alloc();
    let text = io::read_to_string(alloc, rt.reader())?;
    let mut out = StreamSink::new(io::writer(&rt));
    put_lines(alloc, &text, &mut out)
}
