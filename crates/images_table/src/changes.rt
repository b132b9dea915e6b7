//! Files that are cut and changed.

use crate::answer::{Answer, answer_to, report_sink};
use oc_io::sink::Sink;
use std::alloc::{AllocError, Global};

/// What becomes of a file, whose report nobody reads.
fn answer(alloc: Global, bytes: &[u8]) -> anyhow::Result<Answer> {
    answer_to(alloc, bytes, &mut report_sink(alloc)?)
}

/// Writes what becomes of each front part of a file, in a line for each answer.
fn put_cuts<O: Sink>(alloc: Global, bytes: &[u8], out: &mut O) -> anyhow::Result<()> {
    let mut last = Answer::Same;
    for length in 0..bytes.len() {
        let found = answer(alloc, &bytes[..length])?;
        if last != found {
            let text = format!(in alloc; "cut to {length}: {found}\n")?;
            out.put(text.as_bytes())?;
        }
        last = found;
    }
    Ok(())
}

/// A file in which the byte at this place has this value.
fn with_byte(alloc: Global, bytes: &[u8], at: usize, value: u8) -> Result<Vec<u8>, AllocError> {
    let mut changed = Vec::from_slice(alloc, bytes)?;
    if let Some(byte) = changed.get_mut(at) {
        *byte = value;
    }
    Ok(changed)
}

/// What becomes of a file in which the byte at this place has this value.
fn answer_with(alloc: Global, bytes: &[u8], at: usize, value: u8) -> anyhow::Result<Answer> {
    if bytes.get(at) == Some(&value) {
        return Ok(Answer::Same);
    }
    answer(alloc, &with_byte(alloc, bytes, at, value)?)
}

/// Writes what becomes of a file in which the byte at this place has each of four values.
fn put_byte<O: Sink>(
    alloc: Global,
    bytes: &[u8],
    at: usize,
    old: u8,
    out: &mut O,
) -> anyhow::Result<()> {
    let low = answer_with(alloc, bytes, at, old ^ 1)?;
    let high = answer_with(alloc, bytes, at, old ^ 0x80)?;
    let none = answer_with(alloc, bytes, at, 0)?;
    let all = answer_with(alloc, bytes, at, 0xff)?;
    let text = format!(in alloc; "byte {at}, {low}, {high}, {none}, {all}\n")?;
    out.put(text.as_bytes())?;
    Ok(())
}

/// Writes what becomes of a file that is cut, and of one in which a byte is changed.
pub fn put_changes<O: Sink>(alloc: Global, bytes: &[u8], out: &mut O) -> anyhow::Result<()> {
    put_cuts(alloc, bytes, out)?;
    for (at, old) in bytes.iter().enumerate() {
        put_byte(alloc, bytes, at, *old, out)?;
    }
    Ok(())
}
