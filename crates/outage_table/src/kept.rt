//! What a machine keeps behind a run.

use oc_ckpt::{Area, AreaState};
use oc_io::sink::Sink;
use oc_machine::machine::Machine;
use oc_tree::name::Name;
use std::alloc::Global;

/// Writes a nonvolatile variable of one word.
fn put_word<O: Sink>(alloc: Global, name: &Name, word: i32, out: &mut O) -> anyhow::Result<()> {
    out.put(b"nv ")?;
    out.put(name.bytes())?;
    let text = format!(in alloc; " {word}\n")?;
    out.put(text.as_bytes())?;
    Ok(())
}

/// The state of the area, as a word of the table.
fn state_name(state: AreaState) -> &'static str {
    match state {
        AreaState::Fresh => "Fresh",
        AreaState::Open => "Open",
        AreaState::Sealed => "Sealed",
        AreaState::Armed => "Armed",
    }
}

/// Writes the state of the area and its words, in one line.
fn put_area<O: Sink>(alloc: Global, area: &Area, out: &mut O) -> anyhow::Result<()> {
    let state = format!(in alloc; "area {}", state_name(area.state()))?;
    out.put(state.as_bytes())?;
    for at in 0..area.len() {
        let word = format!(in alloc; " {}", area.word(at))?;
        out.put(word.as_bytes())?;
    }
    out.put(b"\n")?;
    Ok(())
}

/// Writes what a machine kept, whose nonvolatile variables have one word each.
pub fn put_kept<O: Sink>(alloc: Global, machine: &Machine, out: &mut O) -> anyhow::Result<()> {
    let names = &machine.image().raw().names.nvs;
    for (name, word) in names.iter().zip(machine.nv_words()) {
        put_word(alloc, name, *word, out)?;
    }
    for entry in machine.undo_log().entries() {
        let text = format!(in alloc; "log {} {}\n", entry.addr, entry.old)?;
        out.put(text.as_bytes())?;
    }
    put_area(alloc, machine.area(), out)
}
