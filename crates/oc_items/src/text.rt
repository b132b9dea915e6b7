//! The lines of a report.
ghost use Rattle.std.specs.Prelude.{◌≡◌, ◌<◌, ◌≤◌, ◌++◌, length, codes, decimal};
ghost use Rattle.std.specs.Fmt.{signed_decimal};
ghost use Rattle.oc_io.specs.Faults.{Puts};
ghost use Rattle.oc_tree.specs.Names.{names_view};
ghost use Rattle.oc_items.specs.Text.{IsNamed, item_line, nv_line, trap_word, word_field, words_line};

use crate::item::Item;
use crate::line::{LINE, write_value, write_word};
use itoa::{Buffer, write_digits};
use oc_io::pieces::put_pieces;
use oc_io::sink::{Sink, SinkFault};
use oc_tree::name::Names;
use oc_tree::said::TrapKind;

/// The words for why a run was trapped, with the spaces around them.
fn trap_words(kind: TrapKind) -> &'static [u8]
    ensures { result.now ≡ codes " trap " ++ (trap_word kind ++ codes " ") }
{
    match kind {
        TrapKind::Zero => b" trap zero ",
        TrapKind::Index => b" trap index ",
    }
}

/// How long a name is at most in a line that is put together before it is put.
const NAME: usize = 24;

/// Writes a line of a tick, a word and a number.
#[inline(always)]
fn put_number<O: Sink>(tick: u64, word: &[u8], number: u64, sink: &mut O) -> Result<(), SinkFault>
    requires { length word.now ≤ 12 }
    ensures { Puts O.took O.faults sink.old
        (decimal tick ++ (word.now ++ (decimal number ++ codes "\n"))) sink.new result }
{
    let mut line = [b'\n'; LINE];
    let last = write_digits(number, &mut line, LINE - 1);
    let middle = write_word(word, &mut line, last);
    let from = write_digits(tick, &mut line, middle);
    sink.put(&line[from..])
}

/// Writes a line of a tick, a word, a name and a value.
#[inline(always)]
fn put_value<O: Sink>(
    tick: u64,
    word: &[u8],
    name: &[u8],
    value: i32,
    sink: &mut O,
) -> Result<(), SinkFault>
    requires { length word.now ≤ 7 }
    ensures { Puts O.took O.faults sink.old
        (decimal tick ++ (word.now ++ (name.now ++ (codes " " ++ (signed_decimal value
        ++ codes "\n"))))) sink.new result }
{
    if NAME < name.len() {
        return put_long_value(tick, word, name, value, sink);
    }
    let mut line = [b'\n'; LINE];
    let last = write_value(value, &mut line, LINE - 1);
    let gap = write_word(b" ", &mut line, last);
    let named = write_word(name, &mut line, gap);
    let middle = write_word(word, &mut line, named);
    let from = write_digits(tick, &mut line, middle);
    sink.put(&line[from..])
}

/// The same for a name of any length, in pieces.
#[cold]
fn put_long_value<O: Sink>(
    tick: u64,
    word: &[u8],
    name: &[u8],
    value: i32,
    sink: &mut O,
) -> Result<(), SinkFault>
    ensures { Puts O.took O.faults sink.old
        (decimal tick ++ (word.now ++ (name.now ++ (codes " " ++ (signed_decimal value
        ++ codes "\n"))))) sink.new result }
{
    let mut first = Buffer::new();
    let mut last = Buffer::new();
    let tick = first.format(tick).as_bytes();
    put_pieces(
        sink,
        &[tick, word, name, b" ", last.format(value).as_bytes(), b"\n"],
    )
}

/// Writes a line of a tick and a word.
fn put_end<O: Sink>(tick: u64, word: &[u8], sink: &mut O) -> Result<(), SinkFault>
    ensures { Puts O.took O.faults sink.old (decimal tick ++ word.now) sink.new result }
{
    let mut first = Buffer::new();
    put_pieces(sink, &[first.format(tick).as_bytes(), word])
}

/// Writes the line of an item, whose sensor or port is one of the names. At a fault of the sink a
/// part of the line was taken.
pub fn put_item<O: Sink>(item: &Item, names: &Names, sink: &mut O) -> Result<(), SinkFault>
    requires { IsNamed (names_view names.now) item.now }
    ensures { Puts O.took O.faults sink.old
        (item_line (names_view names.now) item.now) sink.new result }
{
    match *item {
        Item::Sense {
            tick,
            sensor,
            value,
        } => {
            put_value(
                tick,
                b" sense ",
                names.sensors[sensor as usize].bytes(),
                value,
                sink,
            )
        }
        Item::Emit { tick, port, value } => {
            put_value(
                tick,
                b" emit ",
                names.ports[port as usize].bytes(),
                value,
                sink,
            )
        }
        Item::Use { tick, stmt } => put_number(tick, b" use ", stmt as u64, sink),
        Item::Done { tick, stmt } => put_number(tick, b" done ", stmt as u64, sink),
        Item::Tag { tick, stmt } => put_number(tick, b" tag ", stmt as u64, sink),
        Item::Enter { tick, region } => put_number(tick, b" enter ", region as u64, sink),
        Item::Commit { tick, region } => put_number(tick, b" commit ", region as u64, sink),
        Item::Abort { tick, region } => put_number(tick, b" abort ", region as u64, sink),
        Item::Off { tick, ticks } => put_number(tick, b" off ", ticks, sink),
        Item::Trap { tick, kind, stmt } => put_number(tick, trap_words(kind), stmt as u64, sink),
        Item::End { tick } => put_end(tick, b" end\n", sink),
        Item::Dark { tick } => put_end(tick, b" dark\n", sink),
    }
}

/// Writes a word of a nonvolatile variable, with the space before it.
fn put_word<O: Sink>(word: &i32, sink: &mut O) -> Result<(), SinkFault>
    ensures { Puts O.took O.faults sink.old (word_field word.now) sink.new result }
{
    let mut number = Buffer::new();
    put_pieces(sink, &[b" ", number.format(*word).as_bytes()])
}

/// Writes the line of a nonvolatile variable of this name.
fn put_words<O: Sink>(name: &[u8], words: &[i32], sink: &mut O) -> Result<(), SinkFault>
    ensures { Puts O.took O.faults sink.old (words_line name.now words.now) sink.new result }
{
    if let Err(fault) = put_pieces(sink, &[b"nv ", name]) {
        return Err(fault);
    }
    for word in words {
        if let Err(fault) = put_word(word, sink) {
            return Err(fault);
        }
    }
    sink.put(b"\n")
}

/// Writes the line of the nonvolatile variable with this number: `nv`, its name and all its words.
/// At a fault of the sink a part of the line was taken.
pub fn put_nv<O: Sink>(
    name: u8,
    words: &[i32],
    names: &Names,
    sink: &mut O,
) -> Result<(), SinkFault>
    requires { name < length (names_view names.now).nvs }
    ensures { Puts O.took O.faults sink.old
        (nv_line (names_view names.now) name words.now) sink.new result }
{
    put_words(names.nvs[name as usize].bytes(), words, sink)
}
