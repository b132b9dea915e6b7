//! The book that a sink keeps for meters.
ghost use Rattle.std.specs.Prelude.{◌≡◌, ◌+◌, ◌<◌, ◌^◌, [], IfOk, IfErr};
ghost use Rattle.oc_tree.specs.Names.{names_view};
ghost use Rattle.oc_meters.specs.Reads.{IsLineTold, TakesByte, TakesBytes, longest as longest_of, longest_line as longest_line_of, page};
ghost use Rattle.oc_meters.specs.Tally.{readings};

use crate::line::Line;
use crate::meter::{Meter, tell_all};
use oc_io::Memory;
use oc_items::read::read_item;
use oc_tree::name::{Name, Names};
use std::alloc::Global;

/// The most digits of a tick, and of how many ticks an outage lasts.
const TICK_DIGITS: usize = 20;

/// The most bytes of a value: a sign and ten digits.
const VALUE_BYTES: usize = 11;

/// The line of a report that isn't finished, and the meters, which are told the items of those that
/// are. Only `new` takes memory.
#[derive(Drop)]
pub struct Book<M: Drop> {
    names: Names,
    line: Line,
    meters: Vec<M>,
    ghost room: { line.most ≡ longest_line_of (names_view names) + 1 },
}

/// The length of the longest of these names.
fn longest(names: &[Name]) -> usize
    ensures longest { result ≡ longest_of names.now }
    ensures fits { result < 2 ^ 63 }
{
    let mut most = 0;
    for name in names {
        most = most.max(name.bytes().len());
    }
    most
}

/// The most bytes of an item's line, without its line feed: those of an input, an output or an
/// outage are the longest.
fn longest_line(names: &Names) -> usize
    ensures longest { result ≡ longest_line_of (names_view names.now) }
    ensures fits { result < 2 ^ 63 + 40 }
{
    let sensors = longest(names.sensors.as_slice());
    let ports = longest(names.ports.as_slice());
    let sense = TICK_DIGITS + b" sense ".len() + sensors + 1 + VALUE_BYTES;
    let emit = TICK_DIGITS + b" emit ".len() + ports + 1 + VALUE_BYTES;
    let off = TICK_DIGITS + b" off ".len() + TICK_DIGITS;
    sense.max(emit).max(off)
}

impl<M: Meter> Book<M> {
    /// A book for a report under these names. On want of memory the meters come back.
    pub fn new(alloc: Global, names: Names, meters: Vec<M>) -> Result<Book<M>, (Vec<M>, Memory)>
        ensures names { IfOk result (λ b. b.names ≡ names) }
        ensures line { IfOk result (λ b. b.line.bytes ≡ []) }
        ensures meters { IfOk result (λ b. b.meters ≡ meters) }
        ensures back { IfErr result (λ e. e.0 ≡ meters) }
    {
        match Line::new(alloc, longest_line(&names) + 1) {
            Ok(line) => Ok(Book {
                names,
                line,
                meters,
            }),
            Err(memory) => Err((meters, memory)),
        }
    }

    /// The meters, in the order in which they were handed in.
    pub fn meters(&self) -> &[M]
        ensures { result.now ≡ self.now.meters.items }
    {
        self.meters.as_slice()
    }

    /// The meters, with what they were told.
    pub fn into_meters(self) -> Vec<M>
        ensures { result ≡ self.meters }
    {
        let Book { meters, .. } = self;
        meters
    }

    /// Tells the meters the item of the line, if it is that of one.
    fn tell_line(&mut self)
        ensures told { IsLineTold (names_view self.old.names) self.old.line.bytes
            (readings M.kind_of M.numbers self.old.meters.items)
            (readings M.kind_of M.numbers self.new.meters.items) }
        ensures names { self.new.names ≡ self.old.names }
        ensures line { self.new.line ≡ self.old.line }
    {
        if let Some(item) = read_item(self.line.bytes(), &self.names) {
            tell_all(&mut self.meters, &item);
        }
    }

    /// Takes a byte of the report.
    fn take_byte(&mut self, byte: u8)
        ensures taken { TakesByte (names_view self.old.names)
            (page M.kind_of M.numbers self.old.line.bytes self.old.meters.items) byte
            (page M.kind_of M.numbers self.new.line.bytes self.new.meters.items) }
        ensures names { self.new.names ≡ self.old.names }
    {
        if byte == b'\n' {
            self.tell_line();
            self.line.clear();
        } else {
            self.line.push(byte);
        }
    }

    /// Takes bytes of the report.
    pub fn take(&mut self, bytes: &[u8])
        ensures taken { TakesBytes (names_view self.old.names)
            (page M.kind_of M.numbers self.old.line.bytes self.old.meters.items)
            bytes.now
            (page M.kind_of M.numbers self.new.line.bytes self.new.meters.items) }
        ensures names { self.new.names ≡ self.old.names }
        ensures nothing { bytes.now ≡ [] → self.new ≡ self.old }
    {
        for byte in bytes {
            self.take_byte(*byte);
        }
    }
}
