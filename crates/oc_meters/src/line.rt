//! A line that isn't finished.
ghost use Rattle.std.specs.Prelude.{◌≡◌, [], ◌∷◌, ◌++◌, take, IfOk};

use oc_io::Memory;
use std::alloc::Global;
use std::marker::Model;

/// The first bytes of a line, so many at most. Only `new` takes memory.
#[derive(Drop)]
pub struct Line {
    bytes: Vec<u8>,
    most: usize,
}

impl Model for Line {
    ghost use Rattle.std.specs.Prelude.{◌≤◌, length, vec_capacity};
    ghost use Rattle.oc_meters.specs.Kept as kept;

    ghost Value = { kept.Line };

    ghost view = { λ l. record { bytes = l.bytes.items; most = l.most } };

    ghost invariant = { λ l. (length l.bytes.items ≤ l.most) × (l.most ≤ vec_capacity l.bytes) };
}

impl Line {
    /// A line that isn't begun, with room for `most` bytes, or want of memory.
    pub fn new(alloc: Global, most: usize) -> Result<Line, Memory>
        ensures { IfOk result (λ l. l ≡ record { bytes = []; most = most }) }
    {
        match Vec::with_capacity(alloc, most) {
            Ok(bytes) => Ok(Line { bytes, most }),
            Err(_) => Err(Memory),
        }
    }

    /// The bytes that are kept.
    pub fn bytes(&self) -> &[u8]
        ensures { result.now ≡ self.now.bytes }
    {
        self.bytes.as_slice()
    }

    /// One byte more, which is kept where there is room.
    pub fn push(&mut self, byte: u8)
        ensures { self.new ≡ record
            { bytes = take self.old.most (self.old.bytes ++ byte ∷ []); most = self.old.most } }
    {
        if self.bytes.len() < self.most {
            // `new` took the room, so this wants no memory
            let _ = self.bytes.push(byte);
        }
    }

    /// Begins a new line.
    pub fn clear(&mut self)
        ensures { self.new ≡ record { bytes = []; most = self.old.most } }
    {
        self.bytes.clear();
    }
}
