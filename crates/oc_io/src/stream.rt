//! Streams of bytes.
ghost use Rattle.std.specs.Prelude.{◌≡◌, ◌≤◌, [], ◌++◌, length, take, drop, OnOk, OnErr, true, false};
ghost use Rattle.std.specs.Result.{is_ok};
ghost use Rattle.std.specs.Io.KnownBytes.{Appends};
ghost use Rattle.oc_io.specs.Faults.{Rose, TookPart};
ghost use Rattle.oc_io.specs.Streams.{unwritten, with_held};

use crate::sink::{Sink, SinkFault};
use std::io::Write;

/// How many bytes are held back before they are written.
const ROOM: usize = 8192;

/// Writes the bytes from a place on until all are written or a write fails, and says up to which
/// place they are.
fn write_out<W: Write>(to: &mut W, bytes: &[u8], from: usize) -> usize
    requires { from ≤ length bytes.now }
    ensures few { result ≤ length bytes.now }
    ensures more { from ≤ result }
    ensures bytes { Appends (W.contents to.old) (W.contents to.new)
        (drop from (take result bytes.now)) }
{
    let mut written = from;
    while written < bytes.len() {
        let Ok(count) = to.write(&bytes[written..]) else {
            return written;
        };
        if count == 0 {
            return written;
        }
        written += count;
    }
    written
}

/// Writes to a stream in large pieces.
///
/// The first bytes of the buffer are used. Where a write fails, the first of these may be written:
/// the others are held back.
#[derive(Drop)]
pub struct StreamSink<W: Write + Drop> {
    to: W,
    buffer: [u8; ROOM],
    used: usize,
    written: usize,
    faults: u64,
    ghost within: { written ≤ used },
    ghost fits: { used ≤ length buffer },
}

impl<W: Write + Drop> StreamSink<W> {
    /// A sink that writes to `to` and holds nothing back yet.
    pub fn new(to: W) -> StreamSink<W>
        ensures to { result.to ≡ to }
        ensures held { result.used ≡ 0 }
        ensures faults { result.faults ≡ 0 }
    {
        StreamSink {
            to,
            buffer: [0; ROOM],
            used: 0,
            written: 0,
            faults: 0,
        }
    }

    /// Writes what is held back, and says whether nothing is left.
    fn write_held(&mut self) -> bool
        ensures same { self.new.faults ≡ self.old.faults }
        ensures empty { result ≡ true → self.new.used ≡ 0 }
        ensures bytes { Appends
            (with_held (W.contents self.old.to) self.old.written self.old.used self.old.buffer)
            (with_held (W.contents self.new.to) self.new.written self.new.used self.new.buffer)
            [] }
    {
        self.written = write_out(&mut self.to, &self.buffer[..self.used], self.written);
        if self.written < self.used {
            return false;
        }
        self.written = 0;
        self.used = 0;
        true
    }

    /// Counts a fault where there was one.
    fn answer(&mut self, fine: bool) -> Result<(), SinkFault>
        ensures to { self.new.to ≡ self.old.to }
        ensures buffer { self.new.buffer ≡ self.old.buffer }
        ensures used { self.new.used ≡ self.old.used }
        ensures written { self.new.written ≡ self.old.written }
        ensures told { is_ok result ≡ fine }
        ensures calm { OnOk result (self.new.faults ≡ self.old.faults) }
        ensures cause { OnErr result (Rose self.old.faults self.new.faults) }
        ensures count { self.old.faults ≤ self.new.faults }
    {
        if fine {
            return Ok(());
        }
        self.faults = self.faults.saturating_add(1);
        Err(SinkFault)
    }

    /// Holds bytes back where there is room for them, and says whether there is.
    #[inline(always)]
    fn hold(&mut self, bytes: &[u8]) -> bool
        ensures to { self.new.to ≡ self.old.to }
        ensures faults { self.new.faults ≡ self.old.faults }
        ensures full { result ≡ false → self.new ≡ self.old }
        ensures held { result ≡ true
            → unwritten self.new.written self.new.used self.new.buffer
            ≡ unwritten self.old.written self.old.used self.old.buffer ++ bytes.now }
    {
        if ROOM - self.used < bytes.len() {
            return false;
        }
        let end = self.used + bytes.len();
        self.buffer[self.used..end].copy_from_slice(bytes);
        self.used = end;
        true
    }

    /// Takes bytes for which there is no room, after all that is held back, and says whether it took
    /// all.
    #[cold]
    #[inline(never)]
    fn make_room(&mut self, bytes: &[u8]) -> bool
        ensures same { self.new.faults ≡ self.old.faults }
        ensures whole { result ≡ true → Appends
            (with_held (W.contents self.old.to) self.old.written self.old.used self.old.buffer)
            (with_held (W.contents self.new.to) self.new.written self.new.used self.new.buffer)
            bytes.now }
        ensures part { TookPart (λ a x b. Appends
            (with_held (W.contents a.to) a.written a.used a.buffer)
            (with_held (W.contents b.to) b.written b.used b.buffer) x)
            self.old bytes.now self.new }
    {
        self.write_held() && (self.hold(bytes) || write_out(&mut self.to, bytes, 0) == bytes.len())
    }
}

impl<W: Write + Drop> Sink for StreamSink<W> {
    ghost use Rattle.std.specs.Io.KnownBytes.{Appends};
    ghost use Rattle.oc_io.specs.Streams.{unwritten, with_held};
    ghost use Rattle.std.proofs.KnownBytes.{Appends-nil, Appends-trans};

    ghost took = { λ a x b. Appends
        (with_held (W.contents a.to) a.written a.used a.buffer)
        (with_held (W.contents b.to) b.written b.used b.buffer) x };

    ghost held = { λ s. unwritten s.written s.used s.buffer };

    ghost faults = { λ s. s.faults };

    #[inline(always)]
    fn put(&mut self, bytes: &[u8]) -> Result<(), SinkFault> {
        if bytes.is_empty() {
            return Ok(());
        }
        if self.hold(bytes) {
            return Ok(());
        }
        let fine = self.make_room(bytes);
        self.answer(fine)
    }

    fn flush(&mut self) -> Result<(), SinkFault> {
        let fine = self.write_held() && self.to.flush().is_ok();
        self.answer(fine)
    }

    ghost took_nothing = { λ s. Appends-nil
        (with_held (W.contents s.to) s.written s.used s.buffer) };

    ghost took_both = { λ a b c x y. Appends-trans
        (with_held (W.contents a.to) a.written a.used a.buffer)
        (with_held (W.contents b.to) b.written b.used b.buffer)
        (with_held (W.contents c.to) c.written c.used c.buffer) x y };
}
