//! A sink round another one, from which meters read.
ghost use Rattle.std.specs.Prelude.{◌≡◌, false};

use crate::book::Book;
use crate::meter::Meter;
use oc_io::sink::{Sink, SinkFault};

/// Hands the bytes of a report on, and keeps a book for meters until a call fails.
#[derive(Drop)]
pub struct MeterSink<'a, O: Sink, M: Drop> {
    inner: &'a mut O,
    failed: bool,
    book: &'a mut Book<M>,
}

impl<'a, O: Sink, M: Meter> MeterSink<'a, O, M> {
    /// Stands around a sink, and keeps this book until a call of that sink fails.
    pub fn new(inner: &'a mut O, book: &'a mut Book<M>) -> MeterSink<'a, O, M>
        ensures inner { result.inner.now ≡ inner.old }
        ensures same_inner { result.inner.ghost_name ≡ inner.entry.ghost_name }
        ensures book { result.book.now ≡ book.old }
        ensures same_book { result.book.ghost_name ≡ book.entry.ghost_name }
        ensures failed { result.failed ≡ false }
    {
        MeterSink {
            inner,
            failed: false,
            book,
        }
    }
}

impl<O: Sink, M: Meter> Sink for MeterSink<'_, O, M> {
    ghost use Rattle.std.specs.Prelude.{◌≡◌, false};
    ghost use Rattle.std.proofs.Common.{refl, ◌∙◌};
    ghost use Rattle.oc_meters.specs.Passing.{faults_by};
    ghost use Rattle.oc_meters.specs.Reads.{page};
    ghost use Rattle.oc_meters.specs.Taken.{Took, took_nothing, took_both};

    ghost took = { λ a x b. (b.inner.ghost_name ≡ a.inner.ghost_name)
        × (b.book.ghost_name ≡ a.book.ghost_name)
        × O.took a.inner.now x b.inner.now
        × Took a.failed b.failed (O.faults a.inner.now) (O.faults b.inner.now)
        a.book.now.names b.book.now.names
        (page M.kind_of M.numbers a.book.now.line.bytes a.book.now.meters.items) x
        (page M.kind_of M.numbers b.book.now.line.bytes b.book.now.meters.items) };

    ghost held = { λ s. O.held s.inner.now };

    ghost faults = { λ s. faults_by s.failed };

    fn put(&mut self, bytes: &[u8]) -> Result<(), SinkFault> {
        match self.inner.put(bytes) {
            Ok(()) => {
                if !self.failed {
                    self.book.take(bytes);
                }
                Ok(())
            }
            Err(fault) => {
                self.failed = true;
                Err(fault)
            }
        }
    }

    fn flush(&mut self) -> Result<(), SinkFault> {
        match self.inner.flush() {
            Ok(()) => Ok(()),
            Err(fault) => {
                self.failed = true;
                Err(fault)
            }
        }
    }

    ghost took_nothing = { λ s. (
      refl,
      refl,
      O.took_nothing s.inner.now,
      took_nothing s.failed (O.faults s.inner.now) s.book.now.names _,
    ) };

    ghost took_both = { λ a b c x y p q. (
      q.0 ∙ p.0,
      q.1 ∙ p.1,
      O.took_both a.inner.now b.inner.now c.inner.now x y p.2 q.2,
      took_both a.failed b.failed c.failed
          (O.faults a.inner.now) (O.faults b.inner.now) (O.faults c.inner.now)
          a.book.now.names b.book.now.names c.book.now.names _ x _ y _ p.3 q.3,
    ) };
}
