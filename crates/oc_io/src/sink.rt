//! Where bytes go.
ghost use Rattle.std.specs.Prelude.{◌≡◌, ℕ, ◌≤◌, List, [], ◌++◌, OnOk, OnErr, true};
ghost use Rattle.std.specs.Result.{is_ok};
ghost use Rattle.oc_io.specs.Faults.{Puts, Rose};

use thiserror::Error;

/// A sink couldn't take all the bytes.
#[derive(Clone, Copy, Debug, Error)]
#[error("the bytes can't be written")]
pub struct SinkFault;

/// Where bytes go.
///
/// `took` says which bytes a sink took on the way from one state to another, and `held` which of
/// the bytes taken it still holds back. A fault is counted in `faults` exactly where a call fails.
pub trait Sink {
    ghost took: { Self → List ℕ → Self → Type 0 };

    ghost held: { Self → List ℕ };

    ghost faults: { Self → ℕ };

    /// Takes bytes, all of them or a front part. No bytes are taken without a write.
    fn put(&mut self, bytes: &[u8]) -> Result<(), SinkFault>
        ensures puts { Puts took faults self.old bytes.now self.new result }
        ensures empty { bytes.now ≡ [] → (is_ok result ≡ true) × (self.new ≡ self.old) };

    /// Writes what the sink still holds back. Whoever has put a text calls this at its end.
    fn flush(&mut self) -> Result<(), SinkFault>
        ensures nothing { took self.old [] self.new }
        ensures written { OnOk result (held self.new ≡ []) }
        ensures calm { OnOk result (faults self.new ≡ faults self.old) }
        ensures cause { OnErr result (Rose (faults self.old) (faults self.new)) }
        ensures count { faults self.old ≤ faults self.new };

    ghost took_nothing: { (s : Self) → took s [] s };

    ghost took_both: { (a b c : Self) (x y : List ℕ)
        → took a x b → took b y c → took a (x ++ y) c };
}

/// Counts bytes and line feeds, and never fails.
#[derive(Drop)]
pub struct CountSink {
    bytes: u64,
    lines: u64,
}

impl CountSink {
    /// A sink that took nothing yet.
    pub fn new() -> CountSink
        ensures bytes { result.bytes ≡ 0 }
        ensures lines { result.lines ≡ 0 }
    {
        CountSink { bytes: 0, lines: 0 }
    }

    /// How many bytes it took; the count stops at the greatest number.
    pub fn bytes(&self) -> u64
        ensures { result ≡ self.now.bytes }
    {
        self.bytes
    }

    /// How many line feeds it took; the count stops at the greatest number.
    pub fn lines(&self) -> u64
        ensures { result ≡ self.now.lines }
    {
        self.lines
    }
}

impl Sink for CountSink {
    ghost use Rattle.std.specs.Prelude.{◌≡◌, ℕ, ◌+◌, List, [], length};
    ghost use Rattle.oc_io.specs.Counts.{capped, line_feeds};
    ghost use Rattle.oc_io.specs.Counting.{counted_nothing, counted_both};

    ghost took = { λ a x b. (capped b.bytes ≡ capped (a.bytes + length x))
        × (capped b.lines ≡ capped (a.lines + line_feeds x)) };

    ghost held = { λ _. [] };

    ghost faults = { λ _. 0 };

    fn put(&mut self, bytes: &[u8]) -> Result<(), SinkFault> {
        self.bytes = self.bytes.saturating_add(bytes.len() as u64);
        let lines = bytes.iter().filter(|b| **b == 10).count();
        self.lines = self.lines.saturating_add(lines as u64);
        Ok(())
    }

    fn flush(&mut self) -> Result<(), SinkFault> {
        Ok(())
    }

    ghost took_nothing = { λ s. counted_nothing s.bytes s.lines };

    ghost took_both = { λ a b c x y.
        counted_both a.bytes a.lines b.bytes b.lines c.bytes c.lines x y };
}
