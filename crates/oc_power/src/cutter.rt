//! The rows in short pieces.
ghost use Rattle.std.specs.Prelude.{◌≡◌, ◌≤◌, []};

use crate::supply::Supply;
use crate::trace::Trace;
use oc_io::Memory;
use oc_io::period::Period;
use std::alloc::Global;
use std::marker::Model;

/// Tells the rows in pieces of at most so many steps: whole pieces without an outage, and a last
/// one with the steps that are left, at least one, and the row's outage and mark.
#[derive(Drop)]
pub struct Cutter {
    len: u64,
    rows: Trace,
    place: usize,
    /// The steps of the row at the place that were told already.
    told: u64,
    alloc: Global,
}

impl Model for Cutter {
    ghost use Rattle.std.specs.Prelude.{◌≤◌, drop};
    ghost use Rattle.oc_power.specs.Cutting.{Cutting, cut_after, IsPartOfFirst};

    ghost Value = { Cutting };

    ghost view = { λ a. record {
      len = a.len;
      left = cut_after a.len a.told (drop a.place a.rows);
    } };

    ghost invariant = { λ a. (1 ≤ a.len) × IsPartOfFirst a.told (drop a.place a.rows) };
}

impl Cutter {
    /// A supply in pieces of at most so many steps, with nothing left.
    pub fn new(alloc: Global, len: u64) -> Cutter
        requires { 1 ≤ len }
        ensures { result ≡ record { len = len; left = [] } }
    {
        Cutter {
            len,
            rows: Trace::new(alloc),
            place: 0,
            told: 0,
            alloc,
        }
    }
}

impl Supply for Cutter {
    ghost use Rattle.oc_power.specs.Cutting.{cut_rows};

    ghost number = { λ _. 2 };

    ghost plan = { λ s rows. cut_rows s.len rows };

    ghost left = { λ s. s.left };

    fn name(&self) -> u8 {
        2
    }

    fn feed(&mut self, rows: &[Period]) -> Result<(), Memory> {
        self.take(Trace::from_slice(self.alloc, rows)?)
    }

    fn take(&mut self, rows: Trace) -> Result<(), Memory> {
        self.rows = rows;
        self.place = 0;
        self.told = 0;
        Ok(())
    }

    fn next(&mut self) -> Option<Period> {
        if self.rows.len() <= self.place {
            return None;
        }
        let row = self.rows.period(self.place);
        let on = row.on - self.told;
        if self.len < on {
            self.told += self.len;
            return Some(Period {
                on: self.len,
                off: 0,
                cut: false,
            });
        }
        self.told = 0;
        self.place += 1;
        Some(Period { on, ..row })
    }
}
