//! The rows as they are.
ghost use Rattle.std.specs.Prelude.{◌≡◌, []};

use crate::supply::Supply;
use crate::trace::Trace;
use oc_io::Memory;
use oc_io::period::Period;
use std::alloc::Global;
use std::marker::Model;

/// Tells the rows as they are. Contracts see the periods left.
#[derive(Drop)]
pub struct Recorded {
    rows: Trace,
    place: usize,
    alloc: Global,
}

impl Model for Recorded {
    ghost use Rattle.std.specs.Prelude.{List, drop};
    ghost use Rattle.oc_io.specs.declared.period.Period.{Period};

    ghost Value = { List Period };

    ghost view = { λ a. drop a.place a.rows };
}

impl Recorded {
    /// A supply with nothing left.
    pub fn new(alloc: Global) -> Recorded
        ensures { result ≡ [] }
    {
        Recorded {
            rows: Trace::new(alloc),
            place: 0,
            alloc,
        }
    }
}

impl Supply for Recorded {
    ghost number = { λ _. 0 };

    ghost plan = { λ _ rows. rows };

    ghost left = { λ s. s };

    fn name(&self) -> u8 {
        0
    }

    fn feed(&mut self, rows: &[Period]) -> Result<(), Memory> {
        self.take(Trace::from_slice(self.alloc, rows)?)
    }

    fn take(&mut self, rows: Trace) -> Result<(), Memory> {
        self.rows = rows;
        self.place = 0;
        Ok(())
    }

    fn next(&mut self) -> Option<Period> {
        if self.rows.len() <= self.place {
            return None;
        }
        let period = self.rows.period(self.place);
        self.place += 1;
        Some(period)
    }
}
