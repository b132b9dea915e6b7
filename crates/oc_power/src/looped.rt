//! The rows over and over.
ghost use Rattle.std.specs.Prelude.{◌≡◌, ◌-◌, ◌^◌, [], min};
ghost use Rattle.oc_power.specs.Looping.{whole_rounds};
ghost use Rattle.oc_power.specs.Total.{total};

use crate::supply::Supply;
use crate::trace::Trace;
use oc_io::Memory;
use oc_io::period::Period;
use std::alloc::Global;
use std::marker::Model;

/// Tells the rows over and over, in whole rounds: as many, up to a number of its own, as keep the
/// sum of all times below 2^63.
#[derive(Drop)]
pub struct Looped {
    rounds: u32,
    rows: Trace,
    place: usize,
    rounds_left: u32,
    alloc: Global,
}

impl Model for Looped {
    ghost use Rattle.std.specs.Prelude.{◌++◌, ◌≤◌, drop, length};
    ghost use Rattle.oc_power.specs.Looping.{Looping, times};

    ghost Value = { Looping };

    ghost view = { λ a. record {
      rounds = a.rounds;
      left = drop a.place a.rows ++ times a.rounds_left a.rows;
    } };

    ghost invariant = { λ a. a.place ≤ length a.rows };
}

/// The sum of all times, which stops at the greatest 64-bit number.
fn capped_total(rows: &Trace) -> u64
    ensures { result ≡ min (total rows.now) (2 ^ 64 - 1) }
{
    let mut sum: u64 = 0;
    for at in 0..rows.len() {
        let row = rows.period(at);
        sum = sum.saturating_add(row.on).saturating_add(row.off);
    }
    sum
}

/// How many rounds of this sum there are, up to a number.
fn count_rounds(rounds: u32, sum: u64) -> u32
    ensures { result ≡ whole_rounds rounds sum }
{
    if sum == 0 {
        return rounds;
    }
    let fit = ((1 << 63) - 1) / sum;
    if fit < u64::from(rounds) {
        fit as u32
    } else {
        rounds
    }
}

impl Looped {
    #[tactic(auto, unfolding(crate::specs::Looping::times))]
    /// A supply of at most so many rounds, with nothing left.
    pub fn new(alloc: Global, rounds: u32) -> Looped
        ensures { result ≡ record { rounds = rounds; left = [] } }
    {
        Looped {
            rounds,
            rows: Trace::new(alloc),
            place: 0,
            rounds_left: 0,
            alloc,
        }
    }
}

impl Supply for Looped {
    ghost use Rattle.oc_power.specs.Looping.{looped};

    ghost number = { λ _. 1 };

    ghost plan = { λ s rows. looped s.rounds rows };

    ghost left = { λ s. s.left };

    fn name(&self) -> u8 {
        1
    }

    fn feed(&mut self, rows: &[Period]) -> Result<(), Memory> {
        self.take(Trace::from_slice(self.alloc, rows)?)
    }

    fn take(&mut self, rows: Trace) -> Result<(), Memory> {
        self.rounds_left = count_rounds(self.rounds, capped_total(&rows));
        self.place = rows.len();
        self.rows = rows;
        Ok(())
    }

    fn next(&mut self) -> Option<Period> {
        if self.place == self.rows.len() {
            if self.rounds_left == 0 || self.rows.is_empty() {
                return None;
            }
            self.rounds_left -= 1;
            self.place = 0;
        }
        let period = self.rows.period(self.place);
        self.place += 1;
        Some(period)
    }
}
