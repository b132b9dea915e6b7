//! Supplies of periods.
ghost use Rattle.std.specs.Prelude.{◌≡◌, ℕ, ◌<◌, ◌^◌, List, [], ◌∷◌, MatchOption, OnOk, OnErr};
ghost use Rattle.oc_io.specs.declared.period.Period.{Period};
ghost use Rattle.oc_power.specs.Choice.{first_with};
ghost use Rattle.oc_power.specs.Total.{total};

use crate::trace::Trace;
use oc_io::Memory;
use oc_io::period::Period;

/// Tells periods, one after the other. It has a number, by which it is chosen; a plan, which says
/// what it tells of the rows that it is fed; and a list of the periods left. Only the list changes.
pub trait Supply: Drop {
    ghost number: { Self → ℕ };

    ghost plan: { Self → List Period → List Period };

    ghost left: { Self → List Period };

    /// Its number.
    fn name(&self) -> u8
        ensures { result ≡ number self.now };

    /// Begins its plan for these rows. On want of memory the list stays as it was.
    fn feed(&mut self, rows: &[Period]) -> Result<(), Memory>
        ensures ok { OnOk result (left self.new ≡ plan self.old rows.now) }
        ensures err { OnErr result (left self.new ≡ left self.old) }
        ensures sum { total rows.now < 2 ^ 63 → total (plan self.old rows.now) < 2 ^ 63 }
        ensures number { number self.new ≡ number self.old }
        ensures plan { (given : List Period) → plan self.new given ≡ plan self.old given };

    /// Begins its plan for the rows of a trace, as `feed` does. A supply that keeps the trace takes
    /// no memory.
    fn take(&mut self, rows: Trace) -> Result<(), Memory>
        ensures ok { OnOk result (left self.new ≡ plan self.old rows) }
        ensures err { OnErr result (left self.new ≡ left self.old) }
        ensures sum { OnOk result
            (total rows < 2 ^ 63 → total (plan self.old rows) < 2 ^ 63) }
        ensures number { number self.new ≡ number self.old }
        ensures plan { (given : List Period) → plan self.new given ≡ plan self.old given }
    {
        self.feed(rows.to_vec()?.as_slice())
    }

    /// Tells the first period left, or that there is none. It takes no memory.
    fn next(&mut self) -> Option<Period>
        ensures first { MatchOption result ((left self.old ≡ []) × (left self.new ≡ []))
            (λ p. left self.old ≡ p ∷ left self.new) }
        ensures number { number self.new ≡ number self.old }
        ensures plan { (given : List Period) → plan self.new given ≡ plan self.old given };
}

/// The first supply with this number, if there is one; the others are dropped.
pub fn choose(supplies: Vec<Box<dyn Supply>>, wanted: u8) -> Option<Box<dyn Supply>>
    ensures { result ≡ first_with (λ b. number b) wanted supplies.items }
{
    for supply in supplies {
        if supply.name() == wanted {
            return Some(supply);
        }
    }
    None
}
