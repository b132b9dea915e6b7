//! The periods of a power file, in little room.
ghost use Rattle.std.specs.Prelude.{◌≡◌, ◌==◌, ◌<◌, ◌++◌, ◌∷◌, [], List, Some, length, map, IfOk, if◌then◌else◌};
ghost use Rattle.std.specs.List.{All, slice_get};
ghost use Rattle.std.specs.Result.{is_ok};
ghost use Rattle.oc_power.specs.Entries.{IsPlaced, period_of};
ghost use Rattle.oc_power.specs.declared.trace.Entry.{Entry};

use oc_io::Memory;
use oc_io::period::Period;
use std::alloc::Global;
use std::marker::Model;

/// How many numbers 32 bits hold.
const HALF: u64 = 1 << 32;

/// A period whose numbers have at most 32 bits each, as nearly all have, or the place of another
/// one.
#[derive(Clone, Copy)]
pub enum Entry {
    /// A period that isn't cut.
    Whole { on: u32, off: u32 },
    /// A period that is cut.
    Cut { on: u32, off: u32 },
    /// The place among the long ones, in halves.
    Long { high: u32, low: u32 },
}

/// Periods in order. Those with short numbers, as in nearly all power files, take half the room
/// of a list of periods.
#[derive(Drop)]
pub struct Trace {
    entries: Vec<Entry>,
    long: Vec<Period>,
    alloc: Global,
}

impl Model for Trace {
    ghost use Rattle.std.specs.Prelude.{List, length, map};
    ghost use Rattle.std.specs.List.{All};
    ghost use Rattle.oc_io.specs.declared.period.Period.{Period};
    ghost use Rattle.oc_power.specs.Entries.{IsPlaced, period_of};

    ghost Value = { List Period };

    ghost view = { λ a. map (period_of a.long.items) a.entries.items };

    ghost invariant = { λ a. All (IsPlaced (length a.long.items)) a.entries.items };
}

/// A period of so many steps with power and so many ticks without, and whether its checkpoint is
/// lost.
fn period(on: u32, off: u32, cut: bool) -> Period
    ensures { result ≡ record { on = on; off = off; cut = cut } }
{
    Period {
        on: u64::from(on),
        off: u64::from(off),
        cut,
    }
}

/// The entry of a period, which goes behind the long ones where it is long itself.
fn entry_of(long: &mut Vec<Period>, period: Period) -> Result<Entry, Memory>
    ensures entry { IfOk result (λ e. period_of long.new.items e ≡ period) }
    ensures placed { IfOk result (λ e. IsPlaced (length long.new.items) e) }
    ensures kept { (entries : List Entry) → All (IsPlaced (length long.old.items)) entries →
        All (IsPlaced (length long.new.items)) entries ×
        (map (period_of long.new.items) entries ≡ map (period_of long.old.items) entries) }
{
    if period.on < HALF && period.off < HALF {
        let (on, off) = (period.on as u32, period.off as u32);
        return Ok(if period.cut {
            Entry::Cut { on, off }
        } else {
            Entry::Whole { on, off }
        });
    }
    let place = long.len() as u64;
    if long.push(period).is_err() {
        return Err(Memory);
    }
    Ok(Entry::Long {
        high: (place / HALF) as u32,
        low: (place % HALF) as u32,
    })
}

impl Trace {
    /// No periods.
    pub fn new(alloc: Global) -> Trace
        ensures { result ≡ [] }
    {
        Trace {
            entries: Vec::new(alloc),
            long: Vec::new(alloc),
            alloc,
        }
    }

    /// These periods.
    pub fn from_slice(alloc: Global, periods: &[Period]) -> Result<Trace, Memory>
        ensures { IfOk result (λ trace. trace ≡ periods.now) }
    {
        let mut trace = Trace::new(alloc);
        for period in periods {
            trace.push(*period)?;
        }
        Ok(trace)
    }

    /// Adds a period at the end. On want of memory nothing is added.
    pub fn push(&mut self, period: Period) -> Result<(), Memory>
        ensures { self.new ≡ (if is_ok result then self.old ++ period ∷ [] else self.old) }
    {
        let entry = entry_of(&mut self.long, period)?;
        if self.entries.push(entry).is_err() {
            return Err(Memory);
        }
        Ok(())
    }

    /// A list of the periods.
    pub fn to_vec(&self) -> Result<Vec<Period>, Memory>
        ensures { IfOk result (λ periods. periods.items ≡ self.now) }
    {
        let Ok(mut periods) = Vec::with_capacity(self.alloc, self.len()) else {
            return Err(Memory);
        };
        for at in 0..self.len() {
            let next = self.period(at);
            if periods.push(next).is_err() {
                return Err(Memory);
            }
        }
        Ok(periods)
    }

    /// How many periods there are.
    pub fn len(&self) -> usize
        ensures { result ≡ length self.now }
    {
        self.entries.len()
    }

    /// Whether there are none.
    pub fn is_empty(&self) -> bool
        ensures { result ≡ (length self.now == 0) }
    {
        self.entries.is_empty()
    }

    /// The period at a place, from 0.
    pub fn period(&self, at: usize) -> Period
        requires { at < length self.now }
        ensures { slice_get self.now at ≡ Some result }
    {
        match self.entries[at] {
            Entry::Whole { on, off } => period(on, off, false),
            Entry::Cut { on, off } => period(on, off, true),
            Entry::Long { high, low } => {
                let place = u64::from(high) * HALF + u64::from(low);
                self.long[place as usize]
            }
        }
    }
}
