//! Supplies of one's own.
ghost use Rattle.std.specs.Prelude.{[]};

use oc_io::Memory;
use oc_io::period::Period;
use oc_power::cutter::Cutter;
use oc_power::recorded::Recorded;
use oc_power::supply::{Supply, choose};
use oc_power::trace::Trace;
use std::test::Fail;

/// Tells nothing of any rows, and takes traces as any supply may.
#[derive(Drop)]
struct Dark;

impl Supply for Dark {
    ghost number = { λ _. 3 };

    ghost plan = { λ _ _. [] };

    ghost left = { λ _. [] };

    fn name(&self) -> u8 {
        3
    }

    fn feed(&mut self, _rows: &[Period]) -> Result<(), Memory> {
        Ok(())
    }

    fn next(&mut self) -> Option<Period> {
        None
    }
}

/// A period of so many steps with power and so many ticks without, and whether its checkpoint is
/// lost.
const fn period(on: u64, off: u64, cut: bool) -> Period {
    Period { on, off, cut }
}

/// The numbers and the mark of the next period of a supply.
fn next_of(supply: &mut dyn Supply) -> Option<(u64, u64, bool)> {
    let period = supply.next()?;
    Some((period.on, period.off, period.cut))
}

#[test]
fn takes_a_trace_as_a_list(rt: HostRuntime) -> Result<(), Fail> {
    let rows = [period(7, 4, false), period(1 << 40, 2, true)];
    Dark.take(Trace::from_slice(rt.alloc(), &rows)?)?;
    let mut recorded = Recorded::new(rt.alloc());
    recorded.take(Trace::from_slice(rt.alloc(), &rows)?)?;
    assert_eq!(rt; next_of(&mut Dark), None);
    assert_eq!(rt; next_of(&mut recorded), Some((7, 4, false)));
    assert_eq!(rt; next_of(&mut recorded), Some((1 << 40, 2, true)));
    Ok(())
}

#[test]
fn chooses_the_first_of_a_number(rt: HostRuntime) -> Result<(), Fail> {
    let mut supplies: Vec<Box<dyn Supply>> = Vec::new(rt.alloc());
    supplies.push(Box::new(rt.alloc(), Dark)?)?;
    supplies.push(Box::new(rt.alloc(), Cutter::new(rt.alloc(), 1))?)?;
    supplies.push(Box::new(rt.alloc(), Cutter::new(rt.alloc(), 5))?)?;
    let mut chosen = choose(supplies, 2).expect(&rt, "a cutter");
    chosen.feed(&[period(2, 1, false)])?;
    assert_eq!(rt; next_of(&mut *chosen), Some((1, 0, false)));
    assert_eq!(rt; next_of(&mut *chosen), Some((1, 1, false)));
    assert_eq!(rt; next_of(&mut *chosen), None);
    Ok(())
}
