//! Runs one program of one region over many periods of power, and writes each report and what the
//! machine kept: the nonvolatile words, the undo log and the area.
//!
//! In the table the power fails after each step from 0 to 24, and again after each step from 0 to 16 of
//! the attempt after that. Then the program runs with an outage in its region, and with one more while
//! the undo log is put back.
//!
//! At last a program without a region runs over what each supply tells of one row, and the number of
//! periods that the supply has left is written.
//!
//! The images of both programs come from the standard input, in hexadecimal, each in a line;
//! `checks/outages.py` writes them.
#![tactic(auto)]

ghost use Rattle.std.specs.Prelude.{◌≡◌, ◌<◌, ◌^◌, false};
ghost use Rattle.oc_isa.specs.Power.{first_state};
ghost use Rattle.oc_isa.specs.Run.{IsSound};
ghost use Rattle.oc_isa.specs.Table.{device_of};
ghost use Rattle.oc_power.specs.Total.{total};

mod kept;
mod loaded;

use kept::put_kept;
use loaded::{load, put_report};
use oc_io::period::Period;
use oc_io::sink::Sink;
use oc_io::stream::StreamSink;
use oc_machine::machine::Machine;
use oc_power::cutter::Cutter;
use oc_power::looped::Looped;
use oc_power::recorded::Recorded;
use oc_power::supply::Supply;
use std::alloc::Global;
use std::io;

/// A period of so many steps with power and so many ticks without, whose checkpoint is saved.
fn period(on: u64, off: u64) -> Period
    ensures { result ≡ record { on = on; off = off; cut = false } }
{
    Period {
        on,
        off,
        cut: false,
    }
}

/// Writes the periods of a run.
fn put_periods<O: Sink>(alloc: Global, periods: &[Period], out: &mut O) -> anyhow::Result<()> {
    out.put(b"periods")?;
    for period in periods {
        let text = format!(in alloc; " {},{}", period.on, period.off)?;
        out.put(text.as_bytes())?;
    }
    out.put(b"\n")?;
    Ok(())
}

/// Runs a machine, and writes the report and what the machine kept.
fn put_run<O: Sink>(
    alloc: Global,
    machine: &mut Machine,
    sensors: &[u8],
    supply: &mut dyn Supply,
    out: &mut O,
) -> anyhow::Result<()>
    requires new { machine.old.state ≡ first_state (device_of machine.old.parts) }
    requires sound { IsSound (device_of machine.old.parts) }
    requires sum { total (left supply.old) < 2 ^ 63 }
{
    put_report(alloc, machine, sensors, supply, out)?;
    put_kept(alloc, machine, out)
}

/// Runs the program of an image over these periods, and writes them, the report, and what the machine
/// kept.
fn run_over<O: Sink>(
    alloc: Global,
    image: &str,
    sensors: &[u8],
    periods: &[Period],
    out: &mut O,
) -> anyhow::Result<()>
    requires { total periods.now < 2 ^ 63 }
{
    put_periods(alloc, periods, out)?;
    let mut supply = Recorded::new(alloc);
    supply.feed(periods)?;
    let mut machine = load(alloc, image)?;
    put_run(alloc, &mut machine, sensors, &mut supply, out)
}

/// How many periods a supply has left.
fn count_left(supply: &mut dyn Supply) -> u64 {
    let mut left: u64 = 0;
    while supply.next().is_some() {
        left = left.saturating_add(1);
    }
    left
}

/// Writes a name and a number in a line.
fn put_count<O: Sink>(alloc: Global, name: &str, number: u64, out: &mut O) -> anyhow::Result<()> {
    let line = format!(in alloc; "{name} {number}\n")?;
    out.put(line.as_bytes())?;
    Ok(())
}

/// Runs the program of an image, which asks no sensor, as long as the supply lets it.
fn run_on<O: Sink>(
    alloc: Global,
    image: &str,
    supply: &mut dyn Supply,
    out: &mut O,
) -> anyhow::Result<()>
    requires { total (left supply.old) < 2 ^ 63 }
{
    let mut machine = load(alloc, image)?;
    put_report(alloc, &mut machine, b"time,sensor,value\n", supply, out)
}

/// Runs the program of an image over what a supply tells of one row, and writes the report and how many
/// periods the supply has left.
fn count_over<O: Sink>(
    alloc: Global,
    image: &str,
    supply: &mut dyn Supply,
    out: &mut O,
) -> anyhow::Result<()> {
    put_count(alloc, "supply", u64::from(supply.name()), out)?;
    supply.feed(&[period(7, 3)])?;
    run_on(alloc, image, supply, out)?;
    put_count(alloc, "left", count_left(supply), out)
}

/// Writes the runs of the program with a region.
fn put_outages<O: Sink>(alloc: Global, image: &str, out: &mut O) -> anyhow::Result<()> {
    let one_value = b"time,sensor,value\n0,t,21\n";
    for first in 0..25 {
        for second in 0..17 {
            let periods = [period(first, 1), period(second, 1), period(60, 0)];
            run_over(alloc, image, one_value, &periods, out)?;
        }
    }
    let two_values = b"time,sensor,value\n0,t,21\n60,t,30\n";
    run_over(alloc, image, two_values, &[period(18, 10)], out)?;
    let periods = [period(18, 10), period(2, 10)];
    run_over(alloc, image, two_values, &periods, out)
}

/// Writes the runs of the program without a region.
fn put_supplies<O: Sink>(alloc: Global, image: &str, out: &mut O) -> anyhow::Result<()> {
    count_over(alloc, image, &mut Recorded::new(alloc), out)?;
    count_over(alloc, image, &mut Looped::new(alloc, 64), out)?;
    count_over(alloc, image, &mut Cutter::new(alloc, 3), out)
}

/// Writes all runs on the standard output.
fn main(rt: HostRuntime) -> anyhow::Result<()> {
    let alloc = rt.alloc();
    let text = io::read_to_string(alloc, rt.reader())?;
    let (with_region, without) = text.split_once('\n').unwrap_or((&text, ""));
    let mut out = StreamSink::new(io::writer(&rt));
    put_outages(alloc, with_region, &mut out)?;
    put_supplies(alloc, without.trim_end(), &mut out)?;
    out.flush()?;
    Ok(())
}
