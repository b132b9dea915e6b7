//! The drill: a run of files that are made in memory.
ghost use Rattle.std.specs.Prelude.{◌≤◌, ◌≡◌, length, IfOk, option_map};
ghost use Rattle.oc_drill.specs.Drill.{turn_limit};
ghost use Rattle.oc_lex.specs.Limits.{source_limit};
ghost use Rattle.oc_power.specs.Choice.{first_with};
ghost use Rattle.oc_command.specs.Sinks.{writes};
ghost use Rattle.oc_top.specs.Answers.{drill_files};
ghost use Rattle.oc_top.specs.Drills.{IsAnswered, IsDrilled, IsDrilledWith, IsMeasured};
ghost use Rattle.oc_command.specs.Files.{bytes_of};

use crate::prepare::prepare;
use oc_command::answer::{Answer, status};
use oc_command::files::Fetched;
use oc_drill::files::{power, sensors, source};
use oc_drill::line::put_drill;
use oc_io::Memory;
use oc_io::sink::{CountSink, Sink};
use oc_power::supply::{Supply, choose};
use oc_report::report::{flush_with, report};
use std::alloc::{AllocError, Global};

/// The status of a run, and how many lines and bytes it writes.
#[derive(Clone, Copy)]
struct Measured {
    status: u8,
    lines: u64,
    bytes: u64,
}

/// The files of a drill of so many turns.
fn make_files(alloc: Global, turns: u32) -> Result<Fetched, AllocError>
    requires { turns ≤ turn_limit }
    ensures files { IfOk result (λ f. bytes_of f ≡ drill_files turns) }
    ensures within { IfOk result (λ f. length f.source.items ≤ source_limit) }
{
    let source = source(alloc, turns)?;
    let sensors = sensors(alloc, turns)?;
    let power = power(alloc, turns)?;
    Ok(Fetched {
        source,
        sensors,
        power,
    })
}

/// Runs files, with this supply.
fn run_files<O: Sink>(
    alloc: Global,
    files: &Fetched,
    supply: &mut dyn Supply,
    out: &mut O,
) -> Answer
    requires { length files.now.source.items ≤ source_limit }
    ensures { IsAnswered (bytes_of files.now) (plan supply.old)
        (writes O.took O.held O.faults out.old out.new) result }
{
    match prepare(alloc, files, supply) {
        Ok(prepared) => report(prepared, supply, out),
        Err(answer) => answer,
    }
}

/// Runs files over a sink that counts.
fn measure(alloc: Global, files: &Fetched, supply: &mut dyn Supply) -> Result<Measured, Memory>
    requires { length files.now.source.items ≤ source_limit }
    ensures { IfOk result
        (λ m. IsMeasured (bytes_of files.now) (plan supply.old) m.status m.lines m.bytes) }
{
    let mut sink = CountSink::new();
    match run_files(alloc, files, supply, &mut sink) {
        Answer::Memory => Err(Memory),
        answer => Ok(Measured {
            status: status(&answer),
            lines: sink.lines(),
            bytes: sink.bytes(),
        }),
    }
}

/// Runs the files of a drill of so many turns with this supply, and writes the line that tells its
/// status and how many lines and bytes it would write.
fn drill<O: Sink>(alloc: Global, turns: u32, supply: &mut dyn Supply, out: &mut O) -> Answer
    requires { turns ≤ turn_limit }
    ensures drilled { IsDrilled turns (plan supply.old)
        (writes O.took O.held O.faults out.old out.new) result }
    ensures count { O.faults out.old ≤ O.faults out.new }
{
    let Ok(files) = make_files(alloc, turns) else {
        return Answer::Memory;
    };
    let Ok(measured) = measure(alloc, &files, supply) else {
        return Answer::Memory;
    };
    match put_drill(turns, measured.status, measured.lines, measured.bytes, out) {
        Ok(()) => flush_with(Answer::End, out),
        Err(_) => Answer::WriteFault,
    }
}

/// A drill of so many turns with the first supply that has the number 0.
pub fn drill_by<O: Sink>(
    alloc: Global,
    turns: u32,
    supplies: Vec<Box<dyn Supply>>,
    out: &mut O,
) -> Answer
    requires { turns ≤ turn_limit }
    ensures drilled { IsDrilledWith turns
        (option_map (λ b. plan b) (first_with (λ b. number b) 0 supplies.items))
        (writes O.took O.held O.faults out.old out.new) result }
    ensures count { O.faults out.old ≤ O.faults out.new }
{
    match choose(supplies, 0) {
        Some(mut supply) => drill(alloc, turns, &mut *supply, out),
        None => Answer::Usage,
    }
}
