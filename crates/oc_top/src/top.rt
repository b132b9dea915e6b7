//! The top call.
ghost use Rattle.std.specs.Prelude.{◌≡◌, ◌≤◌, [], ◌∷◌, map, option_map, IfSome, Some, if◌then◌else◌};
ghost use Rattle.std.specs.String.{string_bytes};
ghost use Rattle.oc_meters.specs.Tally.{readings};
ghost use Rattle.oc_command.specs.Commands.{HasFewTurns, Run as to_run, auditing as to_audit, command_of, command_view, plans_of, report as to_report, source_task, run_words};
ghost use Rattle.oc_command.specs.Files.{ShelfStays, fetches};
ghost use Rattle.oc_command.specs.Meters.{told_by, told_of};
ghost use Rattle.oc_command.specs.Sinks.{writes};
ghost use Rattle.oc_top.specs.Answers.{Comes, call_for, call_of};
ghost use Rattle.oc_top.specs.Works.{Works};

use crate::audit::audit_report;
use crate::check::check_source;
use crate::drill::drill_by;
use crate::exec::exec_by;
use crate::image::print_image;
use crate::prepare::prepare;
use crate::print::{print_listing, print_regions};
use oc_audit::laws::names_are_apart;
use oc_command::answer::{Answer, put_lines, status};
use oc_command::command::{Command, RunWords, SourceTask, read_command};
use oc_command::files::{SOURCE_LIMIT, fetch_audited, fetch_files, fetch_source};
use oc_io::shelf::Shelf;
use oc_io::sink::Sink;
use oc_meters::meter::Meter;
use oc_power::supply::{Supply, choose};
use oc_report::metered::{Outcome, report_for};
use std::alloc::Global;

/// An answer behind which no meters write.
fn without_meters<M: Meter>(answer: Answer) -> Outcome<M>
    ensures answer { result.answer ≡ answer }
    ensures untold { told_by (told_of M.kind_of M.numbers result.meters) ≡ [] }
{
    Outcome {
        answer,
        meters: None,
    }
}

/// Runs the files under these words, with this supply and these meters, if any.
fn run<F: Shelf, O: Sink, M: Meter>(
    alloc: Global,
    words: RunWords<'_>,
    shelf: &mut F,
    out: &mut O,
    supply: &mut dyn Supply,
    meters: Option<Vec<M>>,
) -> Outcome<M>
    ensures comes { Comes (call_of (run_words words.entry)
        (Some (to_report (plan supply.old) (told_of M.kind_of M.numbers meters)))
        (fetches F.holds F.asked F.faults shelf.old shelf.new)
        (writes O.took O.held O.faults out.old out.new))
        (told_by (told_of M.kind_of M.numbers result.meters)) result.answer }
    ensures stays { ShelfStays F.holds F.faults shelf.old shelf.new }
    ensures count { O.faults out.old ≤ O.faults out.new }
{
    let files = match fetch_files(alloc, words, SOURCE_LIMIT, shelf) {
        Ok(files) => files,
        Err(answer) => return without_meters(answer),
    };
    names_are_apart();
    match prepare(alloc, &files, supply) {
        Ok(prepared) => report_for(alloc, prepared, supply, out, meters),
        Err(answer) => without_meters(answer),
    }
}

/// Runs the files under these words with the first supply that has this number, and these meters
/// where it is metered.
fn run_by<F: Shelf, O: Sink, M: Meter>(
    alloc: Global,
    words: RunWords<'_>,
    supply: u8,
    metered: bool,
    shelf: &mut F,
    out: &mut O,
    supplies: Vec<Box<dyn Supply>>,
    meters: Vec<M>,
) -> Outcome<M>
    ensures comes { Comes (call_for (plans_of (λ b. number b) (λ b. plan b) supplies.items)
        (readings M.kind_of M.numbers meters.items)
        (Some (to_run supply metered (run_words words.entry)))
        (fetches F.holds F.asked F.faults shelf.old shelf.new)
        (writes O.took O.held O.faults out.old out.new))
        (told_by (told_of M.kind_of M.numbers result.meters)) result.answer }
    ensures stays { ShelfStays F.holds F.faults shelf.old shelf.new }
    ensures count { O.faults out.old ≤ O.faults out.new }
{
    let meters = wanted_meters(metered, meters);
    match choose(supplies, supply) {
        Some(mut supply) => run(alloc, words, shelf, out, &mut *supply, meters),
        None => without_meters(Answer::Usage),
    }
}

/// The meters, where they are wanted.
fn wanted_meters<M: Meter>(metered: bool, meters: Vec<M>) -> Option<Vec<M>>
    ensures { told_of M.kind_of M.numbers result
        ≡ (if metered then Some (readings M.kind_of M.numbers meters.items) else None) }
{
    if metered { Some(meters) } else { None }
}

/// Does this with the source under a word.
fn obey_source<F: Shelf, O: Sink>(
    alloc: Global,
    task: SourceTask,
    word: &str,
    shelf: &mut F,
    out: &mut O,
) -> Answer
    ensures comes { Comes (call_of (word.now ∷ []) (Some (source_task task))
        (fetches F.holds F.asked F.faults shelf.old shelf.new)
        (writes O.took O.held O.faults out.old out.new)) [] result }
    ensures stays { ShelfStays F.holds F.faults shelf.old shelf.new }
    ensures count { O.faults out.old ≤ O.faults out.new }
{
    let source = match fetch_source(alloc, word, shelf) {
        Ok(source) => source,
        Err(answer) => return answer,
    };
    match task {
        SourceTask::Regions => print_regions(alloc, &source, out),
        SourceTask::Build => print_listing(alloc, &source, out),
        SourceTask::Image => print_image(alloc, &source, out),
        SourceTask::Check => check_source(alloc, &source, out),
    }
}

/// Audits the report under a word for the source under another.
fn obey_audit<F: Shelf, O: Sink>(
    alloc: Global,
    source: &str,
    report: &str,
    shelf: &mut F,
    out: &mut O,
) -> Answer
    ensures comes { Comes (call_of (source.now ∷ report.now ∷ []) (Some to_audit)
        (fetches F.holds F.asked F.faults shelf.old shelf.new)
        (writes O.took O.held O.faults out.old out.new)) [] result }
    ensures stays { ShelfStays F.holds F.faults shelf.old shelf.new }
    ensures count { O.faults out.old ≤ O.faults out.new }
{
    match fetch_audited(alloc, source, report, shelf) {
        Ok(files) => audit_report(alloc, &files.source, &files.report, out),
        Err(answer) => answer,
    }
}

/// Obeys a command, if there is one. A run takes the first supply that has its number, and that of an
/// image the first that has the number 0.
fn obey<F: Shelf, O: Sink, M: Meter>(
    alloc: Global,
    command: Option<Command<'_>>,
    shelf: &mut F,
    out: &mut O,
    supplies: Vec<Box<dyn Supply>>,
    meters: Vec<M>,
) -> Outcome<M>
    requires { IfSome command (λ c. HasFewTurns (command_view c)) }
    ensures comes { Comes (call_for (plans_of (λ b. number b) (λ b. plan b) supplies.items)
        (readings M.kind_of M.numbers meters.items) (option_map command_view command.entry)
        (fetches F.holds F.asked F.faults shelf.old shelf.new)
        (writes O.took O.held O.faults out.old out.new))
        (told_by (told_of M.kind_of M.numbers result.meters)) result.answer }
    ensures stays { ShelfStays F.holds F.faults shelf.old shelf.new }
    ensures count { O.faults out.old ≤ O.faults out.new }
{
    let Some(command) = command else {
        return without_meters(Answer::Usage);
    };
    match command {
        Command::Run {
            supply,
            metered,
            files,
        } => run_by(alloc, files, supply, metered, shelf, out, supplies, meters),
        Command::Drill { turns } => without_meters(drill_by(alloc, turns, supplies, out)),
        Command::Source { task, source } => {
            without_meters(obey_source(alloc, task, source, shelf, out))
        }
        Command::Audit { source, report } => {
            without_meters(obey_audit(alloc, source, report, shelf, out))
        }
        Command::Exec { files } => without_meters(exec_by(alloc, files, shelf, out, supplies)),
    }
}

/// Does what a line of words asks for, and answers its status.
///
/// It reads from the shelf, writes a report, the line of a drill, the regions of a program, a
/// listing, an image or a verdict on `out` and a line on `err`. A run draws the periods of power
/// from the first of the supplies that has the number asked for; where it is metered and its report
/// is written whole, the meters are told the items of the report and write their lines on `err`.
/// Files are fetched in the order of their words, and the first that is refused decides the status.
pub fn ocelot<F: Shelf, O: Sink, E: Sink>(
    alloc: Global,
    words: &[String],
    shelf: &mut F,
    out: &mut O,
    err: &mut E,
    supplies: Vec<Box<dyn Supply>>,
    meters: Vec<Box<dyn Meter>>,
) -> u8
    ensures works { Works (call_for (plans_of (λ b. number b) (λ b. plan b) supplies.items)
        (readings (λ b. kind_of b) (λ b. numbers b) meters.items)
        (command_of (map string_bytes words.now))
        (fetches F.holds F.asked F.faults shelf.old shelf.new)
        (writes O.took O.held O.faults out.old out.new))
        (writes E.took E.held E.faults err.old err.new) result }
    ensures stays { ShelfStays F.holds F.faults shelf.old shelf.new }
    ensures out { O.faults out.old ≤ O.faults out.new }
    ensures err { E.faults err.old ≤ E.faults err.new }
{
    let command = read_command(words);
    let outcome = obey(alloc, command, shelf, out, supplies, meters);
    let status = status(&outcome.answer);
    put_lines(&outcome.answer, command, &outcome.meters, err);
    status
}
