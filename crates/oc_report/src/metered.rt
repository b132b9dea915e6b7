//! Runs that meters are told of.
ghost use Rattle.std.specs.Prelude.{◌≡◌, ◌≤◌, None, Some};
ghost use Rattle.oc_tree.specs.Names.{names_view};
ghost use Rattle.oc_audit.specs.Apart.{HasNamesApart};
ghost use Rattle.oc_meters.specs.Reads.{page};
ghost use Rattle.oc_meters.specs.Tally.{readings};
ghost use Rattle.oc_command.specs.Meters.{told_by, told_of};
ghost use Rattle.oc_command.specs.Sinks.{writes};
ghost use Rattle.oc_report.specs.Written.{IsWritten};
ghost use Rattle.oc_report.specs.Metered.{IsRead, IsReported};
ghost use Rattle.oc_report.specs.Ready.{CanRun};
ghost use Rattle.oc_report.specs.Runs.{RunFits, runs};

use crate::prepare::Prepared;
use crate::report::report;
use oc_command::answer::Answer;
use oc_io::sink::Sink;
use oc_meters::book::Book;
use oc_meters::laws::report_is_read;
use oc_meters::meter::Meter;
use oc_meters::sink::MeterSink;
use oc_power::supply::Supply;
use std::alloc::Global;

/// An answer, and the meters whose lines stand behind its own, if there are any.
#[derive(Drop)]
pub struct Outcome<M: Drop> {
    pub answer: Answer,
    pub meters: Option<Vec<M>>,
}

/// Runs a newly loaded machine, writes the report and keeps a book of it.
fn report_booked<O: Sink, M: Meter>(
    prepared: Prepared,
    supply: &mut dyn Supply,
    out: &mut O,
    book: &mut Book<M>,
) -> Answer
    requires { CanRun prepared.machine prepared.sensors (left supply.old) }
    ensures written { IsWritten (writes O.took O.held O.faults out.old out.new)
        (runs prepared.machine.parts prepared.sensors.rows (left supply.old)) result }
    ensures read { IsRead result (names_view book.old.names)
        (page M.kind_of M.numbers book.old.line.bytes book.old.meters.items)
        (runs prepared.machine.parts prepared.sensors.rows (left supply.old)).text
        (page M.kind_of M.numbers book.new.line.bytes book.new.meters.items) }
    ensures fits { (result ≡ Answer.WriteFault → ⊥)
        → RunFits prepared.machine.parts prepared.sensors.rows (left supply.old) }
    ensures count { O.faults out.old ≤ O.faults out.new }
{
    let mut sink = MeterSink::new(out, book);
    report(prepared, supply, &mut sink)
}

/// The meters of a book whose lines are written behind this answer.
fn kept_for<M: Meter>(answer: Answer, book: Book<M>) -> Outcome<M>
    ensures answer { result.answer ≡ answer }
    ensures kept { (answer ≡ Answer.WriteFault → ⊥)
        → told_of M.kind_of M.numbers result.meters
        ≡ Some (readings M.kind_of M.numbers book.meters.items) }
    ensures none { answer ≡ Answer.WriteFault
        → told_of M.kind_of M.numbers result.meters ≡ None }
{
    match answer {
        Answer::WriteFault => Outcome {
            answer,
            meters: None,
        },
        _ => Outcome {
            answer,
            meters: Some(book.into_meters()),
        },
    }
}

/// Runs a newly loaded machine, writes the report and tells the meters its items.
fn report_metered<O: Sink, M: Meter>(
    alloc: Global,
    prepared: Prepared,
    supply: &mut dyn Supply,
    out: &mut O,
    meters: Vec<M>,
) -> Outcome<M>
    requires can { CanRun prepared.machine prepared.sensors (left supply.old) }
    requires names { HasNamesApart prepared.machine.parts.names }
    ensures reported { IsReported prepared.machine.parts prepared.sensors.rows (left supply.old)
        (Some (readings M.kind_of M.numbers meters.items))
        (writes O.took O.held O.faults out.old out.new)
        (told_by (told_of M.kind_of M.numbers result.meters)) result.answer }
    ensures count { O.faults out.old ≤ O.faults out.new }
{
    let Ok(names) = prepared.machine.image().raw().names.try_clone(alloc) else {
        return Outcome {
            answer: Answer::Memory,
            meters: None,
        };
    };
    let Ok(mut book) = Book::new(alloc, names, meters) else {
        return Outcome {
            answer: Answer::Memory,
            meters: None,
        };
    };
    report_is_read();
    let answer = report_booked(prepared, supply, out, &mut book);
    kept_for(answer, book)
}

/// Runs a newly loaded machine, writes the report and tells the meters its items, if there are any.
pub fn report_for<O: Sink, M: Meter>(
    alloc: Global,
    prepared: Prepared,
    supply: &mut dyn Supply,
    out: &mut O,
    meters: Option<Vec<M>>,
) -> Outcome<M>
    requires can { CanRun prepared.machine prepared.sensors (left supply.old) }
    requires names { HasNamesApart prepared.machine.parts.names }
    ensures reported { IsReported prepared.machine.parts prepared.sensors.rows (left supply.old)
        (told_of M.kind_of M.numbers meters)
        (writes O.took O.held O.faults out.old out.new)
        (told_by (told_of M.kind_of M.numbers result.meters)) result.answer }
    ensures count { O.faults out.old ≤ O.faults out.new }
{
    match meters {
        Some(meters) => report_metered(alloc, prepared, supply, out, meters),
        None => Outcome {
            answer: report(prepared, supply, out),
            meters: None,
        },
    }
}
