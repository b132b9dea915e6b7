//! Writing the report of a run.
ghost use Rattle.std.specs.Prelude.{◌≡◌, ◌≤◌, ◌⊎◌, [], map};
ghost use Rattle.oc_io.specs.Faults.{Puts, Rose};
ghost use Rattle.oc_isa.specs.Image.{IsWellMade, parts_of};
ghost use Rattle.oc_items.specs.Text.{nv_lines};
ghost use Rattle.oc_command.specs.Sinks.{writes};
ghost use Rattle.oc_report.specs.Written.{IsWritten};
ghost use Rattle.oc_report.specs.Ready.{CanRun};
ghost use Rattle.oc_report.specs.Runs.{RunFits, runs, says};

use crate::prepare::Prepared;
use oc_command::answer::Answer;
use oc_io::sink::{Sink, SinkFault};
use oc_isa::image::RawImage;
use oc_items::text::put_nv;
use oc_machine::machine::Machine;
use oc_machine::stop::Stop;
use oc_power::supply::Supply;

/// Writes a line for each nonvolatile variable of an image, in order, with its words.
fn put_nvs<O: Sink>(image: &RawImage, words: &[i32], out: &mut O) -> Result<(), SinkFault>
    requires { IsWellMade (parts_of image.now) }
    ensures { Puts O.took O.faults out.old
        (nv_lines (parts_of image.now).names (map (λ v. v.words) (parts_of image.now).nv) words.now)
        out.new result }
{
    let mut rest = words;
    for (place, nv) in image.nv.iter().enumerate() {
        let (own, others) = rest.split_at((nv.words as usize).min(rest.len()));
        if let Err(fault) = put_nv(place as u8, own, &image.names, out) {
            return Err(fault);
        }
        rest = others;
    }
    Ok(())
}

/// Flushes at the end of a text. The answer stays and nothing is held back, unless that fails.
pub fn flush_with<O: Sink>(answer: Answer, out: &mut O) -> Answer
    ensures nothing { O.took out.old [] out.new }
    ensures stays { ((result ≡ answer) × (O.held out.new ≡ [])
        × (O.faults out.new ≡ O.faults out.old))
        ⊎ ((result ≡ Answer.WriteFault) × Rose (O.faults out.old) (O.faults out.new)) }
    ensures count { O.faults out.old ≤ O.faults out.new }
{
    match out.flush() {
        Ok(()) => answer,
        Err(_) => Answer::WriteFault,
    }
}

/// Writes the nonvolatile variables, where the run is over.
fn finish_with<O: Sink>(answer: Answer, machine: &Machine, out: &mut O) -> Answer
    ensures written { IsWritten (writes O.took O.held O.faults out.old out.new)
        (says answer (nv_lines machine.now.parts.names
        (map (λ v. v.words) machine.now.parts.nv) machine.now.state.nv)) result }
    ensures count { O.faults out.old ≤ O.faults out.new }
{
    match put_nvs(machine.image().raw(), machine.nv_words(), out) {
        Ok(()) => flush_with(answer, out),
        Err(_) => Answer::WriteFault,
    }
}

/// Runs a newly loaded machine over the periods that the supply tells, and writes the report.
pub fn report<O: Sink>(prepared: Prepared, supply: &mut dyn Supply, out: &mut O) -> Answer
    requires { CanRun prepared.machine prepared.sensors (left supply.old) }
    ensures written { IsWritten (writes O.took O.held O.faults out.old out.new)
        (runs prepared.machine.parts prepared.sensors.rows (left supply.old)) result }
    ensures fits { (result ≡ Answer.WriteFault → ⊥)
        → RunFits prepared.machine.parts prepared.sensors.rows (left supply.old) }
    ensures count { O.faults out.old ≤ O.faults out.new }
{
    let Prepared {
        mut machine,
        mut sensors,
    } = prepared;
    match machine.run(&mut sensors, supply, out) {
        Stop::End => finish_with(Answer::End, &machine, out),
        Stop::Trap { .. } => finish_with(Answer::Trapped, &machine, out),
        Stop::Dark => flush_with(Answer::Dark, out),
        Stop::Cut { .. } => flush_with(Answer::Cut, out),
        Stop::WriteFault => Answer::WriteFault,
    }
}
