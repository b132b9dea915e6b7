//! What becomes of the bytes of a file.
ghost use Rattle.std.specs.Prelude.{◌≡◌};
ghost use Rattle.oc_isa.specs.Power.{first_state};
ghost use Rattle.oc_isa.specs.Run.{IsSound};
ghost use Rattle.oc_isa.specs.Table.{device_of};

use oc_io::Memory;
use oc_io::memory_sink::MemorySink;
use oc_io::period::Period;
use oc_io::sink::Sink;
use oc_isa::image::Image;
use oc_machine::machine::Machine;
use oc_machine::stop::Stop;
use oc_power::recorded::Recorded;
use oc_power::supply::Supply;
use oc_sensors::file::read_sensors;
use oc_tree::said::TrapKind;
use oc_verify::{ImageError, VerifyError, read_image, verify};
use std::alloc::Global;
use std::fmt::{self, Display, Formatter, Write};

/// What becomes of a file: its first bad field, a rule that it breaks, or how its run stops; of one
/// that is the same as before, nothing new.
#[derive(Clone, Copy, PartialEq, Eq)]
pub enum Answer {
    Same,
    Bad { at: usize },
    Refused { rule: u8 },
    Ran { how: &'static str },
}

impl Display for Answer {
    fn fmt<W: Write>(&self, f: &mut Formatter<W>) -> fmt::Result {
        match *self {
            Answer::Same => f.write_str("same"),
            Answer::Bad { at } => write!(f, "bad byte {at}"),
            Answer::Refused { rule } => write!(f, "refused {rule}"),
            Answer::Ran { how } => f.write_str(how),
        }
    }
}

/// How a run stops, in a word.
fn stop_name(stop: Stop) -> &'static str {
    match stop {
        Stop::End => "end",
        Stop::Trap {
            kind: TrapKind::Zero,
            ..
        } => "zero",
        Stop::Trap {
            kind: TrapKind::Index,
            ..
        } => "index",
        Stop::Dark => "dark",
        Stop::WriteFault => "fault",
        Stop::Cut { .. } => "cut",
    }
}

/// The periods of each run, which is over with them, also where it loops.
const PERIODS: [Period; 2] = [
    Period {
        on: 7,
        off: 2,
        cut: false,
    },
    Period {
        on: 60,
        off: 0,
        cut: false,
    },
];

/// Runs a new machine, whose sensors show 0, and writes its report.
fn put_report<O: Sink>(alloc: Global, machine: &mut Machine, report: &mut O) -> anyhow::Result<Stop>
    requires new { machine.old.state ≡ first_state (device_of machine.old.parts) }
    requires sound { IsSound (device_of machine.old.parts) }
{
    let mut supply = Recorded::new(alloc);
    supply.feed(&PERIODS)?;
    let names = &machine.image().raw().names.sensors;
    let mut sensors = read_sensors(alloc, b"time,sensor,value\n", names)?;
    Ok(machine.run(&mut sensors, &mut supply, report))
}

/// Runs a sound image.
fn answer_of<O: Sink>(alloc: Global, image: Image, report: &mut O) -> anyhow::Result<Answer>
    requires { IsSound (device_of image) }
{
    let mut machine = Machine::load(alloc, image)?;
    let stop = put_report(alloc, &mut machine, report)?;
    Ok(Answer::Ran {
        how: stop_name(stop),
    })
}

/// Room for the report of a run.
pub fn report_sink(alloc: Global) -> Result<MemorySink, Memory> {
    MemorySink::new(alloc, 1 << 12, Vec::new(alloc))
}

/// Reads a file, looks through it, and runs it.
pub fn answer_to<O: Sink>(alloc: Global, bytes: &[u8], report: &mut O) -> anyhow::Result<Answer> {
    let raw = match read_image(alloc, bytes) {
        Ok(raw) => raw,
        Err(ImageError::Bytes { at }) => return Ok(Answer::Bad { at }),
        Err(ImageError::Memory) => return Err(Memory.into()),
    };
    match verify(alloc, raw) {
        Ok(image) => answer_of(alloc, image, report),
        Err((_, VerifyError::Refused { rule, .. })) => Ok(Answer::Refused { rule }),
        Err((_, VerifyError::Memory)) => Err(Memory.into()),
    }
}
