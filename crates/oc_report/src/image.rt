//! The bytes of an image.
ghost use Rattle.std.specs.Prelude.{◌≤◌};
ghost use Rattle.oc_isa.specs.Bytes.{IsSmall, image_bytes as bytes_of_image};
ghost use Rattle.oc_command.specs.Sinks.{writes};
ghost use Rattle.oc_report.specs.Runs.{prints};
ghost use Rattle.oc_report.specs.Written.{IsWritten};

use crate::report::flush_with;
use oc_command::answer::Answer;
use oc_io::sink::Sink;
use oc_isa::bytes::image_bytes;
use oc_isa::image::Image;

/// Writes the bytes of an image.
pub fn put_image<O: Sink>(image: &Image, out: &mut O) -> Answer
    requires { IsSmall image.now }
    ensures written { IsWritten (writes O.took O.held O.faults out.old out.new)
        (prints (bytes_of_image image.now)) result }
    ensures count { O.faults out.old ≤ O.faults out.new }
{
    match image_bytes(image, out) {
        Ok(()) => flush_with(Answer::End, out),
        Err(_) => Answer::WriteFault,
    }
}
