//! Texts that are known, and the listing of an image.
ghost use Rattle.std.specs.Prelude.{◌≤◌};
ghost use Rattle.oc_isa.specs.Listing.{listing_text};
ghost use Rattle.oc_command.specs.Sinks.{writes};
ghost use Rattle.oc_report.specs.Runs.{prints};
ghost use Rattle.oc_report.specs.Written.{IsWritten};

use crate::report::flush_with;
use oc_command::answer::Answer;
use oc_io::sink::Sink;
use oc_isa::image::Image;
use oc_isa::listing::listing;

/// Writes a text.
pub fn put_text<O: Sink>(text: &[u8], out: &mut O) -> Answer
    ensures written { IsWritten (writes O.took O.held O.faults out.old out.new) (prints text.now)
        result }
    ensures count { O.faults out.old ≤ O.faults out.new }
{
    match out.put(text) {
        Ok(()) => flush_with(Answer::End, out),
        Err(_) => Answer::WriteFault,
    }
}

/// Writes the listing of an image.
pub fn put_listing<O: Sink>(image: &Image, out: &mut O) -> Answer
    ensures written { IsWritten (writes O.took O.held O.faults out.old out.new)
        (prints (listing_text image.now)) result }
    ensures count { O.faults out.old ≤ O.faults out.new }
{
    match listing(image, out) {
        Ok(()) => flush_with(Answer::End, out),
        Err(_) => Answer::WriteFault,
    }
}
