//! The bytes of a program's image.
ghost use Rattle.std.specs.Prelude.{◌≤◌, length};
ghost use Rattle.oc_lex.specs.Limits.{source_limit};
ghost use Rattle.oc_command.specs.Sinks.{writes};
ghost use Rattle.oc_top.specs.Printed.{IsPrinted};
ghost use Rattle.oc_top.specs.Verdict.{image_of};

use crate::laws::images_are_small;
use crate::prepare::build_image;
use oc_command::answer::Answer;
use oc_io::sink::Sink;
use oc_report::image::put_image;
use std::alloc::Global;

/// Writes the bytes of the image of the program that a source spells, or answers why there is none.
pub fn print_image<O: Sink>(alloc: Global, source: &[u8], out: &mut O) -> Answer
    requires { length source.now ≤ source_limit }
    ensures printed { IsPrinted source.now image_of
        (writes O.took O.held O.faults out.old out.new) result }
    ensures count { O.faults out.old ≤ O.faults out.new }
{
    images_are_small();
    match build_image(alloc, source) {
        Ok(image) => put_image(&image, out),
        Err(answer) => answer,
    }
}
