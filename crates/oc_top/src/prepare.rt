//! The steps before the first byte of a source's report is written.
ghost use Rattle.std.specs.Prelude.{◌≤◌, length, IfOk, IfErr};
ghost use Rattle.oc_lex.specs.Limits.{source_limit};
ghost use Rattle.oc_command.specs.Files.{bytes_of};
ghost use Rattle.oc_top.specs.Steps.{IsBuilt, IsNotBuilt, IsReady, IsTurnedDown};

use crate::build::{image_of, marked_with_effects};
use oc_command::answer::Answer;
use oc_command::files::Fetched;
use oc_isa::image::Image;
use oc_power::supply::Supply;
use oc_report::prepare::{Prepared, set_up};
use std::alloc::Global;

/// The image of the program that a source spells.
pub fn build_image(alloc: Global, source: &[u8]) -> Result<Image, Answer>
    requires { length source.now ≤ source_limit }
    ensures built { IfOk result (λ i. IsBuilt source.now i) }
    ensures refused { IfErr result (λ a. IsNotBuilt source.now a) }
{
    let (marked, kept) = marked_with_effects(alloc, source)?;
    let image = image_of(alloc, &marked, kept)?;
    Ok(image)
}

/// A machine with the image of the program that the source spells, its sensors, and the supply fed
/// with the rows of the power file. The first file that is refused, in this order, decides the answer.
pub fn prepare(alloc: Global, files: &Fetched, supply: &mut dyn Supply) -> Result<Prepared, Answer>
    requires { length files.now.source.items ≤ source_limit }
    ensures ready { IfOk result
        (λ p. IsReady (bytes_of files.now) (plan supply.old) p.machine p.sensors
        (left supply.new)) }
    ensures refused { IfErr result (λ a. IsTurnedDown (bytes_of files.now) (plan supply.old) a) }
{
    let image = build_image(alloc, &files.source)?;
    set_up(alloc, image, files, supply)
}
