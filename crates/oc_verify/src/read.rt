//! Images of files.
ghost use Rattle.std.specs.Prelude.{◌≡◌, IfErr, IfOk, MatchResult};
ghost use Rattle.oc_isa.specs.Image.{Parts, parts_of};
ghost use Rattle.oc_verify.specs.Reading.{AreImage, read_at};
ghost use Rattle.oc_verify.specs.Reads as reads;
ghost use Rattle.oc_verify.specs.Reads.{IsBad};
ghost use Rattle.oc_verify.specs.declared.fault.ImageError.TheVariants as errors;

use crate::declared::{Declared, declarations};
use crate::fault::{ImageError, ReadFault};
use crate::lists::{Body, read_body};
use crate::reader::Reader;
use oc_isa::image::RawImage;
use std::alloc::Global;

/// The parts of an image, one after another.
#[tactic(auto, using(crate::proofs::WholeLaws::read_in_parts))]
fn parts(alloc: Global, bytes: &[u8]) -> Result<RawImage, ReadFault>
    ensures { reads.ReadsAll parts_of result (read_at bytes.now) }
{
    let mut reader = Reader::new(bytes);
    reader.magic()?;
    let Declared {
        names,
        nv,
        functions,
    } = declarations(alloc, &mut reader)?;
    let Body {
        targets,
        stack,
        code,
    } = read_body(alloc, &mut reader)?;
    Ok(RawImage {
        names,
        functions,
        targets,
        nv,
        code,
        stack,
    })
}

/// Reads the bytes of an image's file. `Bytes` has the first byte of the first field that is
/// missing, cut or out of its range, or the first byte behind the last field.
pub fn read_image(alloc: Global, bytes: &[u8]) -> Result<RawImage, ImageError>
    ensures found { IfOk result (λ r. AreImage bytes.now (parts_of r)) }
    ensures only { (i : Parts) → AreImage bytes.now i
        → MatchResult result (λ r. parts_of r ≡ i) (λ e. e ≡ errors.Memory) }
    ensures fault { IfErr result (IsBad bytes.now) }
{
    match parts(alloc, bytes) {
        Ok(image) => Ok(image),
        Err(ReadFault::Bad { left }) => Err(ImageError::Bytes {
            at: bytes.len() - left,
        }),
        Err(ReadFault::Memory) => Err(ImageError::Memory),
    }
}
