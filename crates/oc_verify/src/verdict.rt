//! The verifier.
ghost use Rattle.std.specs.Prelude.{◌≡◌, ℕ, IfErr, IfOk, OnOk};
ghost use Rattle.oc_isa.specs.Image.{parts_of};
ghost use Rattle.oc_isa.specs.Run.{IsSound};
ghost use Rattle.oc_isa.specs.Table.{device_of};
ghost use Rattle.oc_verify.specs.Blames.{Blames};
ghost use Rattle.oc_verify.specs.Rules.{Broken};
ghost use Rattle.oc_verify.specs.Typing.{Typing};
ghost use Rattle.oc_verify.specs.Verified.{IsVerified};

use crate::facts::Facts;
use crate::fault::VerifyError;
use crate::kinds::examine_all;
use crate::order::check_calls;
use crate::room::check_room;
use oc_isa::image::{Image, RawImage};
use std::alloc::Global;

/// Refuses an image that breaks a rule.
fn examine(alloc: Global, image: &RawImage) -> Result<(), VerifyError>
    ensures verified { OnOk result ((t : Typing) × IsVerified (parts_of image.now) t) }
    ensures blames { IfErr result (Blames (parts_of image.now)) }
{
    let facts = Facts::new(alloc, image)?;
    facts.check_all_names()?;
    let ranks = check_calls(alloc, &facts)?;
    let table = examine_all(alloc, &facts, &ranks)?;
    check_room(alloc, &facts, &ranks, &table)?;
    Ok(())
}

/// An image of these parts, which breaks no rule; `Refused` has the rule that is broken, and the
/// address, or 0 where it speaks of none.
pub fn verify(alloc: Global, raw: RawImage) -> Result<Image, (RawImage, VerifyError)>
    ensures same { IfOk result (λ i. i ≡ parts_of raw) }
    ensures sound { IfOk result (λ i. IsSound (device_of i)) }
    ensures unbroken { IfOk result (λ i. (a rule : ℕ) → Broken i a rule → ⊥) }
    ensures back { IfErr result (λ e. e.0 ≡ raw) }
    ensures blames { IfErr result (λ e. Blames (parts_of raw) e.1) }
{
    match examine(alloc, &raw) {
        Ok(()) => Ok(Image::new(raw)),
        Err(error) => Err((raw, error)),
    }
}
