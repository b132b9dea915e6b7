//! Places of functions and of policies.
ghost use Rattle.std.specs.Prelude.{◌≡◌, length, IfOk};

use oc_effects::effects::Effects;
use std::alloc::AllocError;

/// How many functions a program has.
pub fn function_count(effects: &Effects) -> usize
    ensures { result ≡ length effects.now.program.functions }
{
    effects.checked().program().functions.len()
}

/// A place as a `u32`; a list that is too long for that counts as one that there is no memory for.
pub fn number_of(place: usize) -> Result<u32, AllocError>
    ensures { IfOk result (λ n. n ≡ place) }
{
    match u32::try_from(place) {
        Ok(number) => Ok(number),
        Err(_) => Err(AllocError),
    }
}
