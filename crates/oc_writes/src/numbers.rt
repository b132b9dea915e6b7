//! Numbers of 32 bits. One that doesn't fit is out of memory: no checked program has such a number.
ghost use Rattle.std.specs.Prelude.{◌≡◌, ◌+◌, IfOk};

use std::alloc::AllocError;

/// A number or a word so many on.
pub fn behind(number: u32, count: u32) -> Result<u32, AllocError>
    ensures { IfOk result (λ next. next ≡ number + count) }
{
    if count > 4294967295 - number {
        return Err(AllocError);
    }
    Ok(number + count)
}
