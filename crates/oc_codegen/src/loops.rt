//! The code of loops around their turns.
ghost use Rattle.std.specs.Prelude.{◌≡◌, ◌<◌, ◌+◌, ◌++◌, ◌∷◌, length, slice_set, OnOk, IfOk};
ghost use Rattle.oc_isa.specs.declared.instr.BinOp.TheVariants.{Lt};
ghost use Rattle.oc_isa.specs.declared.instr.Instr.TheVariants.{Push, Load, Store, Bin, Jfalse};
ghost use Rattle.oc_code.specs.Forms.{placed, again_code, below_code, fill_code, array_code};

use crate::buffer::Buffer;
use oc_isa::instr::{BinOp, Instr};
use std::alloc::AllocError;

/// The beginning of a loop from `from` below `to`, whose counter is in a slot. It answers its
/// address; the jump to its end, five instructions on, is still open.
pub fn open_count(
    code: &mut Buffer,
    n: u32,
    slot: u32,
    from: i32,
    to: i32,
) -> Result<u32, AllocError>
    requires { length code.old + 6 < 2147483648 }
    ensures code { OnOk result (code.new
        ≡ code.old ++ placed n (Push from) ∷ placed n (Store slot) ∷ below_code n slot to 0) }
    ensures start { IfOk result (λ a. a ≡ length code.old) }
{
    let start = code.address();
    code.put(n, Instr::Push { c: from })?;
    code.put(n, Instr::Store { s: slot })?;
    code.put(n, Instr::Load { s: slot })?;
    code.put(n, Instr::Push { c: to })?;
    code.put(n, Instr::Bin { op: BinOp::Lt })?;
    code.put(n, Instr::Jfalse { t: 0 })?;
    Ok(start)
}

/// The end of a loop that begins at an address, behind the code of a turn.
pub fn close_count(code: &mut Buffer, n: u32, slot: u32, start: u32) -> Result<(), AllocError>
    requires start { start + 5 < length code.old }
    requires room { length code.old + 5 < 2147483648 }
    ensures { OnOk result (code.new
        ≡ slice_set code.old (start + 5) (placed n (Jfalse (length code.old + 5)))
        ++ again_code n slot (start + 2)) }
{
    let end = code.address() + 5;
    code.set(start + 5, n, Instr::Jfalse { t: end });
    code.put(n, Instr::Load { s: slot })?;
    code.put(n, Instr::Push { c: 1 })?;
    code.put(n, Instr::Bin { op: BinOp::Add })?;
    code.put(n, Instr::Store { s: slot })?;
    code.put(n, Instr::Jump { t: start + 2 })
}

/// The same for a `while`, whose exit is also still open.
pub fn close_while(
    code: &mut Buffer,
    n: u32,
    slot: u32,
    start: u32,
    exit: u32,
) -> Result<(), AllocError>
    requires start { start + 5 < length code.old }
    requires exit { exit < length code.old }
    requires room { length code.old + 5 < 2147483648 }
    ensures { OnOk result
        (code.new ≡ slice_set (slice_set code.old exit (placed n (Jfalse (length code.old + 5))))
        (start + 5) (placed n (Jfalse (length code.old + 5))) ++ again_code n slot (start + 2)) }
{
    let end = code.address() + 5;
    code.set(exit, n, Instr::Jfalse { t: end });
    close_count(code, n, slot, start)
}

/// The code that writes `initial` to one word of an array, at the index that the counter in `slot`
/// says; the words of the array stand behind it. Err is want of memory.
fn fill(code: &mut Buffer, n: u32, slot: u32, initial: i32, words: u32) -> Result<(), AllocError>
    requires slots { slot + 1 + words < 2147483648 }
    requires room { length code.old + 5 < 2147483648 }
    ensures { OnOk result (code.new ≡ code.old ++ fill_code n slot initial words) }
{
    code.put(n, Instr::Push { c: initial })?;
    code.put(n, Instr::Addr { s: slot + 1 })?;
    code.put(n, Instr::Load { s: slot })?;
    code.put(n, Instr::Index { n: words })?;
    code.put(n, Instr::Put)
}

/// The code that writes an array whose counter is in a slot, and whose words stand behind it.
pub fn array(
    code: &mut Buffer,
    n: u32,
    slot: u32,
    initial: i32,
    words: u32,
) -> Result<(), AllocError>
    requires slots { slot + 1 + words < 2147483648 }
    requires room { length code.old + 16 < 2147483648 }
    ensures { OnOk result
        (code.new ≡ code.old ++ array_code n (length code.old) slot initial words) }
{
    let start = open_count(code, n, slot, 0, words as i32)?;
    fill(code, n, slot, initial, words)?;
    close_count(code, n, slot, start)
}
