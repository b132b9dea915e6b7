//! The code of marked programs.
//!
//! Instructions are written in order into one buffer, and a jump whose end isn't known yet is
//! written again once it is: each part of the tree is gone over once.
#![tactic(auto)]

ghost use Rattle.std.specs.Prelude.{◌≡◌, IfOk};
ghost use Rattle.oc_isa.specs.Image.{parts_of};
ghost use Rattle.oc_code.specs.Code.{code_of};
ghost use Rattle.oc_code.specs.Right.{IsRight};
ghost use Rattle.oc_writes.specs.Targets.{may_write};

mod buffer;
mod copy;
mod ends;
mod exprs;
mod loops;
mod program;
mod scope;
mod setting;
mod simple;
mod stmts;
mod uses;

use copy::copy_targets;
use oc_io::Memory;
use oc_isa::image::{Image, RawImage};
use oc_tree::marked::Marked;
use oc_writes::WriteSets;
use program::raw_image;
use std::alloc::{AllocError, Global};

/// The image of a marked program, as its parts. Err is want of memory.
fn raw(alloc: Global, marked: &Marked, writes: &WriteSets) -> Result<RawImage, AllocError>
    requires { writes.now ≡ may_write marked.now }
    ensures { IfOk result
        (λ i. parts_of i ≡ code_of marked.now.program marked.now.regions (may_write marked.now)) }
{
    let checked = marked.checked();
    let targets = copy_targets(alloc, writes)?;
    let raw = raw_image(alloc, checked.program(), marked.regions(), targets)?;
    Ok(raw)
}

/// The image of a marked program, with what its regions may overwrite. Each number fits its
/// instruction, so nothing but want of memory is in its way.
pub fn compile(alloc: Global, marked: &Marked, writes: &WriteSets) -> Result<Image, Memory>
    requires { writes.now ≡ may_write marked.now }
    // It is the program's code.
    ensures code { IfOk result
        (λ i. i ≡ code_of marked.now.program marked.now.regions (may_write marked.now)) }
    // Its runs are those of the program.
    ensures right { IsRight marked.now.program marked.now.regions (may_write marked.now) }
{
    // For the proof alone: it tells that the program is marked.
    let _checked = marked.checked();
    match raw(alloc, marked, writes) {
        Ok(raw) => Ok(Image::new(raw)),
        Err(_) => Err(Memory),
    }
}
