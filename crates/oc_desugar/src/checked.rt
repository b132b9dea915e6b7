//! The checked program of a written one.
ghost use Rattle.std.specs.Prelude.{◌≡◌, IfOk, IfErr};
ghost use Rattle.oc_tree.specs.Expansion.{expansion, program_groups};

use crate::program::expand_program;
use oc_io::Memory;
use oc_tree::checked::Checked;
use oc_tree::written::Written;
use std::alloc::Global;

/// The expansion of a written program, with its groups. Where there is no memory, the written
/// program comes back.
pub fn expand(alloc: Global, written: Written) -> Result<Checked, (Written, Memory)>
    ensures expanded { IfOk result
        (λ c. c ≡ record { program = expansion written; groups = program_groups written }) }
    ensures back { IfErr result (λ e. e.0 ≡ written) }
{
    match expand_program(alloc, written.program()) {
        Ok((program, groups)) => Ok(Checked::new(program, groups)),
        Err(_) => Err((written, Memory)),
    }
}
