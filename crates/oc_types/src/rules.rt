//! Programs that break no rule.
ghost use Rattle.std.specs.Prelude.{◌≡◌, ◌≤◌, None, IfErr, IfOk};
ghost use Rattle.oc_lex.specs.Limits.{source_limit};
ghost use Rattle.oc_lex.specs.Stands.{IsName};
ghost use Rattle.oc_tree.specs.Broken.{broken};
ghost use Rattle.oc_tree.specs.Form.{InForm};
ghost use Rattle.oc_tree.specs.Nodes.{program_nodes};
ghost use Rattle.oc_tree.specs.View.{program_view};
ghost use Rattle.oc_types.specs.Told.{TellsBroken};

use crate::sizes::find_broken;
use oc_tree::broken::Broken;
use oc_tree::tree::Program;
use oc_tree::written::Written;
use std::alloc::Global;
use thiserror::Error;

/// Why a program is no written program.
#[derive(Clone, Copy, Debug, Error)]
pub enum RuleError {
    /// The first element in source order that breaks a rule is in this line, and this is the lowest
    /// rule that it breaks.
    #[error("rule {rule} is broken in line {line}")]
    Rule { line: u32, rule: u8 },
    /// There is no memory left.
    #[error("out of memory")]
    Memory,
}

/// The program, if it breaks no rule.
pub fn check(alloc: Global, program: Program) -> Result<Written, RuleError>
    requires form { InForm IsName (program_view program) }
    requires nodes { program_nodes (program_view program) ≤ source_limit }
    // What comes with Ok is the program, of which no rule is broken.
    ensures same { IfOk result (λ w. w ≡ program_view program) }
    ensures unbroken { IfOk result (λ w. broken (program_view program) ≡ None) }
    // A rule that is told is the one that is broken, in its line.
    ensures told { IfErr result (λ e. TellsBroken (broken (program_view program)) e) }
{
    match find_broken(alloc, &program) {
        Ok(None) => Ok(Written::new(program)),
        Ok(Some(Broken { line, rule })) => Err(RuleError::Rule { line, rule }),
        Err(_) => Err(RuleError::Memory),
    }
}
