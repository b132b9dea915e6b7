//! What the programs that show tables share: the way from a worked source to its checked program.
#![tactic(auto)]

ghost use Rattle.std.specs.Prelude.{◌≤◌, length};
ghost use Rattle.oc_lex.specs.Limits.{source_limit};

use oc_desugar::expand;
use oc_lex::lex;
use oc_parse::parse;
use oc_tree::checked::Checked;
use oc_types::check;
use std::alloc::Global;

/// The checked program of a source of at most 1 MiB; what refuses the source, or want of memory, is
/// the error.
pub fn check_source(alloc: Global, source: &[u8]) -> anyhow::Result<Checked>
    requires { length source.now ≤ source_limit }
{
    let tokens = lex(alloc, source)?;
    let program = parse(alloc, source, tokens.as_slice())?;
    let written = check(alloc, program)?;
    match expand(alloc, written) {
        Ok(checked) => Ok(checked),
        Err((_, memory)) => Err(memory.into()),
    }
}
