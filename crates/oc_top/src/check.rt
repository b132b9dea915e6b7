//! Whether the blocks that `atomic` begins suffice for what a source's annotations require.
ghost use Rattle.std.specs.Prelude.{◌≤◌, ◌<◌, true, length, IfOk, IfErr};
ghost use Rattle.oc_lex.specs.Limits.{source_limit};
ghost use Rattle.oc_tree.specs.View.{program_view};
ghost use Rattle.oc_tree.specs.Form.{InForm};
ghost use Rattle.oc_tree.specs.Nodes.{program_nodes};
ghost use Rattle.oc_lex.specs.Stands.{IsName};
ghost use Rattle.oc_needs.specs.Policies.{policies};
ghost use Rattle.oc_regcheck.specs.Enough.{AreStatements};
ghost use Rattle.oc_regcheck.specs.declared.verdict.BlockVerdict.TheVariants as verdicts;
ghost use Rattle.oc_command.specs.Sinks.{writes};
ghost use Rattle.oc_top.specs.Checked.{AreEnough, IsEnough, IsSaid, SpellsBlocks};
ghost use Rattle.oc_top.specs.Judged.{IsChecked, IsCheckedOf, IsNotSafe, IsOpenFor};
ghost use Rattle.oc_top.specs.Steps.{IsNotRead};
ghost use Rattle.oc_report.specs.Runs.{refuses};

use crate::build::{answer_without_rules, answer_without_tree, tokens_of};
use oc_command::answer::Answer;
use oc_command::gap::gap_of;
use oc_desugar::expand;
use oc_effects::effects::Effects;
use oc_flow::summaries;
use oc_io::sink::Sink;
use oc_needs::policy::policies;
use oc_needs::requirements;
use oc_parse::parse_blocks;
use oc_regcheck::{BlockVerdict, check_blocks};
use oc_report::text::put_text;
use oc_tree::checked::Checked;
use oc_tree::tree::{Program, StmtId};
use oc_types::check;
use std::alloc::{AllocError, Global};

/// The program that a source spells in the grammar with `atomic`, and the statements that `atomic`
/// begins.
fn program_with_blocks(alloc: Global, source: &[u8]) -> Result<(Program, Vec<StmtId>), Answer>
    requires { length source.now ≤ source_limit }
    ensures spelled { IfOk result (λ r. SpellsBlocks source.now (program_view r.0) r.1.items) }
    ensures form { IfOk result (λ r. InForm IsName (program_view r.0)) }
    ensures nodes { IfOk result (λ r. program_nodes (program_view r.0) ≤ source_limit) }
    ensures refused { IfErr result (λ a. IsNotRead true source.now a) }
{
    let tokens = tokens_of(alloc, source)?;
    match parse_blocks(alloc, source, &tokens) {
        Ok(read) => Ok(read),
        Err(error) => Err(answer_without_tree(&tokens, error)),
    }
}

/// The expansion of that program, where it breaks no rule.
fn checked_with_blocks(alloc: Global, source: &[u8]) -> Result<(Checked, Vec<StmtId>), Answer>
    requires { length source.now ≤ source_limit }
    ensures checked { IfOk result (λ r. IsCheckedOf source.now r.0 r.1.items) }
    ensures refused { IfErr result (λ a. IsNotRead true source.now a) }
{
    let (program, blocks) = program_with_blocks(alloc, source)?;
    let written = match check(alloc, program) {
        Ok(written) => written,
        Err(error) => return Err(answer_without_rules(error)),
    };
    match expand(alloc, written) {
        Ok(checked) => Ok((checked, blocks)),
        Err((_, memory)) => Err(Answer::from(memory)),
    }
}

/// The answer to blocks that don't suffice.
fn answer_open(
    alloc: Global,
    effects: &Effects,
    policy: u32,
    function: u32,
    first: StmtId,
    second: StmtId,
) -> Result<Answer, AllocError>
    requires { policy < length (policies effects.now.program) }
    ensures { IfOk result
        (λ a. IsSaid effects.now.program (verdicts.Open policy function first second) (refuses a)) }
{
    let policies = policies(alloc, effects)?;
    let policy = policies[policy as usize];
    let gap = gap_of(alloc, effects, policy, function, first, second)?;
    Ok(Answer::Uncovered { gap })
}

/// Judges the blocks of a checked program: where they don't suffice, the answer says what is open.
fn judge(alloc: Global, checked: &Checked, blocks: &[StmtId]) -> Result<(), Answer>
    requires { AreStatements checked.now.program blocks.now }
    ensures enough { IfOk result (λ _. IsEnough checked.now blocks.now) }
    ensures open { IfErr result (λ a. IsOpenFor checked.now.program blocks.now a) }
{
    let summaries = summaries(alloc, checked)?;
    let required = requirements(alloc, checked, &summaries)?;
    match check_blocks(alloc, checked, &summaries, &required, blocks)? {
        BlockVerdict::Covered => Ok(()),
        BlockVerdict::Open {
            policy,
            function,
            first,
            second,
        } => {
            let answer = answer_open(alloc, summaries.effects(), policy, function, first, second)?;
            Err(answer)
        }
    }
}

/// Whether the blocks of a source suffice.
fn try_blocks(alloc: Global, source: &[u8]) -> Result<(), Answer>
    requires { length source.now ≤ source_limit }
    ensures enough { IfOk result (λ _. AreEnough source.now) }
    ensures refused { IfErr result (λ a. IsNotSafe source.now a) }
{
    match checked_with_blocks(alloc, source) {
        Ok((checked, blocks)) => judge(alloc, &checked, &blocks),
        Err(answer) => Err(answer),
    }
}

/// Writes `safe` where the blocks of a source suffice, or answers why they don't.
pub fn check_source<O: Sink>(alloc: Global, source: &[u8], out: &mut O) -> Answer
    requires { length source.now ≤ source_limit }
    ensures checked { IsChecked source.now (writes O.took O.held O.faults out.old out.new) result }
    ensures count { O.faults out.old ≤ O.faults out.new }
{
    match try_blocks(alloc, source) {
        Ok(()) => put_text(b"safe\n", out),
        Err(answer) => answer,
    }
}
