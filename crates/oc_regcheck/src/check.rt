//! The check of blocks.
ghost use Rattle.std.specs.Prelude.{◌≡◌, ◌<◌, ℕ, Some, All, map, true, IfOk};
ghost use Rattle.oc_honest.specs.Timely.{RunsAreTimely};
ghost use Rattle.oc_needs.specs.Requirements.{requirements};
ghost use Rattle.oc_needs.specs.View.{requirement_view};
ghost use Rattle.oc_reach.specs.Marked.{is_in};
ghost use Rattle.oc_regcheck.specs.BlockMarks.{blocks_marked};
ghost use Rattle.oc_tree.specs.Members.{is_number_of};
ghost use Rattle.oc_regcheck.specs.Code.{comes_by, first_by, meets, requirement_seen, second_by, IsVerdictBy};
ghost use Rattle.oc_regcheck.specs.Enough.{is_covering, AreStatements, IsVerdict, TellsCovered};

use crate::blocks::Blocks;
use crate::guard::from_main;
use crate::inputs::lowest_input;
use crate::inside::{second, share_all};
use crate::laws::blocks_hold;
use crate::verdict::BlockVerdict;
use oc_effects::effects::Effects;
use oc_flow::summary::Summaries;
use oc_io::Memory;
use oc_needs::requirement::Requirement;
use oc_reach::marks::Marks;
use oc_tree::checked::Checked;
use oc_tree::tree::StmtId;
use std::alloc::{AllocError, Global};

/// Whether a block has all sites of a requirement inside, or its function is guarded.
fn is_met(effects: &Effects, blocks: &Blocks, unguarded: &Marks, requirement: &Requirement) -> bool
    requires function { requirement.now.function < unguarded.now.1 }
    requires unguarded { (f : ℕ) → is_in unguarded.now.0 f
        ≡ comes_by effects.now.program (is_number_of blocks.now) f }
    ensures { result
        ≡ meets effects.now.program (is_number_of blocks.now) (requirement_view requirement.now) }
{
    share_all(effects, blocks, requirement.sites.as_slice())
        || !unguarded.has(requirement.function as usize)
}

/// The first requirement that isn't met.
fn first_open<'r>(
    effects: &Effects,
    blocks: &Blocks,
    unguarded: &Marks,
    required: &'r [Requirement],
) -> Option<&'r Requirement>
    requires functions { All (λ r. r.function < unguarded.now.1)
        (map requirement_view required.now) }
    requires unguarded { (f : ℕ) → is_in unguarded.now.0 f
        ≡ comes_by effects.now.program (is_number_of blocks.now) f }
    ensures { requirement_seen result
        ≡ first_by effects.now.program (is_number_of blocks.now)
        (map requirement_view required.now) }
{
    for requirement in required {
        if !is_met(effects, blocks, unguarded, requirement) {
            return Some(requirement);
        }
    }
    None
}

/// The first site of an open requirement that no block has inside together with its input; there is
/// one.
fn second_site(
    effects: &Effects,
    blocks: &Blocks,
    requirement: &Requirement,
    first: StmtId,
) -> StmtId
    requires { first_by effects.now.program (is_number_of blocks.now)
        (requirements effects.now.program) ≡ Some (requirement_view requirement.now) }
    ensures { second_by effects.now.program (is_number_of blocks.now) first
        requirement.now.sites.items ≡ Some result }
{
    // For the proof alone: it tells that the program is checked.
    let _program = effects.checked().program();
    match second(effects, blocks, first, requirement.sites.as_slice()) {
        Some(second) => second,
        None => unreachable!(),
    }
}

/// What is said of the first open requirement.
fn open_verdict(
    alloc: Global,
    summaries: &Summaries,
    blocks: &Blocks,
    requirement: &Requirement,
) -> Result<BlockVerdict, AllocError>
    requires { first_by summaries.now.program (is_number_of blocks.now)
        (requirements summaries.now.program)
        ≡ Some (requirement_view requirement.now) }
    ensures { IfOk result (IsVerdictBy summaries.now.program (is_number_of blocks.now)) }
{
    let effects = summaries.effects();
    let first = lowest_input(alloc, summaries, requirement)?;
    let second = second_site(effects, blocks, requirement, first);
    Ok(BlockVerdict::Open {
        policy: requirement.policy,
        function: requirement.function,
        first,
        second,
    })
}

/// What is said of blocks in order.
fn verdict_by(
    alloc: Global,
    summaries: &Summaries,
    required: &[Requirement],
    blocks: &Blocks,
) -> Result<BlockVerdict, AllocError>
    requires { map requirement_view required.now ≡ requirements summaries.now.program }
    ensures { IfOk result (IsVerdictBy summaries.now.program (is_number_of blocks.now)) }
{
    let effects = summaries.effects();
    let unguarded = from_main(alloc, effects, blocks)?;
    match first_open(effects, blocks, &unguarded, required) {
        Some(requirement) => {
            let verdict = open_verdict(alloc, summaries, blocks, requirement)?;
            Ok(verdict)
        }
        None => Ok(BlockVerdict::Covered),
    }
}

/// What is said of blocks in any order.
fn verdict(
    alloc: Global,
    summaries: &Summaries,
    required: &[Requirement],
    blocks: &[StmtId],
) -> Result<BlockVerdict, AllocError>
    requires { map requirement_view required.now ≡ requirements summaries.now.program }
    ensures { IfOk result (IsVerdict summaries.now.program blocks.now) }
{
    // For the proof alone: it tells that the program is checked.
    let _program = summaries.effects().checked().program();
    let sorted = Blocks::new(alloc, blocks)?;
    let verdict = verdict_by(alloc, summaries, required, &sorted)?;
    Ok(verdict)
}

/// Whether blocks, by the numbers of their statements, suffice for what a program requires: each
/// requirement has all its sites inside one of them, or its function is called only inside of them.
pub fn check_blocks(
    alloc: Global,
    checked: &Checked,
    summaries: &Summaries,
    required: &[Requirement],
    blocks: &[StmtId],
) -> Result<BlockVerdict, Memory>
    requires summaries { summaries.now ≡ checked.now }
    requires required { map requirement_view required.now ≡ requirements checked.now.program }
    requires blocks { AreStatements checked.now.program blocks.now }
    // What is said of the first requirement that isn't met, or that there is none.
    ensures verdict { IfOk result (IsVerdict checked.now.program blocks.now) }
    // `Covered` is said exactly where the blocks suffice.
    ensures covered { IfOk result (TellsCovered checked.now.program blocks.now) }
    // Then each run is timely with outages anywhere but within an execution of a block.
    ensures timely { IfOk result
        (λ v. is_covering v ≡ true → RunsAreTimely (blocks_marked checked.now blocks.now)) }
{
    // For the proof alone: it tells that the program is checked.
    let _program = checked.program();
    blocks_hold();
    match verdict(alloc, summaries, required, blocks) {
        Ok(verdict) => Ok(verdict),
        Err(_) => Err(Memory),
    }
}
