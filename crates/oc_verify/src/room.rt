//! How many stack words the functions need.
ghost use Rattle.std.specs.Prelude.{
  ◌≡◌,
  ◌≤◌,
  ◌<◌,
  ◌+◌,
  ℕ,
  length,
  suc,
  IfErr,
  IfOk,
  OnOk,
};
ghost use Rattle.std.proofs.Math.ListN.{get_or};
ghost use Rattle.oc_isa.specs.declared.instr.Instr.TheVariants.{Call};
ghost use Rattle.oc_verify.specs.Blames.{Blames};
ghost use Rattle.oc_verify.specs.Facts.{IsNamed, IsRanked};
ghost use Rattle.oc_verify.specs.Room.{AreBounded, BlamesDeep, HasRoom, IsMost, bounded_by, needed};
ghost use Rattle.oc_verify.specs.Rules.{params_of};
ghost use Rattle.oc_verify.specs.Stacks.{stack};
ghost use Rattle.oc_verify.specs.Tables.{IsExamined, SeenCall};
ghost use Rattle.oc_verify.specs.Typing.{Pair};
ghost use Rattle.oc_verify.specs.Walks.{IsTable, table_marks};

use crate::facts::Facts;
use crate::fault::VerifyError;
use crate::stacks::Stacks;
use crate::walk::Table;
use oc_isa::instr::Instr;
use std::alloc::{AllocError, Global};

/// How many words a stack has, where those before it have so many.
fn height(tops: &Stacks, heights: &[u32], number: u32) -> u32
    requires number { number ≤ length tops.now }
    requires sized { length heights.now ≡ number }
    requires heights { (n : ℕ) → n < number
        → get_or heights.now n 0 ≡ length (stack tops.now n) }
    ensures { result ≡ length (stack tops.now number) }
{
    match tops.top(number) {
        Some((_, below)) => heights[below as usize] + 1,
        None => 0,
    }
}

/// How many words each stack has.
fn heights(alloc: Global, tops: &Stacks) -> Result<Vec<u32>, AllocError>
    ensures sized { IfOk result (λ h. length h.items ≡ suc (length tops.now)) }
    ensures heights { IfOk result (λ h. (n : ℕ) → n ≤ length tops.now
        → get_or h.items n 0 ≡ length (stack tops.now n)) }
{
    let mut heights = Vec::new(alloc);
    for number in 0..tops.count() + 1 {
        let one = height(tops, &heights, number);
        heights.push(one)?;
    }
    Ok(heights)
}

/// How many words a function needs at an instruction, with what it calls there.
fn words_needed_at(facts: &Facts, bounds: &[u64], function: usize, instr: Instr, height: u32) -> u64
    requires function { function < length facts.now.functions }
    requires sized { length bounds.now ≡ length facts.now.functions }
    requires low { (g : ℕ) → get_or bounds.now g 0 ≤ facts.now.stack }
    requires callee { (g : ℕ) → instr ≡ Call g
        → (g < length facts.now.functions) × (params_of facts.now g ≤ height) }
    ensures { result ≡ needed facts.now bounds.now function instr height }
{
    let image = facts.image();
    let frame = image.functions[function].frame as u64;
    match instr {
        Instr::Call { f } => {
            let rest = height - facts.params(f as usize);
            let callee = frame + rest as u64 + bounds[f as usize];
            callee.max(frame + height as u64)
        }
        _ => frame + height as u64,
    }
}

/// How many words a function needs.
fn words_needed(
    facts: &Facts,
    table: &Table,
    heights: &[u32],
    bounds: &[u64],
    function: usize,
) -> Result<u64, VerifyError>
    requires function { function < length facts.now.functions }
    requires named { IsNamed facts.now function }
    requires table { IsTable facts.now table.now }
    requires deep { (g a : ℕ) (p : Pair)
        → SeenCall facts.now (table_marks table.now) function g a p
        → params_of facts.now g ≤ length p.ops }
    requires many { length heights.now ≡ suc (length table.now.tops) }
    requires heights { (n : ℕ) → n ≤ length table.now.tops
        → get_or heights.now n 0 ≡ length (stack table.now.tops n) }
    requires sized { length bounds.now ≡ length facts.now.functions }
    requires low { (g : ℕ) → get_or bounds.now g 0 ≤ facts.now.stack }
    ensures most { IfOk result (IsMost facts.now (table_marks table.now) bounds.now function) }
    ensures fault { IfErr result
        (BlamesDeep facts.now (table_marks table.now) bounds.now function) }
{
    let image = facts.image();
    let (entry, end) = facts.stretch(function);
    let mut most = 0;
    for at in entry..end {
        if let Some((ops, _)) = table.cells[at] {
            let height = heights[ops as usize];
            let here = words_needed_at(facts, bounds, function, image.code[at].instr, height);
            if here > image.stack as u64 {
                return Err(VerifyError::Refused { at: 0, rule: 11 });
            }
            most = here.max(most);
        }
    }
    Ok(most)
}

/// Finds how many words the functions of this rank need, of which those of lower ranks have their
/// bounds.
fn bound_rank(
    facts: &Facts,
    ranks: &[usize],
    table: &Table,
    heights: &[u32],
    bounds: &mut [u64],
    rank: usize,
) -> Result<(), VerifyError>
    requires named { (f : ℕ) → IsNamed facts.now f }
    requires ranked { IsRanked facts.now ranks.now }
    requires table { IsTable facts.now table.now }
    requires examined { IsExamined facts.now (table_marks table.now) }
    requires many { length heights.now ≡ suc (length table.now.tops) }
    requires heights { (n : ℕ) → n ≤ length table.now.tops
        → get_or heights.now n 0 ≡ length (stack table.now.tops n) }
    requires bounded { AreBounded facts.now (table_marks table.now)
        (bounded_by (length facts.now.functions) ranks.now rank 0) bounds.old }
    ensures bounded { OnOk result (AreBounded facts.now (table_marks table.now)
        (bounded_by (length facts.now.functions) ranks.now (rank + 1) 0) bounds.new) }
    ensures blames { IfErr result (Blames facts.now) }
{
    for function in 0..facts.image().functions.len() {
        if ranks[function] == rank {
            bounds[function] = words_needed(facts, table, heights, bounds, function)?;
        }
    }
    Ok(())
}

/// Refuses an image whose stack has no room for all that functions need.
pub fn check_room(
    alloc: Global,
    facts: &Facts,
    ranks: &[usize],
    table: &Table,
) -> Result<(), VerifyError>
    requires named { (f : ℕ) → IsNamed facts.now f }
    requires ranked { IsRanked facts.now ranks.now }
    requires table { IsTable facts.now table.now }
    requires examined { IsExamined facts.now (table_marks table.now) }
    ensures room { OnOk result ((bound : ℕ → ℕ)
        × HasRoom facts.now (table_marks table.now) bound) }
    ensures blames { IfErr result (Blames facts.now) }
{
    let count = facts.image().functions.len();
    let heights = heights(alloc, &table.tops)?;
    let mut bounds = vec![in alloc; 0u64; count]?;
    for rank in 0..count + 1 {
        bound_rank(facts, ranks, table, &heights, &mut bounds, rank)?;
    }
    Ok(())
}
