//! What an instruction makes of the kinds on the operand stack and of the open regions.
ghost use Rattle.std.specs.Prelude.{
  ◌≡◌,
  ◌≤◌,
  ◌<◌,
  [],
  ◌∷◌,
  length,
  true,
  Ok,
  IfOk,
  OnOk,
};
ghost use Rattle.oc_isa.specs.declared.instr.Instr.TheVariants.{Call};
ghost use Rattle.oc_verify.specs.Judging.{TellsStack, on_operands, on_regions};
ghost use Rattle.oc_verify.specs.Own.{own_list};
ghost use Rattle.oc_verify.specs.Rules.{judge, names_exist};
ghost use Rattle.oc_verify.specs.Stacks.{Grows, kind_limit, stack};
ghost use Rattle.oc_verify.specs.Told.{AreIn, IsJudgment, kind_of, kinds, pair_of};
ghost use Rattle.oc_verify.specs.declared.fault.Fault.TheVariants as faults;

use crate::facts::Facts;
use crate::fault::Fault;
use crate::slots::Slots;
use crate::stacks::Stacks;
use oc_io::Memory;
use oc_isa::instr::Instr;

impl From<Memory> for Fault {
    ghost from_gives = { λ _ f. f ≡ faults.Memory };

    fn from(_: Memory) -> Fault {
        Fault::Memory
    }
}

/// The kinds with one more on top.
fn put(tops: &mut Stacks, ops: u32, code: u64) -> Result<u32, Fault>
    requires ops { ops ≤ length tops.old }
    requires code { code < kind_limit }
    ensures { TellsStack tops.old tops.new result (Ok (kind_of code ∷ kinds tops.old ops)) }
{
    let after = tops.push(ops, code)?;
    Ok(after)
}

/// The kinds behind a call of a function.
fn called(tops: &mut Stacks, facts: &Facts, function: usize, ops: u32) -> Result<u32, Fault>
    requires ops { ops ≤ length tops.old }
    requires function { function < length facts.now.functions }
    ensures { TellsStack tops.old tops.new result
        (on_operands facts.now [] (Call function) (kinds tops.old ops)) }
{
    let rest = tops.drop_arguments(facts.params(function), ops)?;
    if facts.gives(function) {
        put(tops, rest, 0)
    } else {
        Ok(rest)
    }
}

/// The kinds behind an instruction in the code of the function `home`, which has these slots.
fn operands(
    tops: &mut Stacks,
    facts: &Facts,
    slots: &Slots,
    home: usize,
    instr: Instr,
    ops: u32,
) -> Result<u32, Fault>
    requires ops { ops ≤ length tops.old }
    requires names { names_exist facts.now home instr ≡ true }
    ensures { TellsStack tops.old tops.new result
        (on_operands facts.now (own_list slots.now) instr (kinds tops.old ops)) }
{
    match instr {
        Instr::Push { .. } | Instr::Sense { .. } | Instr::Nload { .. } => put(tops, ops, 0),
        Instr::Drop
        | Instr::Emit { .. }
        | Instr::Nstore { .. }
        | Instr::Jfalse { .. }
        | Instr::Retv { .. } => tops.number(ops),
        Instr::Bin { .. } => {
            let below = tops.number(ops)?;
            let rest = tops.number(below)?;
            put(tops, rest, 0)
        }
        Instr::Un { .. } => {
            let rest = tops.number(ops)?;
            put(tops, rest, 0)
        }
        Instr::Get => {
            let rest = tops.place(1, ops)?;
            put(tops, rest, 0)
        }
        Instr::Index { n } => {
            let below = tops.number(ops)?;
            let rest = tops.place(n, below)?;
            put(tops, rest, 2)
        }
        Instr::Put => {
            let below = tops.place(1, ops)?;
            tops.number(below)
        }
        Instr::Load { s } => {
            let kind = slots.kind(s)?;
            put(tops, ops, kind)
        }
        Instr::Store { s } => {
            slots.number(s)?;
            tops.number(ops)
        }
        Instr::Addr { s } => {
            slots.number(s)?;
            put(tops, ops, slots.run(s) as u64 + 1)
        }
        Instr::Naddr { a } => put(tops, ops, (facts.words() - a) as u64 + 1),
        Instr::Call { f } => called(tops, facts, f as usize, ops),
        Instr::Jump { .. }
        | Instr::Ret { .. }
        | Instr::Probe { .. }
        | Instr::Enter { .. }
        | Instr::Commit { .. }
        | Instr::Halt => Ok(ops),
    }
}

/// The regions that are open behind an instruction.
fn still_open(regions: &mut Stacks, instr: Instr, opens: u32) -> Result<u32, Fault>
    requires { opens ≤ length regions.old }
    ensures exact { IsJudgment (λ n. stack regions.new n) result
        (on_regions instr (stack regions.old opens)) }
    ensures within { IfOk result (λ n. n ≤ length regions.new) }
    ensures grows { OnOk result (Grows regions.old regions.new) }
{
    match instr {
        Instr::Ret { .. } | Instr::Retv { .. } | Instr::Halt => {
            regions.none_open(opens)?;
            Ok(opens)
        }
        Instr::Commit { r } => regions.closing(r, opens),
        Instr::Enter { r } => {
            let after = regions.push(opens, r as u64)?;
            Ok(after)
        }
        _ => Ok(opens),
    }
}

/// The pair behind an instruction in the code of the function `home`, which has these slots.
pub fn judge(
    tops: &mut Stacks,
    regions: &mut Stacks,
    facts: &Facts,
    slots: &Slots,
    home: usize,
    instr: Instr,
    pair: (u32, u32),
) -> Result<(u32, u32), Fault>
    requires pair { AreIn tops.old regions.old pair }
    requires names { names_exist facts.now home instr ≡ true }
    ensures exact { IsJudgment (pair_of tops.new regions.new) result
        (judge facts.now (own_list slots.now) instr (kinds tops.old pair.0)
        (stack regions.old pair.1)) }
    ensures within { IfOk result (AreIn tops.new regions.new) }
    ensures tops { OnOk result (Grows tops.old tops.new) }
    ensures regions { OnOk result (Grows regions.old regions.new) }
{
    let (ops, opens) = pair;
    let after = operands(tops, facts, slots, home, instr, ops)?;
    let open = still_open(regions, instr, opens)?;
    Ok((after, open))
}
