//! Instructions of a file.
ghost use Rattle.std.specs.Prelude.{◌≡◌, ◌≤◌, get_or};
ghost use Rattle.oc_verify.specs.Reading.{
  any_operand,
  binary_by,
  none_at,
  operands_at,
  placed_at,
  probe_at,
  probe_by,
  unary_by,
};
ghost use Rattle.oc_verify.specs.Reads as reads;

use crate::fault::ReadFault;
use crate::reader::Reader;
use oc_isa::instr::{BinOp, Instr, Placed, ProbeKind};
use oc_tree::tree::UnaryOp;

const BINARY: [BinOp; 11] = [
    BinOp::Add,
    BinOp::Sub,
    BinOp::Mul,
    BinOp::Div,
    BinOp::Rem,
    BinOp::Eq,
    BinOp::Ne,
    BinOp::Lt,
    BinOp::Le,
    BinOp::Gt,
    BinOp::Ge,
];

const UNARY: [UnaryOp; 2] = [UnaryOp::Neg, UnaryOp::Not];

const PROBES: [ProbeKind; 3] = [ProbeKind::Use, ProbeKind::Done, ProbeKind::Tag];

/// What stands at this place of a table, or what stands for all others.
fn nth<T: Copy>(table: &[T], number: u32, other: T) -> T
    ensures { result ≡ get_or table.now number other }
{
    match table.get(number as usize) {
        Some(found) => *found,
        None => other,
    }
}

/// The operator on two words with this number; `ge` for any number behind the last.
fn binary_of(number: u32) -> BinOp
    ensures { result ≡ binary_by number }
{
    nth(&BINARY, number, BinOp::Ge)
}

/// The operator on one word with this number; `not` for any number behind the last.
fn unary_of(number: u32) -> UnaryOp
    ensures { result ≡ unary_by number }
{
    nth(&UNARY, number, UnaryOp::Not)
}

/// What a probe with this number reports; `tag` for any number behind the last.
fn probe_of(number: u32) -> ProbeKind
    ensures { result ≡ probe_by number }
{
    nth(&PROBES, number, ProbeKind::Tag)
}

/// The instruction of a kind that has just one operand, which may be any number.
fn instr_with(kind: u32, operand: u32) -> Instr
    ensures { result ≡ reads.instr_with kind operand }
{
    match kind {
        1 => Instr::Push {
            c: operand.cast_signed(),
        },
        2 => Instr::Load { s: operand },
        3 => Instr::Store { s: operand },
        4 => Instr::Nload { a: operand },
        5 => Instr::Nstore { a: operand },
        6 => Instr::Addr { s: operand },
        7 => Instr::Naddr { a: operand },
        10 => Instr::Index { n: operand },
        13 => Instr::Jump { t: operand },
        14 => Instr::Jfalse { t: operand },
        15 => Instr::Call { f: operand },
        16 => Instr::Ret { k: operand },
        17 => Instr::Retv { k: operand },
        19 => Instr::Sense { s: operand },
        20 => Instr::Emit { p: operand },
        22 => Instr::Enter { r: operand },
        _ => Instr::Commit { r: operand },
    }
}

impl<'a> Reader<'a> {
    /// What a probe reports, and its statement.
    fn probe(&mut self) -> Result<Instr, ReadFault>
        ensures { reads.Reads (λ x. x) result self.new (probe_at self.old) }
    {
        let kind = self.number(0, 2)?;
        let n = self.any()?;
        Ok(Instr::Probe {
            kind: probe_of(kind),
            n,
        })
    }

    /// An instruction without operands.
    fn bare(&mut self, instr: Instr) -> Result<Instr, ReadFault>
        ensures { reads.Reads (λ x. x) result self.new (none_at instr self.old) }
    {
        self.skip_unused()?;
        Ok(instr)
    }

    /// An instruction of a kind that has just one operand, which may be any number.
    fn with_operand(&mut self, kind: u32) -> Result<Instr, ReadFault>
        ensures { reads.Reads (λ x. x) result self.new
            (any_operand (reads.instr_with kind) self.old) }
    {
        let operand = self.operand(u32::MAX)?;
        Ok(instr_with(kind, operand))
    }

    /// The instruction of this kind, by its operands.
    fn operands(&mut self, kind: u32) -> Result<Instr, ReadFault>
        requires least { 1 ≤ kind }
        requires greatest { kind ≤ 24 }
        ensures { reads.Reads (λ x. x) result self.new (operands_at kind self.old) }
    {
        match kind {
            8 => self.bare(Instr::Get),
            9 => self.bare(Instr::Put),
            11 => Ok(Instr::Bin {
                op: binary_of(self.operand(10)?),
            }),
            12 => Ok(Instr::Un {
                op: unary_of(self.operand(1)?),
            }),
            18 => self.bare(Instr::Drop),
            21 => self.probe(),
            24 => self.bare(Instr::Halt),
            _ => self.with_operand(kind),
        }
    }

    /// An instruction with its site.
    pub fn read_placed(&mut self) -> Result<Placed, ReadFault>
        ensures { reads.Reads (λ x. x) result self.new (placed_at self.old) }
    {
        let kind = self.number(1, 24)?;
        let site = self.any()?;
        let instr = self.operands(kind)?;
        Ok(Placed { instr, site })
    }
}
