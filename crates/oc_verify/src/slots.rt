//! The slots of a function.
ghost use Rattle.std.specs.Prelude.{
  ◌≡◌,
  ◌≤◌,
  ◌<◌,
  ◌+◌,
  Some,
  false,
  length,
  map,
  option_map,
  IfOk,
  IfSome,
};
ghost use Rattle.std.specs.List.{All};
ghost use Rattle.oc_verify.specs.Own.{
  in_frame,
  own_list,
  plain_right,
  plain_slot,
  runs_of,
  slot_kind,
};
ghost use Rattle.oc_verify.specs.Reading.{greatest};
ghost use Rattle.oc_verify.specs.Rules.{more, number_slot, run, slot, slot_right};
ghost use Rattle.oc_verify.specs.Stacks.{kind_limit};
ghost use Rattle.oc_verify.specs.Told.{IsJudgment, kind_of};
ghost use Rattle.oc_verify.specs.Typing.{level};
ghost use Rattle.oc_verify.specs.declared.kind.Kind.TheVariants as kinds;

use crate::fault::Fault;
use oc_io::Memory;
use oc_isa::image::ImageFunction;
use oc_isa::instr::Instr;
use std::alloc::{AllocError, Global};
use std::marker::Model;

/// How many numbers follow each other from a parameter of this kind on, where so many follow behind
/// it.
fn run_from(code: u64, behind: u32) -> u32
    requires { behind < greatest }
    ensures run { result ≡ more (Some (kind_of code)) behind }
    ensures low { result ≤ behind + 1 }
{
    if code == 0 { behind + 1 } else { 0 }
}

/// How many numbers follow each other from each parameter on.
fn runs(alloc: Global, codes: &[u64]) -> Result<Vec<u32>, AllocError>
    requires { length codes.now ≤ greatest }
    ensures { IfOk result (λ r. r.items ≡ runs_of 0 (map kind_of codes.now)) }
{
    let mut runs = Vec::new(alloc);
    let mut run = 0u32;
    for code in codes {
        run = run_from(*code, run);
        runs.push(run)?;
    }
    Ok(runs)
}

/// The slots of a function, whose parameters have kinds by their numbers.
#[derive(Drop)]
pub struct Slots<'a> {
    main: bool,
    function: &'a ImageFunction,
    codes: &'a [u64],
    runs: Vec<u32>,
}

impl<'a> Model for Slots<'a> {
    ghost use Rattle.std.specs.Prelude.{◌≡◌, ◌<◌, false, length, map};
    ghost use Rattle.std.specs.List.{All};
    ghost use Rattle.oc_verify.specs.Own.{Own, runs_of};
    ghost use Rattle.oc_verify.specs.Stacks.{kind_limit};
    ghost use Rattle.oc_verify.specs.Told.{kind_of};

    ghost Value = { Own };

    ghost view = { λ s. record { main = s.main; function = s.function.now; codes = s.codes.now } };

    ghost invariant = { λ s. (s.runs.items ≡ runs_of 0 (map kind_of s.codes.now))
        × (s.main ≡ false → length s.codes.now ≡ s.function.now.params)
        × All (λ c. c < kind_limit) s.codes.now };
}

impl<'a> Slots<'a> {
    /// The slots of a function, which may be `main`.
    pub fn new(
        alloc: Global,
        main: bool,
        function: &'a ImageFunction,
        codes: &'a [u64],
    ) -> Result<Slots<'a>, AllocError>
        requires few { length codes.now ≤ greatest }
        requires sized { main ≡ false → length codes.now ≡ function.now.params }
        requires small { All (λ c. c < kind_limit) codes.now }
        ensures { IfOk result
            (λ s. s ≡ record { main = main; function = function.now; codes = codes.now }) }
    {
        let runs = runs(alloc, codes)?;
        Ok(Slots {
            main,
            function,
            codes,
            runs,
        })
    }

    /// A number, where a slot lies in the frame.
    fn in_frame(&self, slot: u32) -> Option<u64>
        ensures { result ≡ in_frame self.now slot }
    {
        if slot < self.function.frame {
            Some(0)
        } else {
            None
        }
    }

    /// The number of the kind of a slot, where it is one.
    fn code(&self, slot: u32) -> Option<u64>
        ensures kind { option_map kind_of result ≡ slot_kind (level (own_list self.now) slot) }
        ensures small { IfSome result (λ c. c < kind_limit) }
    {
        if self.main {
            return self.in_frame(slot);
        }
        let params = self.codes.len();
        let place = slot as usize;
        if place < params {
            return Some(self.codes[params - 1 - place]);
        }
        if place < params + 2 {
            return None;
        }
        self.in_frame(slot)
    }

    /// The number of the kind of a slot.
    pub fn kind(&self, place: u32) -> Result<u64, Fault>
        ensures exact { IsJudgment kind_of result (slot (level (own_list self.now) place)) }
        ensures small { IfOk result (λ c. c < kind_limit) }
    {
        match self.code(place) {
            Some(code) => Ok(code),
            None => Err(Fault::Broken { rule: 3 }),
        }
    }

    /// A slot may have to be a number.
    pub fn number(&self, slot: u32) -> Result<(), Fault>
        ensures exact { IsJudgment (λ u. kinds.Number) result
            (number_slot (level (own_list self.now) slot)) }
    {
        match self.code(slot) {
            Some(0) => Ok(()),
            _ => Err(Fault::Broken { rule: 3 }),
        }
    }

    /// How many numbers follow each other from this one on.
    pub fn run(&self, slot: u32) -> u32
        requires { level (own_list self.now) slot ≡ Some (Some kinds.Number) }
        ensures { result ≡ run (own_list self.now) slot 0 }
    {
        if self.main {
            return self.function.frame - slot;
        }
        let params = self.codes.len();
        let place = slot as usize;
        if place < params {
            return self.runs[params - 1 - place];
        }
        self.function.frame - slot
    }

    /// Whether the slot that an instruction names is there.
    pub fn is_right(&self, instr: Instr) -> bool
        ensures { result ≡ slot_right (own_list self.now) instr }
    {
        match instr {
            Instr::Load { s } => self.code(s).is_some(),
            Instr::Store { s } | Instr::Addr { s } => self.code(s) == Some(0),
            _ => true,
        }
    }
}

/// Whether a slot is there, where all parameters are numbers.
fn is_plain_slot(function: &ImageFunction, slot: u32) -> bool
    ensures { result ≡ plain_slot function.now slot }
{
    slot < function.params || (function.params as u64 + 2 <= slot as u64 && slot < function.frame)
}

/// Whether the slot that an instruction of a function other than `main` names is there, where
/// all parameters are numbers.
pub fn is_plain_right(function: &ImageFunction, instr: Instr) -> bool
    ensures { result ≡ plain_right function.now instr }
{
    match instr {
        Instr::Load { s } | Instr::Store { s } | Instr::Addr { s } => is_plain_slot(function, s),
        _ => true,
    }
}
