//! What is found out of an image before its code is walked through.
ghost use Rattle.std.specs.Prelude.{
  ◌≡◌,
  ◌<◌,
  ◌≤◌,
  ◌==◌,
  ℕ,
  false,
  length,
  map,
  IfErr,
  IfOk,
  OnOk,
};
ghost use Rattle.std.proofs.Math.ListN.{get_or};
ghost use Rattle.oc_tree.specs.Sizes.{word_limit};
ghost use Rattle.oc_isa.specs.Image.{parts_of};
ghost use Rattle.oc_isa.specs.declared.instr.Instr.TheVariants.{Enter};
ghost use Rattle.oc_verify.specs.declared.fault.VerifyError.TheVariants as errors;
ghost use Rattle.oc_verify.specs.Blames.{Blames};
ghost use Rattle.oc_verify.specs.Facts.{IsLaid, IsNamed, IsStretch, need, needs};
ghost use Rattle.oc_verify.specs.Rules.{
  end_at,
  gives,
  is_retv,
  main_from,
  main_number,
  names_exist,
  nv_words,
  params_of,
  returns_right,
};

use crate::fault::VerifyError;
use crate::layout::{counts_fit, is_laid_out, nv_words};
use oc_isa::image::{ImageFunction, RawImage};
use oc_isa::instr::Instr;
use oc_tree::said::Target;
use std::alloc::{AllocError, Global};
use std::marker::Model;

impl From<AllocError> for VerifyError {
    ghost from_gives = { λ _ e. e ≡ errors.Memory };

    fn from(_: AllocError) -> VerifyError {
        VerifyError::Memory
    }
}

/// Refuses an image whose functions lie wrong, that has too many names or words, or too great a
/// stack.
fn check_layout(image: &RawImage) -> Result<(), VerifyError>
    ensures laid { OnOk result (IsLaid (parts_of image.now)) }
    ensures blames { IfErr result (Blames (parts_of image.now)) }
{
    if !is_laid_out(image) {
        return Err(VerifyError::Refused { at: 0, rule: 1 });
    }
    if !counts_fit(image) {
        return Err(VerifyError::Refused { at: 0, rule: 3 });
    }
    if image.stack > 65536 {
        return Err(VerifyError::Refused { at: 0, rule: 11 });
    }
    Ok(())
}

/// The number of the function that is named `main`.
fn main_number(functions: &[ImageFunction]) -> usize
    ensures { result ≡ main_from 0 functions.now }
{
    for (number, function) in functions.iter().enumerate() {
        if function.name.is_main() {
            return number;
        }
    }
    functions.len()
}

/// Where the code of a function ends.
fn code_end(image: &RawImage, function: usize) -> usize
    requires { function < length (parts_of image.now).functions }
    ensures { result ≡ end_at (parts_of image.now).functions (length (parts_of image.now).code)
        function }
{
    if function + 1 < image.functions.len() {
        image.functions[function + 1].entry as usize
    } else {
        image.code.len()
    }
}

/// Whether an instruction returns with a result.
fn is_retv(instr: Instr) -> bool
    ensures { result ≡ is_retv instr }
{
    matches!(instr, Instr::Retv { .. })
}

/// Whether one of a function's instructions returns with a result, so that a call of it pushes a
/// number.
fn gives_result(image: &RawImage, function: usize) -> bool
    requires function { function < length (parts_of image.now).functions }
    requires laid { IsLaid (parts_of image.now) }
    ensures { result ≡ gives (parts_of image.now) function }
{
    let entry = image.functions[function].entry as usize;
    for at in entry..code_end(image, function) {
        if is_retv(image.code[at].instr) {
            return true;
        }
    }
    false
}

/// Of each function, whether a call of it pushes a number. Err is want of memory.
fn results(alloc: Global, image: &RawImage) -> Result<Vec<bool>, AllocError>
    requires { IsLaid (parts_of image.now) }
    ensures sized { IfOk result (λ r. length r.items ≡ length (parts_of image.now).functions) }
    ensures gives { IfOk result
        (λ r. (f : ℕ) → get_or r.items f false ≡ gives (parts_of image.now) f) }
{
    let mut results = Vec::new(alloc);
    for function in 0..image.functions.len() {
        results.push(gives_result(image, function))?;
    }
    Ok(results)
}

/// How many parameters a function must have to begin a region with this target.
fn words_taken(target: &Target) -> u64
    ensures { result ≡ need target.now }
{
    match *target {
        Target::Nv { .. } => 0,
        Target::Param { slot, .. } => slot as u64 + 1,
    }
}

/// How many parameters a function must have to begin a region with these targets.
fn needs(targets: &[Target]) -> u64
    ensures exact { result ≡ needs targets.now }
{
    let mut needs = 0;
    for target in targets {
        needs = words_taken(target).max(needs);
    }
    needs
}

/// Of each region, how many parameters a function must have to begin it. Err is want of memory.
fn all_needs(alloc: Global, regions: &[Vec<Target>]) -> Result<Vec<u64>, AllocError>
    ensures { IfOk result (λ n. n.items ≡ map needs (map (λ r. r.items) regions.now)) }
{
    let mut all = Vec::new(alloc);
    for targets in regions {
        all.push(needs(targets))?;
    }
    Ok(all)
}

/// An image that is laid out, which contracts see as its parts, with the number of `main`, the
/// number of its nonvolatile words, which functions give results, and what its regions need.
#[derive(Drop)]
pub struct Facts<'a> {
    image: &'a RawImage,
    main: usize,
    words: u32,
    results: Vec<bool>,
    needs: Vec<u64>,
}

impl<'a> Model for Facts<'a> {
    ghost use Rattle.oc_isa.specs.Image.{Parts, parts_of};
    ghost use Rattle.oc_verify.specs.Facts.{IsKnown};

    ghost Value = { Parts };

    ghost view = { λ f. parts_of f.image.now };

    ghost invariant = { λ f. IsKnown (parts_of f.image.now) f.main f.words f.results.items
        f.needs.items };
}

impl<'a> Facts<'a> {
    /// What is found out of an image.
    pub fn new(alloc: Global, image: &'a RawImage) -> Result<Facts<'a>, VerifyError>
        ensures image { IfOk result (λ f. f ≡ parts_of image.now) }
        ensures laid { IfOk result (λ f. IsLaid f) }
        ensures blames { IfErr result (Blames (parts_of image.now)) }
    {
        check_layout(image)?;
        let results = results(alloc, image)?;
        let needs = all_needs(alloc, &image.targets)?;
        Ok(Facts {
            image,
            main: main_number(&image.functions),
            words: nv_words(&image.nv) as u32,
            results,
            needs,
        })
    }

    /// The image.
    pub fn image(&self) -> &'a RawImage
        ensures image { parts_of result.now ≡ self.now }
        ensures laid { IsLaid self.now }
    {
        self.image
    }

    /// Whether a function is `main`.
    pub fn is_main(&self, function: usize) -> bool
        ensures { result ≡ (function == main_number self.now) }
    {
        function == self.main
    }

    /// How many nonvolatile words there are.
    pub fn words(&self) -> u32
        ensures words { result ≡ nv_words self.now }
        ensures few { result ≤ word_limit }
    {
        self.words
    }

    /// Whether a call of a function pushes a number.
    pub fn gives(&self, function: usize) -> bool
        requires { function < length self.now.functions }
        ensures { result ≡ gives self.now function }
    {
        self.results[function]
    }

    /// How many parameters a function has.
    pub fn params(&self, function: usize) -> u32
        requires { function < length self.now.functions }
        ensures { result ≡ params_of self.now function }
    {
        self.image.functions[function].params
    }

    /// Where the code of a function begins, and where it ends.
    pub fn stretch(&self, function: usize) -> (usize, usize)
        requires { function < length self.now.functions }
        ensures { IsStretch self.now function result }
    {
        (
            self.image.functions[function].entry as usize,
            code_end(self.image, function),
        )
    }

    /// Whether there is a region of this number, counted from 1, and the function has the
    /// parameters that it overwrites.
    fn region_fits(&self, function: usize, region: u32) -> bool
        requires { function < length self.now.functions }
        ensures { result ≡ names_exist self.now function (Enter region) }
    {
        if region == 0 || region as usize > self.needs.len() {
            return false;
        }
        self.needs[region as usize - 1] <= self.image.functions[function].params as u64
    }

    /// Whether what an instruction names exists, but for slots.
    fn names_exist(&self, function: usize, instr: Instr) -> bool
        requires { function < length self.now.functions }
        ensures { result ≡ names_exist self.now function instr }
    {
        match instr {
            Instr::Nload { a } | Instr::Nstore { a } | Instr::Naddr { a } => a < self.words,
            Instr::Index { n } => n >= 1,
            Instr::Jump { t } | Instr::Jfalse { t } => (t as usize) < self.image.code.len(),
            Instr::Call { f } => (f as usize) < self.image.functions.len(),
            Instr::Sense { s } => (s as usize) < self.image.names.sensors.len(),
            Instr::Emit { p } => (p as usize) < self.image.names.ports.len(),
            Instr::Enter { r } => self.region_fits(function, r),
            Instr::Commit { r } => r >= 1 && r as usize <= self.image.targets.len(),
            _ => true,
        }
    }

    /// Whether an instruction returns, or ends the run, as its function may.
    fn returns_right(&self, function: usize, instr: Instr) -> bool
        requires { function < length self.now.functions }
        ensures { result ≡ returns_right self.now function instr }
    {
        let params = self.params(function);
        match instr {
            Instr::Ret { k } => { !self.is_main(function) && k == params && !self.gives(function) }
            Instr::Retv { k } => !self.is_main(function) && k == params,
            Instr::Halt => self.is_main(function),
            _ => true,
        }
    }

    /// Refuses what the code of a function names and doesn't exist, and its wrong returns.
    pub fn check_names(&self, function: usize) -> Result<(), VerifyError>
        requires { function < length self.now.functions }
        ensures named { OnOk result (IsNamed self.now function) }
        ensures blames { IfErr result (Blames self.now) }
    {
        let (entry, end) = self.stretch(function);
        for at in entry..end {
            let instr = self.image.code[at].instr;
            if !self.names_exist(function, instr) {
                return Err(VerifyError::Refused {
                    at: at as u32,
                    rule: 3,
                });
            }
            if !self.returns_right(function, instr) {
                return Err(VerifyError::Refused {
                    at: at as u32,
                    rule: 8,
                });
            }
        }
        Ok(())
    }

    /// Refuses names and returns of all code.
    pub fn check_all_names(&self) -> Result<(), VerifyError>
        ensures named { OnOk result ((f : ℕ) → IsNamed self.now f) }
        ensures blames { IfErr result (Blames self.now) }
    {
        for function in 0..self.image.functions.len() {
            self.check_names(function)?;
        }
        Ok(())
    }
}
