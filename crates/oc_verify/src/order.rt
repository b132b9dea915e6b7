//! Which functions call which.
ghost use Rattle.std.specs.Prelude.{◌≡◌, ◌<◌, ◌≤◌, ◌+◌, ◌++◌, ℕ, length, nat_lt, slice_get, true, IfErr, IfOk, OnOk};
ghost use Rattle.std.proofs.Math.ListN.{get_or};
ghost use Rattle.oc_isa.specs.Image.{parts_of};
ghost use Rattle.oc_reach.specs.Marked.{is_in};
ghost use Rattle.oc_reach.specs.Within.{IsWithin};
ghost use Rattle.oc_tree.specs.Reach.{count_below, linked, one, reaches};
ghost use Rattle.oc_verify.specs.Blames.{Blames};
ghost use Rattle.oc_verify.specs.Facts.{IsNamed, IsRanked, goes_on};
ghost use Rattle.oc_verify.specs.declared.fault.VerifyError.TheVariants as errors;
ghost use Rattle.oc_verify.specs.Rules.{calls_of, link_from};

use crate::facts::Facts;
use crate::fault::VerifyError;
use oc_isa::image::{ImageFunction, RawImage};
use oc_isa::instr::Instr;
use oc_reach::marks::Marks;
use oc_reach::reach::Reach;
use std::alloc::{AllocError, Global};

/// The function whose code goes on at an address, behind the code of this one.
fn going_on(functions: &[ImageFunction], function: usize, at: usize) -> usize
    requires { function < 9223372036854775808 }
    ensures { result ≡ goes_on function at (slice_get functions.now (function + 1)) }
{
    match functions.get(function + 1) {
        Some(next) if next.entry as usize <= at => function + 1,
        _ => function,
    }
}

/// Adds the call that an instruction of a function is.
fn add_link(
    links: &mut Vec<(usize, usize)>,
    function: usize,
    instr: Instr,
) -> Result<(), AllocError>
    ensures { OnOk result (links.new.items ≡ links.old.items ++ link_from function instr) }
{
    if let Instr::Call { f } = instr {
        links.push((function, f as usize))?;
    }
    Ok(())
}

/// The calls, each from the function in whose code it stands.
fn links(alloc: Global, image: &RawImage) -> Result<Vec<(usize, usize)>, AllocError>
    ensures { IfOk result (λ l. l.items ≡ calls_of (parts_of image.now)) }
{
    let mut links = Vec::new(alloc);
    let mut function = 0;
    for (at, placed) in image.code.iter().enumerate() {
        function = going_on(&image.functions, function, at);
        add_link(&mut links, function, placed.instr)?;
    }
    Ok(links)
}

/// Marks a function and those that lead to it.
fn reaching(alloc: Global, reach: &Reach, function: usize) -> Result<Marks, AllocError>
    requires { function < reach.now.1 }
    ensures bound { IfOk result (λ m. m.1 ≡ reach.now.1) }
    ensures marked { IfOk result
        (λ m. (u : ℕ) → is_in m.0 u ≡ reaches reach.now.0 reach.now.1 u function) }
{
    let mut marks = Marks::new(alloc, reach.bound())?;
    marks.mark(function)?;
    let back = reach.mark_back(marks)?;
    Ok(back)
}

/// One more, where it is marked.
fn count_if(marked: bool, count: usize) -> usize
    requires { count < 9223372036854775808 }
    ensures { result ≡ one marked + count }
{
    if marked { count + 1 } else { count }
}

/// Counts one more for each function that is marked.
fn count_marked(marks: &Marks, ranks: &mut [usize])
    requires sized { length ranks.old ≡ marks.now.1 }
    requires few { (u : ℕ) → get_or ranks.old u 0 < 9223372036854775808 }
    ensures sized { length ranks.new ≡ marks.now.1 }
    ensures counted { (u : ℕ) → u < marks.now.1
        → get_or ranks.new u 0 ≡ one (is_in marks.now.0 u) + get_or ranks.old u 0 }
{
    for caller in 0..ranks.len() {
        let count = ranks[caller];
        ranks[caller] = count_if(marks.has(caller), count);
    }
}

/// How many functions each one reaches, of those below `count`, with itself.
fn ranks(alloc: Global, reach: &Reach) -> Result<Vec<usize>, AllocError>
    ensures sized { IfOk result (λ r. length r.items ≡ reach.now.1) }
    ensures ranks { IfOk result (λ r. (u : ℕ) → u < reach.now.1
        → get_or r.items u 0 ≡ count_below (reaches reach.now.0 reach.now.1 u) reach.now.1) }
{
    let count = reach.bound();
    let mut ranks = vec![in alloc; 0usize; count]?;
    for function in 0..count {
        let marks = reaching(alloc, reach, function)?;
        count_marked(&marks, &mut ranks);
    }
    Ok(ranks)
}

/// Whether a number falls along a link.
fn falls(ranks: &[usize], link: (usize, usize)) -> bool
    requires caller { link.0 < length ranks.now }
    requires callee { link.1 < length ranks.now }
    ensures { result ≡ nat_lt (get_or ranks.now link.1 0) (get_or ranks.now link.0 0) }
{
    ranks[link.1] < ranks[link.0]
}

/// Refuses links along which the number doesn't fall.
fn check_falls(links: &[(usize, usize)], ranks: &[usize]) -> Result<(), VerifyError>
    requires { IsWithin links.now (length ranks.now) }
    ensures falls { OnOk result ((u v : ℕ) → linked links.now u v ≡ true
        → get_or ranks.now v 0 < get_or ranks.now u 0) }
    ensures fault { IfErr result (λ e. (u : ℕ) × (v : ℕ) × (linked links.now u v ≡ true)
        × (get_or ranks.now u 0 ≤ get_or ranks.now v 0)
        × (e ≡ errors.Refused 0 7)) }
{
    for link in links {
        if !falls(ranks, *link) {
            return Err(VerifyError::Refused { at: 0, rule: 7 });
        }
    }
    Ok(())
}

/// A number for each function, which falls along every call: there is no circle of calls.
pub fn check_calls(alloc: Global, facts: &Facts) -> Result<Vec<usize>, VerifyError>
    requires { (f : ℕ) → IsNamed facts.now f }
    ensures ranked { IfOk result (λ r. IsRanked facts.now r.items) }
    ensures blames { IfErr result (Blames facts.now) }
{
    let image = facts.image();
    let links = links(alloc, image)?;
    let copy = Vec::from_slice(alloc, &links)?;
    let reach = Reach::new(alloc, image.functions.len(), copy)?;
    let ranks = ranks(alloc, &reach)?;
    check_falls(&links, &ranks)?;
    Ok(ranks)
}
