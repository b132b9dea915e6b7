//! Which kinds the parameters of functions have.
ghost use Rattle.std.specs.Prelude.{
  ◌≡◌,
  ◌≤◌,
  ◌<◌,
  ◌^◌,
  ◌==◌,
  ℕ,
  List,
  [],
  Some,
  None,
  Bool,
  true,
  false,
  length,
  map,
  not,
  option_map,
  replicate,
  slice_get,
  slice_set,
  take,
  IfErr,
  IfOk,
  IfSome,
  OnOk,
};
ghost use Rattle.std.specs.BTreeSet.{Updates, contains};
ghost use Rattle.std.specs.List.{All};
ghost use Rattle.std.specs.Ordering.{nat_cmp};
ghost use Rattle.oc_isa.specs.declared.instr.Placed.{Placed};
ghost use Rattle.oc_tree.specs.Reach.{linked};
ghost use Rattle.oc_verify.specs.Reading.{greatest};
ghost use Rattle.oc_verify.specs.declared.fault.VerifyError.TheVariants as errors;
ghost use Rattle.oc_verify.specs.Blames.{Blames, BlamesIn};
ghost use Rattle.oc_verify.specs.Facts.{IsNamed, IsRanked};
ghost use Rattle.oc_verify.specs.Merging as merging;
ghost use Rattle.oc_verify.specs.Own.{own_list};
ghost use Rattle.oc_verify.specs.Rules.{
  calls_of,
  code_at,
  main_number,
  own_slots,
  params_of,
  slot_right,
};
ghost use Rattle.oc_verify.specs.Stacks.{kind_limit, stack};
ghost use Rattle.oc_verify.specs.Tables.{
  BlamesMixed,
  BlamesSlot,
  Calls,
  IsDone,
  IsExamined,
  IsNext,
  IsPassed,
  Joins,
  KeepsOthers,
  Mixes,
  MixesWith,
  SeenCall,
  call_number,
  codes_of,
  is_walked,
  own_marks,
  passed_seen,
  plain_slots,
  with_calls,
  with_done,
};
ghost use Rattle.oc_verify.specs.Told.{kind_of, kinds};
ghost use Rattle.oc_verify.specs.Typing.{Pair};
ghost use Rattle.oc_verify.specs.Walks.{IsTable, table_marks};
ghost use Rattle.oc_verify.specs.Work.{IsWork};

use crate::facts::Facts;
use crate::fault::VerifyError;
use crate::slots::{Slots, is_plain_right};
use crate::stacks::Stacks;
use crate::walk::{Table, Walk};
use oc_isa::instr::Instr;
use std::alloc::{AllocError, Global};
use std::collections::BTreeSet;

/// The least of two kinds, by their numbers; none where a number meets a place.
fn least(left: u64, right: u64) -> Option<u64>
    requires { left < kind_limit }
    ensures least { option_map kind_of result ≡ merging.least (kind_of left) (kind_of right) }
    ensures small { IfSome result (λ c. c < kind_limit) }
{
    if (left == 0) == (right == 0) {
        Some(left.min(right))
    } else {
        None
    }
}

/// The kinds of the topmost words.
fn topmost_kinds(
    alloc: Global,
    tops: &Stacks,
    count: u32,
    ops: u32,
) -> Result<Vec<u64>, VerifyError>
    requires ops { ops ≤ length tops.now }
    requires deep { count ≤ length (stack tops.now ops) }
    ensures top { IfOk result (λ c. c.items ≡ take count (stack tops.now ops)) }
    ensures fault { IfErr result (λ e. e ≡ errors.Memory) }
{
    let mut codes = Vec::new(alloc);
    let mut rest = ops;
    for _done in 0..count {
        let Some((code, below)) = tops.top(rest) else {
            return Err(VerifyError::Memory);
        };
        if codes.push(code).is_err() {
            return Err(VerifyError::Memory);
        }
        rest = below;
    }
    Ok(codes)
}

/// The least of these kinds and of the topmost words.
fn merge_top(alloc: Global, tops: &Stacks, codes: &[u64], ops: u32) -> Result<Vec<u64>, VerifyError>
    requires ops { ops ≤ length tops.now }
    requires deep { length codes.now ≤ length (stack tops.now ops) }
    requires small { All (λ c. c < kind_limit) codes.now }
    ensures least { IfOk result (λ c. merging.leasts (map kind_of codes.now) (kinds tops.now ops)
        ≡ Some (map kind_of c.items)) }
    ensures sized { IfOk result (λ c. length c.items ≡ length codes.now) }
    ensures small { IfOk result (λ c. All (λ c. c < kind_limit) c.items) }
    ensures fault { IfErr result (Mixes (map kind_of codes.now) (kinds tops.now ops)) }
{
    let mut both = Vec::new(alloc);
    let mut rest = ops;
    for code in codes {
        let Some((other, below)) = tops.top(rest) else {
            return Err(VerifyError::Memory);
        };
        let Some(one) = least(*code, other) else {
            return Err(VerifyError::Refused { at: 0, rule: 6 });
        };
        if both.push(one).is_err() {
            return Err(VerifyError::Memory);
        }
        rest = below;
    }
    Ok(both)
}

/// The kinds that were passed to each function, or that no call of it was seen.
pub type Passed = Vec<Option<Vec<u64>>>;

/// The kinds of a function behind one call more.
fn join_call(
    alloc: Global,
    facts: &Facts,
    tops: &Stacks,
    passed: &Passed,
    callee: usize,
    ops: u32,
) -> Result<Vec<u64>, VerifyError>
    requires function { callee < length facts.now.functions }
    requires callee { callee < length passed.now.items }
    requires ops { ops ≤ length tops.now }
    requires deep { params_of facts.now callee ≤ length (stack tops.now ops) }
    requires sized { (cs : List ℕ) → slice_get (passed_seen passed.now.items) callee
        ≡ Some (Some cs) → length cs ≡ params_of facts.now callee }
    requires small { (cs : List ℕ) → slice_get (passed_seen passed.now.items) callee
        ≡ Some (Some cs) → All (λ c. c < kind_limit) cs }
    ensures joins { IfOk result (λ c. Joins (params_of facts.now callee)
        (passed_seen passed.now.items) callee (kinds tops.now ops)
        (slice_set (passed_seen passed.now.items) callee (Some c.items))) }
    ensures fault { IfErr result (MixesWith (slice_get (passed_seen passed.now.items) callee)
        (take (params_of facts.now callee) (kinds tops.now ops))) }
{
    match &passed[callee] {
        Some(codes) => {
            let both = merge_top(alloc, tops, codes, ops)?;
            Ok(both)
        }
        None => {
            let first = topmost_kinds(alloc, tops, facts.params(callee), ops)?;
            Ok(first)
        }
    }
}

/// The kinds at a call of a function.
fn pass(
    alloc: Global,
    facts: &Facts,
    tops: &Stacks,
    passed: &mut Passed,
    callee: usize,
    ops: u32,
) -> Result<(), VerifyError>
    requires function { callee < length facts.now.functions }
    requires callee { callee < length passed.old.items }
    requires ops { ops ≤ length tops.now }
    requires deep { params_of facts.now callee ≤ length (stack tops.now ops) }
    requires sized { (cs : List ℕ) → slice_get (passed_seen passed.old.items) callee
        ≡ Some (Some cs) → length cs ≡ params_of facts.now callee }
    requires small { (cs : List ℕ) → slice_get (passed_seen passed.old.items) callee
        ≡ Some (Some cs) → All (λ c. c < kind_limit) cs }
    ensures joins { OnOk result (Joins (params_of facts.now callee)
        (passed_seen passed.old.items) callee (kinds tops.now ops)
        (passed_seen passed.new.items)) }
    ensures fault { IfErr result (MixesWith (slice_get (passed_seen passed.old.items) callee)
        (take (params_of facts.now callee) (kinds tops.now ops))) }
{
    let codes = join_call(alloc, facts, tops, passed, callee, ops)?;
    passed[callee] = Some(codes);
    Ok(())
}

/// Whether no call of this function with this stack was kept, which then is.
fn is_new(calls: &mut BTreeSet<u64>, callee: u32, ops: u32) -> Result<bool, VerifyError>
    ensures kept { OnOk result
        (Updates nat_cmp calls.old calls.new (call_number callee ops) true) }
    ensures new { IfOk result
        (λ b. b ≡ not (contains nat_cmp calls.old (call_number callee ops))) }
    ensures small { ops < 2 ^ 32 }
    ensures fault { IfErr result (λ e. e ≡ errors.Memory) }
{
    match calls.insert(callee as u64 * 4294967296 + ops as u64) {
        Ok(is_new) => Ok(is_new),
        Err(_) => Err(VerifyError::Memory),
    }
}

/// The kinds at all calls in the code of a function that was walked through.
fn pass_all(
    alloc: Global,
    facts: &Facts,
    table: &Table,
    passed: &mut Passed,
    function: usize,
) -> Result<(), VerifyError>
    requires function { function < length facts.now.functions }
    requires named { IsNamed facts.now function }
    requires table { IsTable facts.now table.now }
    requires deep { (g a : ℕ) (p : Pair)
        → SeenCall facts.now (table_marks table.now) function g a p
        → params_of facts.now g ≤ length p.ops }
    requires passed { (seen : Calls)
        × IsPassed facts.now seen (table_marks table.now) (passed_seen passed.old.items) }
    ensures passed { OnOk result ((seen : Calls)
        → IsPassed facts.now seen (table_marks table.now) (passed_seen passed.old.items)
        → IsPassed facts.now (with_calls seen function (length facts.now.code))
        (table_marks table.now) (passed_seen passed.new.items)) }
    ensures kept { OnOk result ((k : ℕ) → linked (calls_of facts.now) function k ≡ false
        → slice_get (passed_seen passed.new.items) k
        ≡ slice_get (passed_seen passed.old.items) k) }
    ensures fault { IfErr result (BlamesMixed facts.now function (table_marks table.now)
        (passed_seen passed.old.items)) }
{
    let image = facts.image();
    let (entry, end) = facts.stretch(function);
    let mut calls = BTreeSet::new(alloc);
    for at in entry..end {
        if let Some((ops, _)) = table.cells[at] {
            if let Instr::Call { f } = image.code[at].instr {
                if is_new(&mut calls, f, ops)? {
                    pass(alloc, facts, &table.tops, passed, f as usize, ops)?;
                }
            }
        }
    }
    Ok(())
}

/// Refuses slots in the code of a function that it doesn't have.
fn check_slots(facts: &Facts, slots: &Slots, function: usize) -> Result<(), VerifyError>
    requires function { function < length facts.now.functions }
    ensures right { OnOk result ((a : ℕ) (x : Placed) → code_at facts.now function a ≡ Some x
        → slot_right (own_list slots.now) x.instr ≡ true) }
    ensures fault { IfErr result (BlamesSlot facts.now function (own_list slots.now)) }
{
    let image = facts.image();
    let (entry, end) = facts.stretch(function);
    for at in entry..end {
        if !slots.is_right(image.code[at].instr) {
            return Err(VerifyError::Refused {
                at: at as u32,
                rule: 3,
            });
        }
    }
    Ok(())
}

/// Refuses slots in the code of a function that nothing calls that it doesn't have.
fn check_uncalled(facts: &Facts, function: usize) -> Result<(), VerifyError>
    requires function { function < length facts.now.functions }
    requires other { (function == main_number facts.now) ≡ false }
    ensures right { OnOk result ((a : ℕ) (x : Placed) → code_at facts.now function a ≡ Some x
        → slot_right (plain_slots facts.now function) x.instr ≡ true) }
    ensures fault { IfErr result (BlamesSlot facts.now function (plain_slots facts.now function)) }
{
    let image = facts.image();
    let (entry, end) = facts.stretch(function);
    for at in entry..end {
        if !is_plain_right(&image.functions[function], image.code[at].instr) {
            return Err(VerifyError::Refused {
                at: at as u32,
                rule: 3,
            });
        }
    }
    Ok(())
}

/// The kinds of a function's parameters, of which each is a number where no call was seen.
fn codes_of(
    alloc: Global,
    facts: &Facts,
    passed: &Passed,
    function: usize,
) -> Result<Vec<u64>, AllocError>
    requires function { function < length facts.now.functions }
    requires passed { function < length passed.now.items }
    requires sized { (cs : List ℕ) → slice_get (passed_seen passed.now.items) function
        ≡ Some (Some cs) → length cs ≡ params_of facts.now function }
    requires small { (cs : List ℕ) → slice_get (passed_seen passed.now.items) function
        ≡ Some (Some cs) → All (λ c. c < kind_limit) cs }
    ensures codes { IfOk result
        (λ c. c.items ≡ codes_of facts.now (passed_seen passed.now.items) function) }
    ensures sized { IfOk result (λ c. length c.items ≡ params_of facts.now function) }
    ensures few { IfOk result (λ c. length c.items ≤ greatest) }
    ensures small { IfOk result (λ c. All (λ c. c < kind_limit) c.items) }
{
    let params = facts.params(function);
    match &passed[function] {
        Some(codes) => {
            let copy = Vec::from_slice(alloc, codes)?;
            Ok(copy)
        }
        None => {
            let zeros = vec![in alloc; 0u64; params as usize]?;
            Ok(zeros)
        }
    }
}

/// Whether a function is `main`, or a call of it was seen.
fn is_walked(facts: &Facts, passed: &Passed, function: usize) -> bool
    requires { function < length passed.now.items }
    ensures { result ≡ is_walked facts.now (passed_seen passed.now.items) function }
{
    facts.is_main(function) || passed[function].is_some()
}

/// Walks through the code of a function that has these slots.
fn walk_through(
    alloc: Global,
    facts: &Facts,
    slots: &Slots,
    table: &mut Table,
    function: usize,
) -> Result<(), VerifyError>
    requires function { function < length facts.now.functions }
    requires slots { own_list slots.now ≡ own_slots facts.now function
        (map kind_of slots.now.codes) }
    requires named { IsNamed facts.now function }
    requires table { IsTable facts.now table.old }
    requires blank { (a : ℕ) (x : Placed) → code_at facts.now function a ≡ Some x
        → table_marks table.old a ≡ None }
    ensures table { OnOk result (IsTable facts.now table.new) }
    ensures work { OnOk result (IsWork facts.now function (map kind_of slots.now.codes)
        (own_marks facts.now function (table_marks table.new)) []) }
    ensures others { OnOk result (KeepsOthers facts.now function
        (table_marks table.old) (table_marks table.new)) }
    ensures blames { IfErr result (BlamesIn facts.now function (map kind_of slots.now.codes)) }
{
    Walk::new(facts, function, slots).run(alloc, table)
}

/// Walks through the code of a function whose callers were walked through before.
fn examine(
    alloc: Global,
    facts: &Facts,
    table: &mut Table,
    passed: &mut Passed,
    function: usize,
) -> Result<(), VerifyError>
    requires function { function < length facts.now.functions }
    requires named { (f : ℕ) → IsNamed facts.now f }
    requires ranked { (ranks : List ℕ) × IsRanked facts.now ranks }
    requires table { IsTable facts.now table.old }
    requires done { (done : ℕ → Bool) × IsNext facts.now done function
        × IsDone facts.now done (table_marks table.old) (passed_seen passed.old.items) }
    ensures table { OnOk result (IsTable facts.now table.new) }
    ensures done { OnOk result ((done : ℕ → Bool) → IsNext facts.now done function
        → IsDone facts.now done (table_marks table.old) (passed_seen passed.old.items)
        → IsDone facts.now (with_done done function) (table_marks table.new)
        (passed_seen passed.new.items)) }
    ensures blames { IfErr result (Blames facts.now) }
{
    let image = facts.image();
    if !is_walked(facts, passed, function) {
        check_uncalled(facts, function)?;
        return Ok(());
    }
    let codes = codes_of(alloc, facts, passed, function)?;
    let main = facts.is_main(function);
    let slots = Slots::new(alloc, main, &image.functions[function], &codes)?;
    check_slots(facts, &slots, function)?;
    walk_through(alloc, facts, &slots, table, function)?;
    pass_all(alloc, facts, table, passed, function)?;
    Ok(())
}

/// The table in which nothing was looked at.
fn blank(alloc: Global, facts: &Facts) -> Result<Table, AllocError>
    ensures table { IfOk result (λ t. IsTable facts.now t) }
    ensures blank { IfOk result (λ t. (a : ℕ) → table_marks t a ≡ None) }
{
    let size = facts.image().code.len();
    Ok(Table {
        tops: Stacks::new(alloc),
        regions: Stacks::new(alloc),
        cells: vec![in alloc; None; size]?,
    })
}

/// No calls were seen of so many functions.
fn none_passed(alloc: Global, count: usize) -> Result<Passed, AllocError>
    ensures { IfOk result (λ p. passed_seen p.items ≡ replicate count None) }
{
    let mut passed = Vec::new(alloc);
    for _function in 0..count {
        passed.push(None)?;
    }
    Ok(passed)
}

/// Walks through the code of all functions, callers first.
pub fn examine_all(alloc: Global, facts: &Facts, ranks: &[usize]) -> Result<Table, VerifyError>
    requires named { (f : ℕ) → IsNamed facts.now f }
    requires ranked { IsRanked facts.now ranks.now }
    ensures table { IfOk result (λ t. IsTable facts.now t) }
    ensures examined { IfOk result (λ t. IsExamined facts.now (table_marks t)) }
    ensures blames { IfErr result (Blames facts.now) }
{
    let count = facts.image().functions.len();
    let mut table = blank(alloc, facts)?;
    let mut passed = none_passed(alloc, count)?;
    for above in 0..count + 1 {
        for function in 0..count {
            if ranks[function] + above == count {
                examine(alloc, facts, &mut table, &mut passed, function)?;
            }
        }
    }
    Ok(table)
}
