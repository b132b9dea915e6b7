//! The functions in an order in which each comes behind those that it calls.
ghost use Rattle.std.specs.Prelude.{◌≡◌, ◌<◌, ◌≤◌, ℕ, true, false, map, length, OnOk, IfOk, IfSome, IfNone};
ghost use Rattle.oc_tree.specs.Calls.{body_calls, call_links, called_places, function_names};
ghost use Rattle.oc_tree.specs.Reach.{rank};
ghost use Rattle.oc_tree.specs.View.{function_view};
ghost use Rattle.oc_reach.specs.Marked.{is_in, rows};
ghost use Rattle.oc_reach.specs.Views.{calls_seen};
ghost use Rattle.oc_reach.specs.Within.{IsWithin};
ghost use Rattle.oc_weight.specs.Order.{IsBegun, IsOrder, comes_back, row_links};

use oc_names::table::Table;
use oc_reach::marks::Marks;
use oc_reach::parts::body_calls;
use oc_tree::tree::{Call, Function};
use std::alloc::{AllocError, Global};

/// The places of the functions that these calls call, in their order. Err is want of memory.
fn called_places(alloc: Global, table: &Table, calls: &[&Call]) -> Result<Vec<usize>, AllocError>
    ensures { IfOk result (λ v. v.items ≡ called_places table.now (calls_seen calls.now)) }
{
    let mut places = Vec::new(alloc);
    for call in calls {
        if let Some(place) = table.place(&call.function) {
            places.push(place)?;
        }
    }
    Ok(places)
}

/// For each function those that it calls.
fn callees_of(
    alloc: Global,
    functions: &[Function],
    table: &Table,
) -> Result<Vec<Vec<usize>>, AllocError>
    ensures { IfOk result (λ r. rows r.items
        ≡ map (λ f. called_places table.now (body_calls f)) (map function_view functions.now)) }
{
    let mut callees = Vec::new(alloc);
    for function in functions {
        let calls = body_calls(alloc, function)?;
        let places = called_places(alloc, table, calls.as_slice())?;
        callees.push(places)?;
    }
    Ok(callees)
}

/// Marks a number behind those that it leads to; false where a way on from it has `depth` links.
fn mark_behind(
    callees: &[Vec<usize>],
    marks: &mut Marks,
    number: usize,
    depth: usize,
) -> Result<bool, AllocError>
    requires within { IsWithin (row_links 0 (rows callees.now)) (length callees.now) }
    requires number { number < length callees.now }
    requires bound { marks.old.1 ≡ length callees.now }
    requires begun { IsBegun (row_links 0 (rows callees.now)) (length callees.now) marks.old.0 }
    ensures bound { OnOk result (marks.new.1 ≡ marks.old.1) }
    ensures begun { OnOk result
        (IsBegun (row_links 0 (rows callees.now)) (length callees.now) marks.new.0) }
    ensures kept { OnOk result
        ((v : ℕ) → is_in marks.old.0 v ≡ true → is_in marks.new.0 v ≡ true) }
    ensures marked { IfOk result (λ b. b ≡ true → is_in marks.new.0 number ≡ true) }
    ensures deep { IfOk result
        (λ b. b ≡ false → comes_back (row_links 0 (rows callees.now)) (length callees.now) ≡ false
        → depth ≤ rank (row_links 0 (rows callees.now)) (length callees.now) number) }
{
    if marks.has(number) {
        return Ok(true);
    }
    if depth == 0 {
        return Ok(false);
    }
    for callee in &callees[number] {
        if !mark_behind(callees, marks, *callee, depth - 1)? {
            return Ok(false);
        }
    }
    marks.mark(number)?;
    Ok(true)
}

/// The functions, each behind those that it calls; none where one calls itself, directly or through
/// others.
pub fn callees_first(
    alloc: Global,
    functions: &[Function],
    table: &Table,
) -> Result<Option<Marks>, AllocError>
    requires { table.now ≡ function_names (map function_view functions.now) }
    ensures order { IfOk result (λ o. IfSome o
        (λ m. IsOrder (call_links (map function_view functions.now)) (length functions.now) m.0)) }
    ensures none { IfOk result (λ o. IfNone o
        (comes_back (call_links (map function_view functions.now)) (length functions.now)
        ≡ true)) }
{
    let callees = callees_of(alloc, functions, table)?;
    let mut marks = Marks::new(alloc, functions.len())?;
    for number in 0..functions.len() {
        if !mark_behind(callees.as_slice(), &mut marks, number, functions.len())? {
            return Ok(None);
        }
    }
    Ok(Some(marks))
}
