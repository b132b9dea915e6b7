//! The sets of the statements whose tags are told: each is looked for once.
ghost use Rattle.std.specs.Prelude.{◌≡◌, ◌==◌, ◌<◌, ℕ, length, Some, if◌then◌else◌, IfOk, OnOk};
ghost use Rattle.oc_tree.specs.View.{program_view};
ghost use Rattle.oc_items.specs.Told.{told_of};
ghost use Rattle.oc_honest.specs.Timely.{set_of};
ghost use Rattle.oc_judge.specs.Seeking.{AreFound, IsSetOf, found_for};

use crate::notes::set_of;
use oc_items::item::Item;
use oc_tree::tree::{Program, StmtId};
use std::alloc::AllocError;

/// What is known of a statement: nothing yet, or which set it annotates, if any.
pub type Found = Option<Option<(usize, i32)>>;

/// What was found for a statement, if it was looked for.
fn found_for(found: &[Found], n: StmtId) -> Found
    ensures { result ≡ found_for found.now n }
{
    match found.get(n as usize) {
        Some(known) => *known,
        None => None,
    }
}

/// Gives a statement an entry.
fn grow(found: &mut Vec<Found>, n: StmtId) -> Result<(), AllocError>
    ensures within { OnOk result (n < length found.new.items) }
    ensures same { OnOk result
        ((m : ℕ) → found_for found.new.items m ≡ found_for found.old.items m) }
{
    for _entry in found.len()..n as usize + 1 {
        found.push(None)?;
    }
    Ok(())
}

/// Keeps the set of a statement.
fn keep(found: &mut Vec<Found>, n: StmtId, set: Option<(usize, i32)>) -> Result<(), AllocError>
    ensures { OnOk result
        ((m : ℕ) → found_for found.new.items m
        ≡ (if n == m then Some set else found_for found.old.items m)) }
{
    grow(found, n)?;
    found[n as usize] = Some(set);
    Ok(())
}

/// The set that a statement annotates, which is looked for where that wasn't done yet.
fn seek(
    program: &Program,
    found: &mut Vec<Found>,
    n: StmtId,
) -> Result<Option<(usize, i32)>, AllocError>
    requires { AreFound (program_view program.now) found.old.items }
    ensures set { IfOk result (λ s. s ≡ set_of (program_view program.now) n) }
    ensures right { IfOk result (λ s. AreFound (program_view program.now) found.new.items) }
{
    match found_for(found, n) {
        Some(set) => Ok(set),
        None => {
            let set = set_of(program, n);
            keep(found, n, set)?;
            Ok(set)
        }
    }
}

/// The set of the statement whose tag an item is, where it is one.
pub fn find_set(
    program: &Program,
    found: &mut Vec<Found>,
    item: Item,
) -> Result<Option<(usize, i32)>, AllocError>
    requires { AreFound (program_view program.now) found.old.items }
    ensures set { IfOk result (λ s. IsSetOf (program_view program.now) (told_of item).said s) }
    ensures right { IfOk result (λ s. AreFound (program_view program.now) found.new.items) }
{
    match item {
        Item::Tag { stmt, .. } => seek(program, found, stmt),
        _ => Ok(None),
    }
}
