//! Tables of statements by their numbers.
ghost use Rattle.std.specs.Prelude.{◌≡◌, ◌||◌, ◌<◌, ℕ, false, length, nat_eq, OnOk};
ghost use Rattle.std.proofs.Math.ListN.{get_or};

use oc_tree::tree::StmtId;
use std::alloc::AllocError;

/// Whether a statement is marked.
pub fn has(table: &[bool], s: StmtId) -> bool
    ensures { result ≡ get_or table.now s false }
{
    let place = s as usize;
    if place < table.len() {
        table[place]
    } else {
        false
    }
}

/// Makes a table longer, so that it has this place.
fn reach(table: &mut Vec<bool>, place: usize) -> Result<(), AllocError>
    ensures long { OnOk result (place < length table.new.items) }
    ensures same { OnOk result
        ((n : ℕ) → get_or table.new.items n false ≡ get_or table.old.items n false) }
{
    while table.len() <= place {
        table.push(false)?;
    }
    Ok(())
}

/// Marks a statement.
pub fn mark(table: &mut Vec<bool>, s: StmtId) -> Result<(), AllocError>
    ensures { OnOk result ((n : ℕ)
        → get_or table.new.items n false ≡ nat_eq s n || get_or table.old.items n false) }
{
    let place = s as usize;
    reach(table, place)?;
    table[place] = true;
    Ok(())
}
