//! The regions by the statements with which they begin and end.
ghost use Rattle.std.specs.Prelude.{◌≡◌, ◌<◌, ◌==◌, ℕ, Some, None, cond, length, map, OnOk, IfOk};
ghost use Rattle.std.specs.Option.{option_or};
ghost use Rattle.std.proofs.Math.ListN.{get_or};
ghost use Rattle.oc_tree.specs.Regions.{region_view};
ghost use Rattle.oc_meaning.specs.Exec.{begun_by, ended_by};

use oc_tree::marked::Region;
use oc_tree::tree::StmtId;
use std::alloc::{AllocError, Global};

/// The region that a table has at a statement.
pub fn region_at(table: &[Option<u32>], n: StmtId) -> Option<u32>
    ensures { result ≡ get_or table.now n None }
{
    let place = n as usize;
    if place < table.len() {
        table[place]
    } else {
        None
    }
}

/// Makes a table longer, so that it has this place.
#[tactic(auto, using(crate::proofs::Tables::longer))]
fn reach(table: &mut Vec<Option<u32>>, place: usize) -> Result<(), AllocError>
    ensures long { OnOk result (place < length table.new.items) }
    ensures same { OnOk result
        ((n : ℕ) → get_or table.new.items n None ≡ get_or table.old.items n None) }
{
    while table.len() <= place {
        table.push(None)?;
    }
    Ok(())
}

/// Notes a region at a statement, unless one is noted there.
#[tactic(auto, using(crate::proofs::Tables::noted))]
fn note(table: &mut Vec<Option<u32>>, s: StmtId, region: u32) -> Result<(), AllocError>
    ensures { OnOk result ((n : ℕ) → get_or table.new.items n None
        ≡ option_or (get_or table.old.items n None) (cond (n == s) (Some region) None)) }
{
    let place = s as usize;
    reach(table, place)?;
    table[place] = table[place].or(Some(region));
    Ok(())
}

/// The regions at the statements with which they begin.
#[tactic(auto, using(crate::proofs::Tables::noted_step, crate::proofs::Tables::or_none))]
pub fn begin_table(alloc: Global, regions: &[Region]) -> Result<Vec<Option<u32>>, AllocError>
    ensures { IfOk result (λ t. (n : ℕ)
        → get_or t.items n None ≡ begun_by (map region_view regions.now) n) }
{
    let mut table = Vec::new(alloc);
    for region in regions {
        note(&mut table, region.range.first, region.id)?;
    }
    Ok(table)
}

/// The regions at the statements with which they end.
#[tactic(auto, using(crate::proofs::Tables::noted_step, crate::proofs::Tables::or_none))]
pub fn end_table(alloc: Global, regions: &[Region]) -> Result<Vec<Option<u32>>, AllocError>
    ensures { IfOk result (λ t. (n : ℕ)
        → get_or t.items n None ≡ ended_by (map region_view regions.now) n) }
{
    let mut table = Vec::new(alloc);
    for region in regions {
        note(&mut table, region.range.last, region.id)?;
    }
    Ok(table)
}
