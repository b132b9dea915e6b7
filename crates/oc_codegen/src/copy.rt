//! Copies of targets.
ghost use Rattle.std.specs.Prelude.{◌≡◌, map, IfOk};

use oc_tree::said::Target;
use oc_writes::WriteSets;
use std::alloc::{AllocError, Global};

/// What each region may overwrite.
pub fn copy_targets(alloc: Global, writes: &WriteSets) -> Result<Vec<Vec<Target>>, AllocError>
    ensures { IfOk result (λ t. map (λ v. v.items) t.items ≡ writes.now) }
{
    let mut all = Vec::new(alloc);
    for set in writes.sets() {
        let targets = Vec::from_slice(alloc, set.as_slice())?;
        all.push(targets)?;
    }
    Ok(all)
}
