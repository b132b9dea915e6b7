//! The executed blocks.
ghost use Rattle.std.specs.Prelude.{◌≡◌, ℕ, ◌<◌, ◌==◌, [], ◌∷◌, count_by, length, slice_index_or, OnErr, OnOk};

use oc_tree::tree::BlockId;
use std::alloc::{AllocError, Global};
use std::marker::Model;

/// The executed blocks, which contracts see newest first, and how often each was executed, by its
/// number.
#[derive(Drop)]
pub struct Executed {
    blocks: Vec<BlockId>,
    counts: Vec<u32>,
}

impl Model for Executed {
    ghost use Rattle.std.specs.Prelude.{ℕ, List, reverse};
    ghost use Rattle.oc_meaning.specs.Executed.{IsCounted};

    ghost Value = { List ℕ };

    ghost view = { λ e. reverse e.blocks.items };

    ghost invariant = { λ e. IsCounted e.counts.items e.blocks.items };
}

impl Executed {
    /// No block.
    pub fn none(alloc: Global) -> Executed
        ensures { result ≡ [] }
    {
        Executed {
            blocks: Vec::new(alloc),
            counts: Vec::new(alloc),
        }
    }

    /// One more block is executed.
    pub fn add(&mut self, block: BlockId) -> Result<(), AllocError>
        ensures step { OnOk result (self.new ≡ block ∷ self.old) }
        ensures kept { OnErr result (self.new ≡ self.old) }
    {
        grow(&mut self.counts, block)?;
        let count = entry(&self.counts, block).checked_add(1).ok_or(AllocError)?;
        self.blocks.push(block)?;
        self.counts[block as usize] = count;
        Ok(())
    }

    /// How often a block was executed.
    pub fn count(&self, block: BlockId) -> u32
        ensures { result ≡ count_by (λ id. block == id) self.now }
    {
        entry(&self.counts, block)
    }
}

/// The entry of a block, which is 0 where it has none.
fn entry(counts: &[u32], block: BlockId) -> u32
    ensures { result ≡ slice_index_or counts.now block 0 }
{
    counts.get(block as usize).copied().unwrap_or(0)
}

/// Gives a block an entry.
fn grow(counts: &mut Vec<u32>, block: BlockId) -> Result<(), AllocError>
    ensures within { OnOk result (block < length counts.new.items) }
    ensures same { (k : ℕ)
        → slice_index_or counts.new.items k 0 ≡ slice_index_or counts.old.items k 0 }
{
    let at = block as usize;
    if counts.len() <= at {
        counts.resize(at + 1, 0)?;
    }
    Ok(())
}
