//! How often each block was executed.
ghost use Rattle.std.specs.Prelude.{◌≡◌, ◌<◌, [], length, slice_index_or, IfOk, OnOk};
ghost use Rattle.oc_steps.specs.Ages.{one_more};
ghost use Rattle.oc_judge.specs.Passes.{more_times};

use oc_tree::tree::BlockId;
use std::alloc::{AllocError, Global};
use std::marker::Model;

/// How often each block was executed, by its number.
#[derive(Drop)]
pub struct Executed {
    counts: Vec<u64>,
}

impl Model for Executed {
    ghost use Rattle.std.specs.Prelude.{ℕ, List};

    ghost Value = { List ℕ };

    ghost view = { λ e. e.counts.items };
}

impl Executed {
    /// No block.
    pub fn none(alloc: Global) -> Executed
        ensures { result ≡ [] }
    {
        Executed {
            counts: Vec::new(alloc),
        }
    }

    /// The same blocks.
    pub fn copy(&self, alloc: Global) -> Result<Executed, AllocError>
        ensures { IfOk result (λ e. e ≡ self.now) }
    {
        Ok(Executed {
            counts: Vec::from_slice(alloc, &self.counts)?,
        })
    }

    /// One more block is executed.
    pub fn add(&mut self, block: BlockId) -> Result<(), AllocError>
        ensures { OnOk result (self.new ≡ one_more block self.old) }
    {
        self.add_times(block, 1)
    }

    /// A block is executed so many times more, at least once.
    pub fn add_times(&mut self, block: BlockId, times: u64) -> Result<(), AllocError>
        requires { 0 < times }
        ensures { OnOk result (self.new ≡ more_times times block self.old) }
    {
        grow(&mut self.counts, block)?;
        let count = entry(&self.counts, block)
            .checked_add(times)
            .ok_or(AllocError)?;
        self.counts[block as usize] = count;
        Ok(())
    }

    /// How often a block was executed.
    pub fn count(&self, block: BlockId) -> u64
        ensures { result ≡ slice_index_or self.now block 0 }
    {
        entry(&self.counts, block)
    }
}

/// The entry of a block, which is 0 where it has none.
fn entry(counts: &[u64], block: BlockId) -> u64
    ensures { result ≡ slice_index_or counts.now block 0 }
{
    counts.get(block as usize).copied().unwrap_or(0)
}

/// Gives a block an entry.
#[tactic(auto, using(crate::proofs::Tallies::entry_more))]
fn grow(counts: &mut Vec<u64>, block: BlockId) -> Result<(), AllocError>
    ensures within { OnOk result (block < length counts.new.items) }
    ensures same { OnOk result
        (one_more block counts.new.items ≡ one_more block counts.old.items) }
{
    for _entry in counts.len()..block as usize + 1 {
        counts.push(0)?;
    }
    Ok(())
}
