//! Blocks, by the numbers of their statements.
ghost use Rattle.std.specs.Prelude.{◌≡◌, ℕ, IfOk};
ghost use Rattle.oc_tree.specs.Members.{is_number_of};

use oc_tree::tree::StmtId;
use std::alloc::{AllocError, Global};
use std::marker::Model;

/// Blocks, which contracts see as a list of their numbers.
#[derive(Drop)]
pub struct Blocks {
    sorted: Vec<StmtId>,
}

impl Model for Blocks {
    ghost use Rattle.std.specs.Prelude.{ℕ, List};
    ghost use Rattle.std.specs.List.Sorted.{IsNonDecreasing};

    ghost Value = { List ℕ };

    ghost view = { λ b. b.sorted.items };

    ghost invariant = { λ b. IsNonDecreasing b.sorted.items };
}

impl Blocks {
    /// These blocks, in order.
    pub fn new(alloc: Global, blocks: &[StmtId]) -> Result<Blocks, AllocError>
        ensures { IfOk result (λ b. (t : ℕ) → is_number_of b t ≡ is_number_of blocks.now t) }
    {
        let mut sorted = Vec::from_slice(alloc, blocks)?;
        sorted.sort_unstable();
        Ok(Blocks { sorted })
    }

    /// Whether a statement is one of them.
    pub fn has(&self, s: StmtId) -> bool
        ensures { result ≡ is_number_of self.now s }
    {
        self.sorted.binary_search(&s).is_ok()
    }
}
