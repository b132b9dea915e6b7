//! Where a statement stands.
use oc_tree::tree::{BlockId, Function};

/// The function, its number from 0, the block, and whether it is the last statement of the body.
#[derive(Clone, Copy)]
pub struct Place<'a> {
    pub function: &'a Function,
    pub number: usize,
    pub block: BlockId,
    pub last: bool,
}
