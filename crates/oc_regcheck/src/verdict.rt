//! What is said of blocks.
use oc_tree::tree::StmtId;

/// Whether the blocks of a program suffice for what it requires.
#[derive(Clone, Copy)]
pub enum BlockVerdict {
    /// They suffice.
    Covered,
    /// They don't: the first requirement that is in no block and in no guarded function.
    Open {
        /// The number of its policy.
        policy: u32,
        /// The place of its function.
        function: u32,
        /// Its lowest input.
        first: StmtId,
        /// Its lowest site that no block holds together with that input.
        second: StmtId,
    },
}
