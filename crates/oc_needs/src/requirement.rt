//! Requirements.
use oc_tree::tree::StmtId;

/// Statements of a function that must lie in one region: the number of the policy that asks for it,
/// the place of the function, and the numbers of the statements, which rise.
#[derive(Drop)]
pub struct Requirement {
    /// The number of the policy that asks for it.
    pub policy: u32,
    /// The place of the function.
    pub function: u32,
    /// The numbers of the statements, rising.
    pub sites: Vec<StmtId>,
}
