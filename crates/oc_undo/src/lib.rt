//! The undo log: the old words of nonvolatile words that a region wrote.
#![tactic(auto)]

pub mod laws;
pub mod log;

/// A nonvolatile word as it was before it was first written.
#[derive(Clone, Copy)]
pub struct Entry {
    pub addr: u32,
    pub old: i32,
}
