//! The weights and the stacks of functions, each exactly or as one more than any weight that is
//! allowed.
#![tactic(auto)]

pub mod called;
pub mod caps;
pub mod cost;
pub mod laws;
pub mod measure;
pub mod stack;
pub mod stacks;
pub mod weights;
