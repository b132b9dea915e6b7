//! Hand-written atomic blocks: whether they suffice for what a program requires, and that its runs are
//! timely then.
#![tactic(auto)]

mod blocks;
mod check;
mod guard;
mod inputs;
mod inside;
pub mod laws;
mod verdict;

pub use check::check_blocks;
pub use verdict::BlockVerdict;
