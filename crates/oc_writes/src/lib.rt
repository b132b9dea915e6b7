//! What the regions of a program may overwrite.
#![tactic(auto)]

mod inside;
mod numbers;
mod stored;
mod through;
mod writes;

pub use writes::{WriteSets, may_write, may_write_by};
