//! How many steps regions and runs take at most.
#![tactic(auto)]

pub mod costs;
mod exprs;
mod held;
mod known;
pub mod laws;
mod order;
mod sums;
mod tables;
pub mod told;
mod uses;
mod walk;
