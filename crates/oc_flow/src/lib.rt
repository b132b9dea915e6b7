//! Which variables of a function flow into which, and which statements bring input into which.
#![tactic(auto)]

mod flow;
mod functions;
mod inputs;
pub mod known;
pub mod laws;
mod leads;
pub mod numbering;
pub mod summary;
mod table;

pub use flow::summaries;
