//! Whether a report is honest: the way back from its file, and the audit.
#![tactic(auto)]

pub mod audit;
pub mod laws;
mod lines;
mod report;
mod words;
