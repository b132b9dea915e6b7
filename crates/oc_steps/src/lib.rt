//! The marked run in steps that can stop between any two things said, and what each item of a report
//! does to it.
//!
//! Definitions and laws.
#![tactic(auto)]

pub mod laws;
