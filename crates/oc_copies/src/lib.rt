//! A call does what it would do with variables of its own, which begin with what was passed and are
//! copied back behind it.
//!
//! Laws over the definitions of runs. A law is a function that does nothing, and its contract says
//! the law.
#![tactic(auto)]

pub mod laws;
