//! The law that the code of every checked program is defined, with its regions too. Laws alone.
#![tactic(auto)]

pub mod laws;
