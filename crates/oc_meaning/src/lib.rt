//! What a source means: its run over a list of samples, where each value carries the samples on
//! which it depends, and that run with the marks of regions. The definitions stand in `specs/`, their
//! laws in [`laws`], and the other modules compute what several crates need of them.
#![tactic(auto)]

pub mod homes;
pub mod laws;
pub mod names;
pub mod operators;
pub mod place;
pub mod regions;
pub mod scope;
