//! An interpreter of sources: [`run`] computes what a source says over a list of samples, and that run
//! with the marks of regions, as `oc_meaning` defines both.
#![tactic(auto)]

mod arguments;
mod calls;
mod completion;
mod eval;
mod executed;
mod held;
mod interrupted;
mod marks;
pub mod run;
mod running;
mod samples;
mod simple;
mod statements;
mod store;
pub mod trace;
mod uses;
mod value;
