//! What the annotations of a program require: which statements must lie in one region.
#![tactic(auto)]

pub mod asked;
pub mod laws;
pub mod lists;
pub mod local;
mod looped;
pub mod need;
mod place;
pub mod policy;
mod required;
pub mod requirement;
pub mod sites;

pub use required::requirements;
