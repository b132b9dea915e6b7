//! The regions that the annotations of a program ask for.
#![tactic(auto)]

mod asks;
mod groups;
mod inference;
pub mod laws;
mod places;
mod range;
mod smallest;
mod unite;

pub use inference::{Inferred, infer, infer_by, mark};
