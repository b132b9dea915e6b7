//! The expansion of a program: each input and each call inside an expression becomes a `let` of a
//! temporary before its statement.
#![tactic(auto)]

mod blocks;
mod checked;
mod groups;
pub mod laws;
mod parts;
mod program;
mod straight;

pub use checked::expand;
pub use program::expand_program;
