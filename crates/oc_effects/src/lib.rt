//! What each statement of a checked program does to variables: which it reads, which it sets, what
//! it calls, and where it stands. All analyses go by these lists and never by the tree.
#![tactic(auto)]

mod calls;
pub mod effect;
pub mod effects;
mod here;
mod known;
mod names;
mod parts;
mod scope;
mod walk;
