//! The tree of a program and the words that the layers share; as definitions over it, in `specs/`,
//! the rules of a source, its expansion and the weight of its functions, with their laws.
#![tactic(auto)]

pub mod before;
pub mod broken;
pub mod checked;
pub mod laws;
pub mod marked;
pub mod name;
pub mod named;
mod nodes;
pub mod numbers;
pub mod pulls;
pub mod said;
pub mod scope;
pub mod tree;
pub mod written;
