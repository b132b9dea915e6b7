//! From tokens to the tree of a program.
#![tactic(auto)]

mod atomics;
pub mod examples;
mod expression;
mod item;
mod program;
mod reader;
mod simple;
mod statement;
mod stop;
mod trees;

pub use program::{ParseError, parse, parse_blocks};
