//! The tokens of a source.
//!
//! Spaces, tabs, carriage returns and line feeds separate tokens, and so does a comment, from `//`
//! up to the line feed. Tokens are read from the left, the longest first.
#![tactic(auto)]

mod bytes;
mod lexer;
mod literal;
mod mark;
mod piece;
mod token;
mod word;

pub use lexer::{LexError, lex};
pub use token::{Kind, Mark, Token, Word};
