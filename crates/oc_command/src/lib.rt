//! What a line of words asks for, the files that it names, and how a call is answered.
//!
//! [`command`] reads the words, and [`files`] fetches. [`answer`] has the answers with their
//! statuses and lines. [`gap`] is what an answer tells of blocks that don't suffice, by the
//! [`names`] and lines of the source.
#![tactic(auto)]

pub mod answer;
pub mod command;
pub mod files;
pub mod gap;
pub mod names;
