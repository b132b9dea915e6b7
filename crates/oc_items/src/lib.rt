//! The items of a report, and their text.
//!
//! An [`item::Item`] is what a run says at one tick. Its line is its fields with one space between
//! them. After the items of a whole run stands one line for each nonvolatile variable. Two reports
//! of one program with the same text are the same: [`laws::one_text_each`].
#![tactic(auto)]

pub mod item;
pub mod laws;
mod line;
pub mod read;
pub mod text;
