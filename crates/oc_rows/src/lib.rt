//! The rows of a file of comma-separated fields.
//!
//! A row is a record as the `csv` crate reads it: of any number of fields, with nothing trimmed
//! and no header set aside. One byte order mark at the start of the file is no part of it.
#![tactic(auto)]

pub mod number;
pub mod rows;
