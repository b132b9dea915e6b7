//! Tests of what no clause of the lower crates says: streams and sinks that fail, what the `csv`
//! crate makes of a file, and supplies and meters of one's own.
#![tactic(auto)]

#[cfg(test)]
mod meters;
#[cfg(test)]
mod rows;
#[cfg(test)]
mod streams;
#[cfg(test)]
mod supplies;
