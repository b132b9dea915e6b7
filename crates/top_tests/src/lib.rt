//! Tests of the top call over shelves and sinks that fail and over supplies of one's own, which no
//! command can be given.
#![tactic(auto)]

#[cfg(test)]
mod calls;
#[cfg(test)]
mod faults;
