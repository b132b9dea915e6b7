//! Laws that several crates cite and that are of no stage: what is in a list and what stands at its
//! places, tests, what may be absent, and names of a tree. Laws alone.
#![tactic(auto)]
