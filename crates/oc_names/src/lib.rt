//! Functions and parameters by their names: the place of each in its list. Of several that have one
//! name, the first counts.
#![tactic(auto)]

pub mod table;
