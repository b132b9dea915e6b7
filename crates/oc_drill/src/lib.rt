//! The files of a drill: a program with its sensors and its power, whose run is as long as asked
//! for, and the line that tells how it went.
#![tactic(auto)]

pub mod files;
pub mod line;
