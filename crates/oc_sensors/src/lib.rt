//! Sensors: files of what they show, and the sampling of them over time.
#![tactic(auto)]

pub mod file;
pub mod sensors;
