//! The instruction set: instructions, images with their listings, what each instruction does, runs
//! without outages and runs over periods of power.
#![tactic(auto)]

pub mod bytes;
pub mod image;
pub mod instr;
pub mod listing;
pub mod phase;
