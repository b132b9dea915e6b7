//! Power: files of periods, and supplies that tell periods one at a time.
//!
//! [`power`] reads a power file. A [`supply::Supply`] is fed the rows of one and tells the periods
//! of its plan for them: [`recorded`] the rows themselves, [`looped`] the rows over and over,
//! [`cutter`] the rows in short pieces.
#![tactic(auto)]

pub mod cutter;
pub mod looped;
pub mod power;
pub mod recorded;
pub mod supply;
pub mod trace;

pub use oc_io::period::Period;
