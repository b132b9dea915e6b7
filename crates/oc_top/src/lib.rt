//! The program, over a shelf, two sinks and supplies of power.
//!
//! [`top::ocelot`] does what a line of words asks for and answers its status, and [`standard`]
//! calls it with the program's own supplies. [`build`] goes from a source to its marked program and
//! its image, and [`prepare`] makes a machine with that image. [`drill`] runs files that it makes
//! itself, and [`exec`] images. [`print`] writes the regions of a program and the listing of its
//! image, and [`image`] the bytes of that. [`check`] judges hand-written blocks, and [`audit`] says
//! whether a report is honest. [`laws`] say that those of runs are, and that images are small enough
//! for a file.
#![tactic(auto)]

mod audit;
mod build;
mod check;
mod drill;
mod exec;
mod image;
pub mod laws;
mod prepare;
mod print;
pub mod standard;
pub mod top;
