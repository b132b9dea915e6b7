//! Which functions of a program lead to which, and which of them assign a nonvolatile variable,
//! directly or through others. Each question is answered in one pass over the program's calls.
#![tactic(auto)]

pub mod assigned;
pub mod calls;
pub mod laws;
pub mod levels;
pub mod marks;
pub mod params;
pub mod parts;
mod passes;
pub mod reach;
