//! Which bytes are images, and which images are sound.
#![tactic(auto)]

mod declared;
mod facts;
mod fault;
mod judge;
mod kind;
mod kinds;
mod laws;
mod layout;
mod lists;
mod names;
mod operands;
mod order;
mod read;
mod reader;
mod room;
mod slots;
mod stacks;
mod verdict;
mod walk;

pub use fault::{ImageError, VerifyError};
pub use read::read_image;
pub use verdict::verify;
