//! The outside: where bytes come from and where they go.
//!
//! A [`shelf::Shelf`] gives files by their names, a [`sink::Sink`] takes bytes. Each has a meaning
//! for contracts and keeps its laws. There are adapters in memory, one that counts, the disk and
//! streams. Every crate of the product stands on this one for [`Memory`].
#![tactic(auto)]

pub mod disk;
pub mod memory_shelf;
pub mod memory_sink;
pub mod period;
pub mod pieces;
pub mod shelf;
pub mod sink;
pub mod stream;

use thiserror::Error;

/// There was no memory.
#[derive(Clone, Copy, Debug, Error)]
#[error("out of memory")]
pub struct Memory;
