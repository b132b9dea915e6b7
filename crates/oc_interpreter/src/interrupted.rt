//! Why a run is given up.
use std::alloc::AllocError;

/// There was no memory, or more was told than was asked for.
#[derive(Clone, Copy)]
pub enum Interrupted {
    /// There was no memory.
    Memory,
    /// More was told than was asked for.
    Cut,
}

impl From<AllocError> for Interrupted {
    /// A failed allocation is want of memory.
    fn from(_error: AllocError) -> Interrupted {
        Interrupted::Memory
    }
}
