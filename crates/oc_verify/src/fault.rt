//! Faults of images.

/// A rule that is broken, or want of memory.
#[derive(Clone, Copy)]
pub enum Fault {
    Broken { rule: u8 },
    Memory,
}

/// A field is bad, where so many bytes of the file are left from its first on, or memory ran out.
#[derive(Clone, Copy)]
pub enum ReadFault {
    Bad { left: usize },
    Memory,
}

/// Bytes are no image's file, where their first bad field begins at `at`, or memory ran out.
#[derive(Clone, Copy)]
pub enum ImageError {
    Bytes { at: usize },
    Memory,
}

/// An image breaks a rule, at an address or at 0 where the rule speaks of none, or memory ran out.
#[derive(Clone, Copy)]
pub enum VerifyError {
    Refused { at: u32, rule: u8 },
    Memory,
}
