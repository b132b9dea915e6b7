//! A rule that is broken.

/// A rule's number, and the line of the element that breaks it.
#[derive(Clone, Copy)]
pub struct Broken {
    pub line: u32,
    pub rule: u8,
}
