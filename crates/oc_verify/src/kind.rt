//! What words are.

/// A word is a number, or the address of so many words that may be read and written.
#[derive(Clone, Copy)]
pub enum Kind {
    /// A number, which is never used as an address.
    Number,
    /// The address of so many words.
    Place { words: u32 },
}
