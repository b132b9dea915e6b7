//! The declarations before one.

/// How many declarations of each kind stand before a declaration.
#[derive(Clone, Copy)]
pub struct Before {
    pub sensors: usize,
    pub ports: usize,
    pub nvs: usize,
    pub functions: usize,
}
