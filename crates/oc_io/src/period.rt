//! Stretches of power.

/// So many machine steps, then so many ticks without power. Where it is `cut`, the low-power
/// checkpoint at the end of its steps doesn't complete.
#[derive(Clone, Copy)]
pub struct Period {
    pub on: u64,
    pub off: u64,
    pub cut: bool,
}
