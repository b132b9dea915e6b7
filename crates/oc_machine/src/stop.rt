//! How a run stops.
use oc_tree::said::TrapKind;

/// How a run stops.
#[derive(Clone, Copy)]
pub enum Stop {
    /// The program ended.
    End,
    /// The program was trapped, in this statement.
    Trap { kind: TrapKind, site: u32 },
    /// The periods are used up.
    Dark,
    /// A fault of the sink was counted.
    WriteFault,
    /// A low-power checkpoint didn't complete, at the end of this period, counted from 1.
    Cut { period: u64 },
}
