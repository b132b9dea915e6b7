//! Items.
use oc_tree::said::TrapKind;

/// What a run says, with the tick at which it says it. Sensors and ports are numbered from 0 in the
/// order of their declarations, statements and regions from 1. `Off` tells for how many ticks there
/// was no power.
#[derive(Clone, Copy)]
pub enum Item {
    Sense {
        tick: u64,
        sensor: u8,
        value: i32,
    },
    Emit {
        tick: u64,
        port: u8,
        value: i32,
    },
    Use {
        tick: u64,
        stmt: u32,
    },
    Done {
        tick: u64,
        stmt: u32,
    },
    Tag {
        tick: u64,
        stmt: u32,
    },
    Enter {
        tick: u64,
        region: u32,
    },
    Commit {
        tick: u64,
        region: u32,
    },
    Abort {
        tick: u64,
        region: u32,
    },
    Off {
        tick: u64,
        ticks: u64,
    },
    Trap {
        tick: u64,
        kind: TrapKind,
        stmt: u32,
    },
    End {
        tick: u64,
    },
    Dark {
        tick: u64,
    },
}
