//! What a run shows, as the source, the image and the report speak of it.

/// Why a run was trapped: a divisor was zero, or an index lay outside its array.
#[derive(Clone, Copy)]
pub enum TrapKind {
    /// A divisor was zero.
    Zero,
    /// An index lay outside its array.
    Index,
}

/// The visible part of a source event. Sensors and ports are numbered from 0 in the order of their
/// declarations, statements from 1.
#[derive(Clone, Copy)]
pub enum Visible {
    /// An input, with the value that its sensor gave.
    Sense { sensor: u8, value: i32 },
    /// An output at a port.
    Emit { port: u8, value: i32 },
    /// A statement is about to use a fresh variable.
    Use { stmt: u32 },
    /// A statement that used a fresh variable is done.
    Done { stmt: u32 },
    /// An annotation of a consistent set.
    Tag { stmt: u32 },
    /// The run has ended.
    End,
    /// The run was trapped at a statement.
    Trap { kind: TrapKind, stmt: u32 },
}

/// The numbers of samples, each once, in rising order.
#[derive(Drop)]
pub struct SampleSet {
    pub numbers: Vec<u32>,
}

/// An event of the source's run, with the samples on which it depends. `instance` numbers the
/// execution of a consistent set's block, and is 0 for everything but a tag.
#[derive(Drop)]
pub struct SourceEvent {
    pub visible: Visible,
    pub samples: SampleSet,
    pub instance: u32,
}

/// What a region may overwrite: words of a nonvolatile variable, or a parameter's place.
#[derive(Clone, Copy)]
pub enum Target {
    /// So many nonvolatile words from `base` on.
    Nv { base: u32, len: u32 },
    /// The parameter in this slot, and how many words it refers to.
    Param { slot: u32, len: u32 },
}

/// What an instruction shows, but for inputs, marks and the end.
#[derive(Clone, Copy)]
pub enum Shown {
    /// An output at a port.
    Emitted { port: u8, value: i32 },
    /// A statement is about to use a fresh variable.
    Used { stmt: u32 },
    /// A statement that used a fresh variable is done.
    Finished { stmt: u32 },
    /// An annotation of a consistent set.
    Tagged { stmt: u32 },
}

/// How a run ends by itself.
#[derive(Clone, Copy)]
pub enum Ending {
    /// `main` is over.
    Halted,
    /// A statement couldn't go on.
    Trapped { kind: TrapKind, stmt: u32 },
}

/// What a run says: what is visible of it, the marks of its regions, and its outages.
#[derive(Clone, Copy)]
pub enum Said {
    /// An input, with the value that its sensor gave.
    Sensed { sensor: u8, value: i32 },
    /// An output, or a statement's use, its end or its annotation.
    Showed { what: Shown },
    /// A region begins, or begins anew after an outage.
    Entered { region: u32 },
    /// A region is over, and counts.
    Committed { region: u32 },
    /// An attempt of a region is broken off by an outage, and undone.
    Aborted { region: u32 },
    /// An outage of so many ticks.
    Off { ticks: u64 },
    /// The periods of power are used up.
    Dark,
    /// The run is over by itself.
    Ended { how: Ending },
}
