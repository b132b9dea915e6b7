//! What a variable's name stands for.
use crate::tree::{BlockId, Passing, StmtId, ValueKind};

/// How a variable came to be: by the `let` with this number, directly in this block, by a `for`,
/// as a parameter, or as a nonvolatile variable.
#[derive(Clone, Copy)]
pub enum Origin {
    Let {
        mutable: bool,
        stmt: StmtId,
        block: BlockId,
    },
    For,
    Param {
        passing: Passing,
    },
    Nv,
}

/// A variable. A reference has the kind of what it refers to.
#[derive(Clone, Copy)]
pub struct Var {
    pub origin: Origin,
    pub kind: ValueKind,
}

/// What an annotation asks for, as the limits count it: that the variable of this `let` is fresh, or
/// that the inputs of this function's annotations with this number are consistent.
#[derive(Clone, Copy)]
pub enum Annotated {
    /// The variable of this `let` is fresh.
    Fresh { stmt: StmtId },
    /// The inputs of this function's annotations with this number belong together.
    Consistent { function: usize, id: i32 },
}
