//! The effects of statements.

use oc_tree::tree::{BlockId, StmtId, VarId};
use std::marker::Model;

/// An argument: the variables that it names, and the one that it lends by `&mut`.
#[derive(Drop)]
pub struct Passed {
    /// What it names.
    pub named: Vec<VarId>,
    /// What it lends.
    pub lent: Option<VarId>,
}

/// A call: the place of the called function, and the arguments.
#[derive(Drop)]
pub struct Called {
    /// The place of the function among all.
    pub function: u32,
    /// One for each parameter that is given a value.
    pub args: Vec<Passed>,
}

/// An annotation: a variable is fresh, or it belongs to the consistent set of this number.
#[derive(Clone, Copy)]
pub enum Note {
    /// `Fresh(var);`
    Fresh { var: VarId },
    /// `Consistent(var, id);`
    Consistent { var: VarId, id: i32 },
}

/// What a statement does by itself, without the statements inside it.
#[derive(Drop)]
pub struct Effect {
    /// Its number.
    pub stmt: StmtId,
    /// Its line.
    pub line: u32,
    /// The block in which it stands directly.
    pub block: BlockId,
    /// The statements in which it stands, the innermost first.
    pub around: Vec<StmtId>,
    /// Whether it is a loop.
    pub is_loop: bool,
    /// Whether it declares a variable.
    pub declares: bool,
    /// The variables that it names in its own expressions and arguments.
    pub named: Vec<VarId>,
    /// Those of the value that it sets a variable to, and of its target's index.
    pub sources: Vec<VarId>,
    /// The variable that it sets; the result of the function for a `return`.
    pub target: Option<VarId>,
    /// Whether it sets it to an input.
    pub senses: bool,
    /// What it calls.
    pub call: Option<Called>,
    /// The annotation that it is.
    pub note: Option<Note>,
}
