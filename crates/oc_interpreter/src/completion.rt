//! What comes of a statement, and what a call passes.
use crate::value::Value;
use oc_meaning::place::Place;

/// Why a run stops before its end: it trapped, or no sample is left.
#[derive(Clone, Copy)]
pub enum Stop {
    /// It trapped.
    Trapped,
    /// No sample was left.
    Short,
}

/// What came of a statement: it went through, it returned a value, or the run stopped in it.
#[derive(Drop)]
pub enum Completion {
    /// It went through.
    Went,
    /// It returned this value.
    Returned { value: Value },
    /// The run stopped in it.
    Stopped { stop: Stop },
}

/// What a call passes for a parameter: a value, or a place.
#[derive(Drop)]
pub enum Passed {
    /// The value of an expression.
    Copied { value: Value },
    /// The place of the variable that is lent.
    Lent { place: Place },
}
