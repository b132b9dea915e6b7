//! What runs.
ghost use Rattle.std.specs.Prelude.{◌≡◌};
ghost use Rattle.oc_meaning.specs.Eval.{is_zero};

use crate::value::Value;
use oc_tree::marked::Region;
use oc_tree::tree::{Block, Program};
use std::alloc::Global;

/// The program with its regions, how deep calls may go from here, and the body of the function that
/// runs.
#[derive(Clone, Copy)]
pub struct Running<'a> {
    pub alloc: Global,
    pub program: &'a Program,
    pub regions: &'a [Region],
    pub depth: usize,
    pub body: &'a Block,
}

/// Whether a value's number is 0.
pub fn is_zero(value: &Value) -> bool
    ensures { result ≡ is_zero value.now.num }
{
    value.number() == 0
}
