//! What runs.
use oc_tree::marked::Region;
use oc_tree::tree::Program;
use std::alloc::Global;

/// The program with its regions.
#[derive(Clone, Copy)]
pub struct Running<'a> {
    pub alloc: Global,
    pub program: &'a Program,
    pub regions: &'a [Region],
}
