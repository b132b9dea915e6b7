//! The weights of all functions.
ghost use Rattle.std.specs.Prelude.{◌≡◌, map, length, IfOk};
ghost use Rattle.oc_tree.specs.View.{function_view};
ghost use Rattle.oc_tree.specs.Weight.{weights_to};
ghost use Rattle.oc_weight.specs.Capped.{capped};

use crate::cost::Instructions;
use crate::measure::measured;
use oc_tree::tree::Function;
use std::alloc::{AllocError, Global};

/// The weights of the functions of an expansion, each exactly or as one more than any weight that
/// is allowed.
pub fn weights(alloc: Global, functions: &[Function]) -> Result<Vec<u64>, AllocError>
    ensures { IfOk result
        (λ w. w.items
        ≡ map capped (weights_to (map function_view functions.now) (length functions.now))) }
{
    measured::<Instructions>(alloc, functions)
}
