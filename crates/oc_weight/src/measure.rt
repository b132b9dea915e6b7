//! Measures of functions, each told by those of the functions that it calls.
ghost use Rattle.std.specs.Prelude.{◌≡◌, ℕ, List, map, length, IfOk};
ghost use Rattle.oc_tree.specs.Tree.{TFunction};
ghost use Rattle.oc_tree.specs.View.{function_view};
ghost use Rattle.oc_tree.specs.Calls.{call_links, function_names};
ghost use Rattle.oc_weight.specs.Capped.{capped};
ghost use Rattle.oc_weight.specs.Measured.{IsMeasure};
ghost use Rattle.oc_weight.specs.Order.{IsOrder};

use crate::called::callees_first;
use oc_names::table::{Table, function_table};
use oc_reach::levels::is_same;
use oc_reach::marks::Marks;
use oc_tree::tree::Function;
use std::alloc::{AllocError, Global};

/// Says of each function how much it takes, as its weight or its stack.
///
/// `measure` is how much a function takes by what is known of those that it calls, and `levels` how
/// much each takes where calls go at most so deep.
pub trait Measure {
    ghost measure: { List TFunction → List ℕ → TFunction → ℕ };

    ghost levels: { List TFunction → ℕ → List ℕ };

    /// How much a function takes, where it is known of those that it calls; the cap where it is
    /// more.
    fn measure(functions: &[Function], table: &Table, known: &[u64], function: &Function) -> u64
        requires { table.now ≡ function_names (map function_view functions.now) }
        ensures { result
            ≡ capped
            (measure (map function_view functions.now) known.now (function_view function.now)) };

    ghost laws: { IsMeasure measure levels };
}

/// What functions take, with one more level of calls.
fn next_level<M: Measure>(
    alloc: Global,
    functions: &[Function],
    table: &Table,
    known: &[u64],
) -> Result<Vec<u64>, AllocError>
    requires { table.now ≡ function_names (map function_view functions.now) }
    ensures { IfOk result (λ w. w.items
        ≡ map (λ f. capped (M.measure (map function_view functions.now) known.now f))
        (map function_view functions.now)) }
{
    let mut next = Vec::new(alloc);
    for function in functions {
        next.push(M::measure(functions, table, known, function))?;
    }
    Ok(next)
}

/// What functions take, level by level of calls.
fn by_levels<M: Measure>(
    alloc: Global,
    functions: &[Function],
    table: &Table,
) -> Result<Vec<u64>, AllocError>
    requires { table.now ≡ function_names (map function_view functions.now) }
    ensures { IfOk result
        (λ w. w.items
        ≡ map capped (M.levels (map function_view functions.now) (length functions.now))) }
{
    let mut known = Vec::new(alloc);
    for _depth in 0..functions.len() {
        let next = next_level::<M>(alloc, functions, table, known.as_slice())?;
        if is_same(next.as_slice(), known.as_slice()) {
            return Ok(next);
        }
        known = next;
    }
    Ok(known)
}

/// What functions take, each worked out once, in an order in which callees come first.
fn in_order<M: Measure>(
    alloc: Global,
    functions: &[Function],
    table: &Table,
    order: &Marks,
) -> Result<Vec<u64>, AllocError>
    requires table { table.now ≡ function_names (map function_view functions.now) }
    requires order { IsOrder (call_links (map function_view functions.now)) (length functions.now)
        order.now.0 }
    ensures { IfOk result
        (λ w. w.items
        ≡ map capped (M.levels (map function_view functions.now) (length functions.now))) }
{
    let mut known = vec![in alloc; 0; functions.len()]?;
    for i in 0..order.len() {
        let place = order.at(i);
        let taken = M::measure(functions, table, known.as_slice(), &functions[place]);
        known[place] = taken;
    }
    Ok(known)
}

/// What the functions of an expansion take, each exactly or as one more than any weight that is
/// allowed.
pub fn measured<M: Measure>(alloc: Global, functions: &[Function]) -> Result<Vec<u64>, AllocError>
    ensures { IfOk result
        (λ w. w.items
        ≡ map capped (M.levels (map function_view functions.now) (length functions.now))) }
{
    let table = function_table(alloc, functions)?;
    match callees_first(alloc, functions, &table)? {
        Some(order) => in_order::<M>(alloc, functions, &table, &order),
        None => by_levels::<M>(alloc, functions, &table),
    }
}
