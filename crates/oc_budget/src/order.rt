//! The costs of all functions, those of callees first.
ghost use Rattle.std.specs.Prelude.{◌≡◌, length, IfOk};
ghost use Rattle.oc_tree.specs.Calls.{call_links};
ghost use Rattle.oc_tree.specs.Marked.{IsMarked};
ghost use Rattle.oc_weight.specs.Order.{IsOrder};
ghost use Rattle.oc_budget.specs.Costs.{costs};

use crate::known::Known;
use crate::walk::function_cost;
use oc_reach::marks::Marks;
use std::alloc::{AllocError, Global};

/// The costs, each worked out once, in an order in which those of callees come first.
fn in_order(alloc: Global, known: &Known, order: &Marks) -> Result<Vec<u64>, AllocError>
    requires marked { IsMarked known.now }
    requires order { IsOrder (call_links known.now.program.functions)
        (length known.now.program.functions) order.now.0 }
    ensures { IfOk result (λ w. w.items ≡ costs known.now) }
{
    let functions = known.functions();
    let mut costs = vec![in alloc; 0; functions.len()]?;
    for i in 0..order.len() {
        let place = order.at(i);
        let cost = function_cost(known, costs.as_slice(), &functions[place]).unwrap();
        costs[place] = cost;
    }
    Ok(costs)
}

/// What the functions of a marked program cost, which fits: their weights are bounded.
pub fn all_costs(alloc: Global, known: &Known) -> Result<Vec<u64>, AllocError>
    requires { IsMarked known.now }
    ensures { IfOk result (λ w. w.items ≡ costs known.now) }
{
    let order = known.callees_first(alloc)?;
    in_order(alloc, known, &order)
}
