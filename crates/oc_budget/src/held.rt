//! The costs of the statements directly in a region.
ghost use Rattle.std.specs.Prelude.{◌≡◌, cond, slice_get, Some};
ghost use Rattle.oc_tree.specs.Marked.{is_in_region};
ghost use Rattle.oc_tree.specs.Regions.{region_view};
ghost use Rattle.oc_tree.specs.View.{block_view, else_view, function_view, kind_view};
ghost use Rattle.oc_budget.specs.Budgets.{held_cost};
ghost use Rattle.oc_budget.specs.Costs.{costs};
ghost use Rattle.oc_budget.specs.Fitting.{IsFitted};
ghost use Rattle.oc_budget.specs.Spent.{expr_seen, returned};
ghost use Rattle.oc_tree.specs.Picked.{kind_spent, else_spent, block_spent, functions_spent};

use crate::exprs::expr_cost;
use crate::known::Known;
use crate::sums::plus;
use crate::walk::{inner_cost, probes};
use oc_tree::marked::Region;
use oc_tree::tree::{Block, Expr, Function, StmtId, StmtKind};

/// The value that a `return` returns.
fn returned(kind: &StmtKind) -> Option<&Expr>
    ensures { expr_seen result ≡ returned (kind_view kind.now) }
{
    match kind {
        StmtKind::Return { value } => Some(value),
        _ => None,
    }
}

/// The cost of a statement of a region.
fn held_cost(known: &Known, callees: &[u64], s: StmtId, kind: &StmtKind) -> Option<u64>
    requires { callees.now ≡ costs known.now }
    ensures { IsFitted result
        (held_cost known.now s (kind_view kind.now)) }
{
    let around = probes(known.uses(s), kind);
    match returned(kind) {
        Some(value) => plus(expr_cost(value)?, around),
        None => plus(inner_cost(known, callees, s, kind)?, around),
    }
}

/// Its cost, if it stands directly in the region.
fn own_cost(
    known: &Known,
    callees: &[u64],
    region: &Region,
    s: StmtId,
    kind: &StmtKind,
) -> Option<u64>
    requires { callees.now ≡ costs known.now }
    ensures { IsFitted result
        (cond (is_in_region known.now.program (region_view region.now) s)
        (held_cost known.now s (kind_view kind.now)) 0) }
{
    if known.is_in_region(region, s) {
        held_cost(known, callees, s, kind)
    } else {
        Some(0)
    }
}

/// What the statements inside of a statement cost that stand directly in the region; none where the
/// number doesn't fit 64 bits.
#[cycle(spent)]
fn kind_spent(known: &Known, callees: &[u64], region: &Region, kind: &StmtKind) -> Option<u64>
    requires { callees.now ≡ costs known.now }
    ensures { IsFitted result
        (kind_spent (is_in_region known.now.program (region_view region.now)) (held_cost known.now)
        (kind_view kind.now)) }
{
    match kind {
        StmtKind::If {
            then,
            otherwise,
            ..
        } => {
            let then = block_spent(known, callees, region, then)?;
            plus(then, else_spent(known, callees, region, otherwise)?)
        }
        StmtKind::For { body, .. } | StmtKind::While { body, .. } => {
            block_spent(known, callees, region, body)
        }
        _ => Some(0),
    }
}

/// What the statements of an `else` cost that stand directly in the region; none where the number
/// doesn't fit 64 bits.
#[cycle(spent)]
fn else_spent(
    known: &Known,
    callees: &[u64],
    region: &Region,
    otherwise: &Option<Block>,
) -> Option<u64>
    requires { callees.now ≡ costs known.now }
    ensures { IsFitted result
        (else_spent (is_in_region known.now.program (region_view region.now)) (held_cost known.now)
        (else_view otherwise.now)) }
{
    match otherwise {
        Some(block) => block_spent(known, callees, region, block),
        None => Some(0),
    }
}

/// What the statements of a block and those inside them cost that stand directly in the region;
/// none where the number doesn't fit 64 bits.
#[cycle(spent)]
fn block_spent(known: &Known, callees: &[u64], region: &Region, block: &Block) -> Option<u64>
    requires { callees.now ≡ costs known.now }
    ensures { IsFitted result
        (block_spent (is_in_region known.now.program (region_view region.now))
        (held_cost known.now) (block_view block.now)) }
{
    let mut spent = 0;
    for statement in &block.statements {
        let own = own_cost(known, callees, region, statement.id, &statement.kind)?;
        let inside = kind_spent(known, callees, region, &statement.kind)?;
        spent = plus(spent, plus(own, inside)?)?;
    }
    Some(spent)
}

/// What the statements of the function at a place cost that stand directly in the region. It goes
/// over them only where some of their numbers are among those of the region.
fn function_spent(
    known: &Known,
    callees: &[u64],
    region: &Region,
    place: usize,
    function: &Function,
) -> Option<u64>
    requires callees { callees.now ≡ costs known.now }
    requires place { slice_get known.now.program.functions place
        ≡ Some (function_view function.now) }
    ensures { IsFitted result
        (block_spent (is_in_region known.now.program (region_view region.now))
        (held_cost known.now) (function_view function.now).body) }
{
    if known.is_apart(region, place) {
        return Some(0);
    }
    block_spent(known, callees, region, &function.body)
}

/// The costs of all statements directly in a region.
pub fn region_spent(known: &Known, callees: &[u64], region: &Region) -> Option<u64>
    requires { callees.now ≡ costs known.now }
    ensures { IsFitted result
        (functions_spent (is_in_region known.now.program (region_view region.now))
        (held_cost known.now) known.now.program.functions) }
{
    let mut spent = 0;
    let functions = known.functions();
    for (place, function) in functions.iter().enumerate() {
        let held = function_spent(known, callees, region, place, function)?;
        spent = plus(spent, held)?;
    }
    Some(spent)
}
