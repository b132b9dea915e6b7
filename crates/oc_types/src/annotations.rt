//! Annotations, returns and loops.
ghost use Rattle.std.specs.Prelude.{◌≡◌};
ghost use Rattle.oc_tree.specs.View.{kind_view, program_view};
ghost use Rattle.oc_tree.specs.Rules.{annotates_other, has_many_turns, is_let_in, origin_is, returns_elsewhere};
ghost use Rattle.oc_types.specs.Standing.{here_of};

use crate::place::Place;
use crate::scope::Scope;
use crate::top::TopLevel;
use crate::types::{is_same, type_of};
use oc_tree::scope::{Origin, Var};
use oc_tree::tree::{BlockId, StmtKind};

/// Whether a variable was declared by a `let` directly in this block; not so where there is none.
fn is_let_in(block: BlockId, variable: Option<Var>) -> bool
    ensures { result ≡ origin_is (is_let_in block) variable }
{
    match variable {
        Some(v) => match v.origin {
            Origin::Let { block: within, .. } => within == block,
            _ => false,
        },
        None => false,
    }
}

/// Whether what is annotated is no variable of a `let` directly in this block.
pub fn annotates_other<'a>(place: Place<'a>, scope: &Scope<'a>, kind: &StmtKind) -> bool
    ensures { result ≡ annotates_other (here_of place.entry scope.now) (kind_view kind.now) }
{
    match kind {
        StmtKind::Fresh { name } | StmtKind::Consistent { name, .. } => !is_let_in(
            place.block,
            scope.get(name),
        ),
        _ => false,
    }
}

/// Whether a `return` isn't the last statement of a function with a result of that type.
pub fn returns_elsewhere<'a>(
    top: &TopLevel<'a>,
    place: Place<'a>,
    scope: &Scope<'a>,
    kind: &StmtKind,
) -> bool
    ensures { result
        ≡ returns_elsewhere (program_view top.now) (here_of place.entry scope.now)
        (kind_view kind.now) }
{
    match kind {
        StmtKind::Return { value } => !(place.last
            && is_same(place.function.result, type_of(top, scope, value))),
        _ => false,
    }
}

/// Whether a loop has too many turns.
pub fn has_many_turns(kind: &StmtKind) -> bool
    ensures { result ≡ has_many_turns (kind_view kind.now) }
{
    match kind {
        StmtKind::For { from, to, .. } => 65535 < i64::from(*to) - i64::from(*from),
        StmtKind::While { bound, .. } => 65535 < *bound,
        _ => false,
    }
}
