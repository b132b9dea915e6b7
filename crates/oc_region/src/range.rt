//! Ranges of statements in a function.
ghost use Rattle.std.specs.Prelude.{◌≡◌};
ghost use Rattle.oc_region.specs.Regions.{joined, shares};
ghost use Rattle.oc_region.specs.Views.{stretch_view};

use oc_tree::marked::Range;

/// A range in the function at a place.
#[derive(Clone, Copy)]
pub struct Stretch {
    /// The place of the function.
    pub function: u32,
    /// The statements, in their block.
    pub range: Range,
}

/// Whether two ranges share a statement.
pub fn shares(r: Stretch, q: Stretch) -> bool
    ensures { result ≡ shares (stretch_view r) (stretch_view q) }
{
    r.range.block == q.range.block && r.range.first <= q.range.last && q.range.first <= r.range.last
}

/// From the first statement of both to their last.
pub fn join(r: Stretch, q: Stretch) -> Stretch
    ensures { stretch_view result ≡ joined (stretch_view r) (stretch_view q) }
{
    let range = Range {
        block: r.range.block,
        first: r.range.first.min(q.range.first),
        last: r.range.last.max(q.range.last),
    };
    Stretch {
        function: r.function,
        range,
    }
}
