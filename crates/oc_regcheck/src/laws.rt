//! Laws of blocks.
ghost use Rattle.oc_regcheck.specs.Laws.{BlocksHold, GuardsDecide};

use oc_timely::laws::marks_are_timely;

/// The test of guarded functions decides the relation.
pub fn guards_decide()
    ensures { GuardsDecide }
{}

/// Where blocks suffice, every run is timely with outages anywhere but within an execution of a
/// block, as is every front part of it.
pub fn blocks_hold()
    ensures { BlocksHold }
{
    marks_are_timely();
}
