//! Laws of needs.
ghost use Rattle.oc_needs.specs.Need.{NeedsIsNeed};

/// The test of need decides the relation.
pub fn needs_is_need()
    ensures { NeedsIsNeed }
{}
