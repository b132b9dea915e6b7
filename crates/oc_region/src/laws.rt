//! The law of ranges that are united.
ghost use Rattle.std.specs.Prelude.{List};
ghost use Rattle.oc_tree.specs.Marked.{TRegion};
ghost use Rattle.oc_region.specs.Regions.{united};
ghost use Rattle.oc_region.specs.United.{AreRanges, AreUnited};

/// Ranges are united one by one until none share a statement.
#[tactic(auto, using(crate::proofs::United::all_united))]
pub fn ranges_are_united()
    ensures { (given : List TRegion) → AreRanges given → AreUnited given (united given) }
{}
