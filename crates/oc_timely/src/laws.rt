//! The laws.
ghost use Rattle.oc_timely.specs.Covering.{MarksAreTimely};
ghost use Rattle.oc_timely.specs.Enough.{GoodIsHeld, RunsAreGood};
ghost use Rattle.oc_timely.specs.Modes.{AllFlows};
ghost use Rattle.oc_timely.specs.Sets.{InsideTellsNone, RunsPartNone};

/// What must be held together lies in one execution of a region, where each event is good when it
/// happens.
pub fn good_is_held()
    ensures { GoodIsHeld }
{}

/// Where a region is open, a call tells no mark.
pub fn inside_tells_none()
    ensures { InsideTellsNone }
{}

/// Samples stay within the flow.
pub fn all_flow()
    ensures { AllFlows }
{}

/// No mark stands between two tags of one instance of a set, of which the earlier has samples.
pub fn runs_part_none()
    ensures { RunsPartNone }
{}

/// Each event of a run is good, where marks cover what is required.
pub fn runs_are_good()
    ensures { RunsAreGood }
{}

/// Marked runs are timely.
pub fn marks_are_timely()
    ensures { MarksAreTimely }
{}
