//! When a report is honest, and when it is timely: no outage lies between an input and a use of what
//! depends on it, and none among the inputs of a consistent set.
//!
//! Definitions over runs and reports, and laws. A law is a function that does nothing, and its
//! contract says the law.
#![tactic(auto)]

ghost use Rattle.oc_honest.specs.Deciding.{TestsTell};
ghost use Rattle.oc_honest.specs.Ended.{EndedWantsNone};
ghost use Rattle.oc_honest.specs.Held.{HeldIsTimely};
ghost use Rattle.oc_honest.specs.Timely.{LateUse, PartedSet};
ghost use Rattle.oc_honest.specs.Worked.{WorkedReports};

/// An outage between an input and its use is not timely.
pub fn late_use()
    ensures { LateUse }
{}

/// An outage between two inputs of a consistent set is not timely.
pub fn parted_set()
    ensures { PartedSet }
{}

/// What lies in one execution of a region is timely with outages anywhere outside of regions.
pub fn held_is_timely()
    ensures { HeldIsTimely }
{}

/// Events that pass the tests of every use and of every set are timely.
pub fn tests_tell()
    ensures { TestsTell }
{}

/// Five reports worked out by hand are timely: an attempt broken off, one undone under further
/// outages, an outage right behind a region, one behind a consistent set, and an input carried by
/// a nonvolatile variable.
pub fn worked_reports()
    ensures { WorkedReports }
{}

/// A run that says last that it is over wants no sample.
pub fn ended_wants_none()
    ensures { EndedWantsNone }
{}
