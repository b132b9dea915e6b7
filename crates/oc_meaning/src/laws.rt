//! What holds of the runs of every source.
ghost use Rattle.oc_meaning.specs.Parts.{SaysParts};
ghost use Rattle.oc_meaning.specs.Unmarked.{MarksOnlyTell};

/// A run with the marks of any regions is the source's run, once its marks are left out: the same
/// events with the same samples, the same ending and the same nonvolatile words.
pub fn marks_only_tell()
    ensures { MarksOnlyTell }
{}

/// A run says what is visible of the source, and the marks of regions, which depend on no sample; it
/// says nothing of outages.
pub fn says_parts()
    ensures { SaysParts }
{}
