//! What the text of a report tells.
ghost use Rattle.oc_items.specs.Erased.{ErasesIt, ErasesAlone};
ghost use Rattle.oc_items.specs.OneText.{NamesAreFields, OneReportEach, OneTextEach};
ghost use Rattle.oc_items.specs.Told.{ItemsTell};

/// No byte of a name of the language is a space or a line feed.
pub fn names_are_fields()
    ensures { NamesAreFields }
{}

/// Under names of which no two of one kind are the same, two lists of items with the same text are
/// equal.
pub fn one_text_each()
    ensures { OneTextEach }
{}

/// The same of whole reports, in which the words of the nonvolatile variables follow where the
/// items are over.
pub fn one_report_each()
    ensures { OneReportEach }
{}

/// The item of what an item tells is that item.
pub fn items_tell()
    ensures { ItemsTell }
{}

/// A report without its aborted attempts, each from the `enter` of a region to its `abort` with no
/// mark between, is one report and no other.
pub fn erased_alone()
    ensures erases { ErasesIt }
    ensures alone { ErasesAlone }
{}
