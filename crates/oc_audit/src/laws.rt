//! Laws: a function does nothing, and its contract says the law.
ghost use Rattle.oc_audit.specs.Apart.{CheckedNamesAreApart, NamesAreApart};
ghost use Rattle.oc_audit.specs.Apart.{ProgramsHaveOneReport, ProgramsHaveOneText};
ghost use Rattle.oc_audit.specs.Findings.{HonestTexts, OneFinding};
ghost use Rattle.oc_audit.specs.Laws.{FilesReadOneWay, LinesRead, OneReportEach, ProgramsReadBack, TextsReadBack};

/// What lines of a report spell, and what they don't.
pub fn lines_read()
    ensures { LinesRead }
{}

/// Bytes have one bad line at most, and those of a report file have none.
pub fn files_read_one_way()
    ensures { FilesReadOneWay }
{}

/// The text of a report is read back as that report and no other.
pub fn texts_read_back()
    ensures { TextsReadBack }
{}

/// The text of a report under the names of a checked program is read back as that report and no
/// other; so bytes spell one report of it at most.
pub fn programs_read_back()
    ensures back { ProgramsReadBack }
    ensures one { OneReportEach }
{}

/// A file is found to be one thing.
pub fn one_finding()
    ensures { OneFinding }
{}

/// The text of an honest report is found to be honest and nothing else.
pub fn honest_texts()
    ensures { HonestTexts }
{}

/// No two sensors of an accepted program have the same name, and no two ports; and no byte of its
/// names is a space or a line feed.
pub fn names_are_apart()
    ensures written { NamesAreApart }
    ensures checked { CheckedNamesAreApart }
{}

/// Two lists of items of an accepted program with the same text are equal.
pub fn programs_have_one_text()
    ensures { ProgramsHaveOneText }
{}

/// Two whole reports of an accepted program with the same text are equal; the words of its
/// nonvolatile variables follow where the items are over.
pub fn programs_have_one_report()
    ensures { ProgramsHaveOneReport }
{}
