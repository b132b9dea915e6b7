//! The audit: whether a report is honest for a program.
ghost use Rattle.std.specs.Prelude.{option_map, IfOk};
ghost use Rattle.oc_judge.specs.Verdicts.{IsVerdict, reported};
ghost use Rattle.oc_audit.specs.Findings.{IsFinding};

use crate::report::{Report, ReportError, read_report};
use oc_io::Memory;
use oc_judge::judge::{Verdict, judge};
use oc_tree::marked::Marked;
use std::alloc::Global;

/// What an audit of a file finds: its first bad line, the item at which its report breaks, or that
/// the report is honest.
#[derive(Clone, Copy)]
pub enum Finding {
    /// This is the first bad line.
    BadLine { line: u64 },
    /// The report breaks at this item, from 1.
    Breaks { item: u64 },
    /// The report is honest.
    Honest,
}

/// Whether a report is honest for a program with its regions; else the last item, from 1, of the
/// shortest front part that isn't.
pub fn audit(alloc: Global, marked: &Marked, report: &Report) -> Result<Verdict, Memory>
    ensures { IfOk result (λ v. IsVerdict marked.now.program marked.now.regions
        (reported report.now.items.items (option_map (λ w. w.items) report.now.nv)) v) }
{
    match &report.nv {
        Some(words) => judge(alloc, marked, &report.items, Some(words.as_slice())),
        None => judge(alloc, marked, &report.items, None),
    }
}

/// Audits the report of a file.
pub fn audit_file(alloc: Global, marked: &Marked, bytes: &[u8]) -> Result<Finding, Memory>
    ensures { IfOk result
        (λ f. IsFinding marked.now.program marked.now.regions bytes.now f) }
{
    let report = match read_report(alloc, bytes, marked.checked()) {
        Ok(report) => report,
        Err(ReportError::Line { line }) => return Ok(Finding::BadLine { line }),
        Err(ReportError::Memory) => return Err(Memory),
    };
    match audit(alloc, marked, &report)? {
        Verdict::Breaks { item } => Ok(Finding::Breaks { item }),
        Verdict::Honest => Ok(Finding::Honest),
    }
}
