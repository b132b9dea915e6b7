//! Whether a report is honest for the program of a source.
ghost use Rattle.std.specs.Prelude.{◌≤◌, length, IfOk, IfErr};
ghost use Rattle.oc_lex.specs.Limits.{source_limit};
ghost use Rattle.oc_command.specs.Sinks.{writes};
ghost use Rattle.oc_top.specs.Audited.{IsFound};
ghost use Rattle.oc_top.specs.Judged.{IsAudited};
ghost use Rattle.oc_top.specs.Steps.{IsNotBuilt};

use crate::build::marked_of;
use oc_audit::audit::{Finding, audit_file};
use oc_command::answer::Answer;
use oc_io::sink::Sink;
use oc_report::text::put_text;
use std::alloc::Global;

/// What an audit of a report finds for the program that a source spells.
fn find(alloc: Global, source: &[u8], report: &[u8]) -> Result<Finding, Answer>
    requires { length source.now ≤ source_limit }
    ensures found { IfOk result (λ f. IsFound source.now report.now f) }
    ensures refused { IfErr result (λ a. IsNotBuilt source.now a) }
{
    let marked = marked_of(alloc, source)?;
    let finding = audit_file(alloc, &marked, report)?;
    Ok(finding)
}

/// Writes `honest` where a report is honest for the program that a source spells, or answers why it
/// isn't.
pub fn audit_report<O: Sink>(alloc: Global, source: &[u8], report: &[u8], out: &mut O) -> Answer
    requires { length source.now ≤ source_limit }
    ensures audited { IsAudited source.now report.now
        (writes O.took O.held O.faults out.old out.new) result }
    ensures count { O.faults out.old ≤ O.faults out.new }
{
    match find(alloc, source, report) {
        Ok(Finding::BadLine { line }) => Answer::BadReport { line },
        Ok(Finding::Breaks { item }) => Answer::Dishonest { item },
        Ok(Finding::Honest) => put_text(b"honest\n", out),
        Err(answer) => answer,
    }
}
