//! What an audit finds in reports of programs whose regions are left out, some of which break by
//! timeliness alone.
//!
//! The standard input has the cases: behind `# ` the name of each, a source without nonvolatile variables
//! in the next line, and its report behind that. Each report is judged with the words of these variables,
//! which are none, and without words.
#![tactic(auto)]

ghost use Rattle.std.specs.Prelude.{◌≡◌, []};

use anyhow::bail;
use oc_io::sink::Sink;
use oc_io::stream::StreamSink;
use oc_items::item::Item;
use oc_items::read::read_item;
use oc_judge::judge::{Verdict, judge};
use oc_tree::checked::Checked;
use oc_tree::marked::Marked;
use oc_tree::name::Names;
use oc_worked::check_source;
use std::alloc::Global;
use std::io;

/// The most bytes that a source may have.
const LIMIT: usize = 1048576;

/// A program without regions.
#[tactic(auto, using(crate::proofs::Unmarked::none_marked))]
fn without_regions(alloc: Global, checked: Checked) -> Marked
    ensures { result ≡ record {
      program = checked.program;
      groups = checked.groups;
      policies = [];
      regions = [];
    } }
{
    // For the proof alone: it tells that the program is checked.
    let _program = checked.program();
    Marked::new(checked, Vec::new(alloc), Vec::new(alloc))
}

/// Writes what is found in a report.
fn put_verdict<O: Sink>(
    alloc: Global,
    name: &str,
    verdict: Verdict,
    out: &mut O,
) -> anyhow::Result<()> {
    let text = match verdict {
        Verdict::Honest => format!(in alloc; "{name}: honest\n")?,
        Verdict::Breaks { item } => format!(in alloc; "{name}: breaks at item {item}\n")?,
    };
    out.put(text.as_bytes())?;
    Ok(())
}

/// Writes what is found in a report of these items, with words and without.
fn put_verdicts<O: Sink>(
    alloc: Global,
    name: &str,
    marked: &Marked,
    items: &[Item],
    out: &mut O,
) -> anyhow::Result<()> {
    put_verdict(alloc, name, judge(alloc, marked, items, Some(&[]))?, out)?;
    let without = judge(alloc, marked, items, None)?;
    put_verdict(alloc, "without words", without, out)
}

/// The items of a report.
fn items_of(alloc: Global, report: &str, names: &Names) -> anyhow::Result<Vec<Item>> {
    let mut items = Vec::new(alloc);
    for line in report.lines() {
        let Some(item) = read_item(line.as_bytes(), names) else {
            bail!("no item: {line}");
        };
        items.push(item)?;
    }
    Ok(items)
}

/// Writes what is found in a report of a program.
fn put_report<O: Sink>(
    alloc: Global,
    name: &str,
    marked: &Marked,
    report: &str,
    out: &mut O,
) -> anyhow::Result<()> {
    let items = items_of(alloc, report, &marked.checked().program().names)?;
    put_verdicts(alloc, name, marked, &items, out)
}

/// Writes what is found in the report of a case.
fn put_case<O: Sink>(alloc: Global, case: &str, out: &mut O) -> anyhow::Result<()> {
    let (name, rest) = case.split_once('\n').unwrap_or((case, ""));
    let (source, report) = rest.split_once('\n').unwrap_or((rest, ""));
    if source.len() > LIMIT {
        bail!("a source of more than 1 MiB");
    }
    let marked = without_regions(alloc, check_source(alloc, source.as_bytes())?);
    put_report(alloc, name, &marked, report, out)
}

/// Writes what is found in the reports of the standard input on the standard output.
fn main(rt: HostRuntime) -> anyhow::Result<()> {
    let alloc = rt.alloc();
    let text = io::read_to_string(alloc, rt.reader())?;
    let mut out = StreamSink::new(io::writer(&rt));
    for case in text.split("# ").skip(1) {
        put_case(alloc, case, &mut out)?;
    }
    out.flush()?;
    Ok(())
}
