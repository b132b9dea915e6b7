//! The run of a program with the marks of its regions, and what it costs.
ghost use Rattle.std.specs.Prelude.{◌≡◌, map, IfOk};
ghost use Rattle.oc_needs.specs.Requirements.{requirements};
ghost use Rattle.oc_needs.specs.View.{requirement_view};

use crate::{LIMIT, put_trace};
use anyhow::bail;
use oc_budget::costs::budgets;
use oc_budget::told::Budgets;
use oc_codegen::compile;
use oc_flow::summaries;
use oc_interpreter::run::run_marked;
use oc_interpreter::trace::Mark;
use oc_io::Memory;
use oc_io::sink::Sink;
use oc_needs::requirement::Requirement;
use oc_needs::requirements;
use oc_region::infer;
use oc_tree::checked::Checked;
use oc_tree::marked::Marked;
use oc_worked::check_source;
use oc_writes::may_write;
use std::alloc::Global;

/// Takes a sample that is to be fresh, keeps it and emits it.
const FRESH: &str =
    "sensor t; port r; nv n: i32 = 0; fn main() { let x = sense(t); Fresh(x); n = x; emit(r, n); emit(r, x); }";

/// What the annotations of a program require.
fn required(alloc: Global, checked: &Checked) -> anyhow::Result<Vec<Requirement>>
    ensures { IfOk result (λ r. map requirement_view r.items ≡ requirements checked.now.program) }
{
    let summaries = summaries(alloc, checked)?;
    Ok(requirements(alloc, checked, &summaries)?)
}

/// A source's program with its regions.
fn with_regions(alloc: Global, source: &[u8]) -> anyhow::Result<Marked> {
    if source.len() > LIMIT {
        bail!("a source of more than 1 MiB");
    }
    let checked = check_source(alloc, source)?;
    let required = required(alloc, &checked)?;
    match infer(alloc, checked, &required) {
        Ok(marked) => Ok(marked),
        Err((_, memory)) => Err(memory.into()),
    }
}

/// Writes the begin or the end of a region, with the number of events before it.
fn put_mark<O: Sink>(alloc: Global, mark: Mark, out: &mut O) -> anyhow::Result<()> {
    let what = if mark.enter { "enter" } else { "commit" };
    let text = format!(in alloc; "{what} {} behind {}\n", mark.region, mark.before)?;
    out.put(text.as_bytes())?;
    Ok(())
}

/// Writes the first parts of a run with the marks of its regions, and whether these are all.
fn put_parts<O: Sink>(
    alloc: Global,
    marked: &Marked,
    most: u64,
    out: &mut O,
) -> anyhow::Result<()> {
    let parts = run_marked(alloc, marked, &[21], most)?;
    for mark in &parts.marks {
        put_mark(alloc, *mark, out)?;
    }
    out.put(if parts.whole { b"whole\n" } else { b"part\n" })?;
    put_trace(alloc, &marked.checked().program().names, &parts.trace, out)
}

/// What the runs of a program cost.
fn costs(alloc: Global, marked: &Marked) -> Result<Budgets, Memory> {
    let writes = may_write(alloc, marked)?;
    let image = compile(alloc, marked, &writes)?;
    budgets(alloc, marked, &image)
}

/// Writes how many instructions a run takes at most, and how many steps a safe period has.
fn put_costs<O: Sink>(alloc: Global, marked: &Marked, out: &mut O) -> anyhow::Result<()> {
    let costs = costs(alloc, marked)?;
    let text = format!(in alloc; "total {} safe {}\n", costs.total, costs.safe)?;
    out.put(text.as_bytes())?;
    Ok(())
}

/// Writes the first three parts of a program's run, all of it, and what it costs.
pub fn put_marked<O: Sink>(alloc: Global, out: &mut O) -> anyhow::Result<()> {
    let marked = with_regions(alloc, FRESH.as_bytes())?;
    put_parts(alloc, &marked, 3, out)?;
    put_parts(alloc, &marked, 100, out)?;
    put_costs(alloc, &marked, out)
}
