//! The runs of checked and of marked programs.
ghost use Rattle.std.specs.Prelude.{◌≡◌, [], length, map, nat_le, take, true, false, IfOk, OnErr};
ghost use Rattle.oc_tree.specs.View.{program_view};
ghost use Rattle.oc_tree.specs.Regions.{region_view};
ghost use Rattle.oc_meaning.specs.Run.{AtShort, ended, first_store, in_order, marked_run, source_run, trace_at, trace_of};
ghost use Rattle.oc_interpreter.specs.Seen.{completion_at};
ghost use Rattle.oc_meaning.specs.Cuts.{Begins, Oldest, events_in};
ghost use Rattle.oc_interpreter.specs.Runs.{main_from};
ghost use Rattle.oc_interpreter.specs.Traces.{Rises, ending_of, parts, trace_view};

use crate::completion::{Completion, Stop};
use crate::interrupted::Interrupted;
use crate::running::Running;
use crate::samples::Samples;
use crate::statements::call_to;
use crate::store::Store;
use crate::trace::{MarkedTrace, Outcome, SourceTrace, cut_trace, source_trace, whole_trace};
use oc_io::Memory;
use oc_meaning::names::function_named;
use oc_tree::checked::Checked;
use oc_tree::marked::{Marked, Region};
use oc_tree::name::Name;
use oc_tree::said::{Ending, Said};
use oc_tree::tree::Program;
use std::alloc::{AllocError, Global};
use std::collections::VecDeque;

/// The store at the start.
fn first_store<'a>(
    alloc: Global,
    program: &Program,
    samples: &'a [i32],
    limit: u64,
) -> Result<Store<'a>, AllocError>
    ensures { IfOk result (λ s. s ≡ first_store (program_view program.now) samples.now) }
{
    Store::new(alloc, program.nv.as_slice(), samples, limit)
}

/// What `main` does. Calls go at most as deep as there are functions.
fn execute(
    alloc: Global,
    program: &Program,
    regions: &[Region],
    store: &mut Store,
) -> Result<Completion, Interrupted>
    ensures runs { IfOk result
        (λ o. completion_at o store.new
        ≡ main_from (program_view program.now) (map region_view regions.now) store.old) }
    ensures cut { OnErr result
        (Oldest store.new.events
        (events_in (main_from (program_view program.now) (map region_view regions.now)
        store.old))) }
{
    let main = Name::new(Vec::from_slice(alloc, b"main")?);
    let functions = program.functions.as_slice();
    let Some(function) = function_named(functions, &main) else {
        return Ok(Completion::Went);
    };
    let run = Running {
        alloc,
        program,
        regions,
        depth: functions.len() + 1,
        body: &function.body,
    };
    call_to(&run, &main, VecDeque::new(alloc), store)
}

/// Tells that the run came to its end by itself.
fn halt(alloc: Global, store: &mut Store) -> Result<Outcome, Interrupted>
    ensures step { IfOk result (λ o. trace_at (ending_of o) store.new ≡ ended store.old) }
    ensures cut { OnErr result (Begins (in_order store.new.events) (ended store.old).events) }
{
    let how = Ending::Halted;
    store.note(Said::Ended { how }, Samples::none(alloc))?;
    Ok(Outcome::Ended)
}

/// How a run ends that came to this.
fn end(alloc: Global, completion: Completion, store: &mut Store) -> Result<Outcome, Interrupted>
    ensures step { IfOk result
        (λ o. trace_at (ending_of o) store.new ≡ trace_of (completion_at completion store.old)) }
    ensures cut { OnErr result
        (Begins (in_order store.new.events)
        (trace_of (completion_at completion store.old)).events) }
{
    match completion {
        Completion::Went => halt(alloc, store),
        Completion::Returned { .. } => halt(alloc, store),
        Completion::Stopped {
            stop: Stop::Trapped,
        } => Ok(Outcome::Trapped),
        Completion::Stopped { stop: Stop::Short } => Ok(Outcome::Short),
    }
}

/// The run of a program with the marks of these regions. What is told begins the whole, also where it
/// is given up.
fn run(
    alloc: Global,
    program: &Program,
    regions: &[Region],
    store: &mut Store,
) -> Result<Outcome, Interrupted>
    ensures runs { IfOk result
        (λ o. trace_at (ending_of o) store.new
        ≡ trace_of (main_from (program_view program.now) (map region_view regions.now) store.old)) }
    ensures begins { Begins (in_order store.new.events)
        (trace_of (main_from (program_view program.now) (map region_view regions.now)
        store.old)).events }
{
    let completion = execute(alloc, program, regions, store)?;
    let outcome = end(alloc, completion, store)?;
    Ok(outcome)
}

/// The run without regions, however much it tells.
fn trace_source(
    alloc: Global,
    program: &Program,
    samples: &[i32],
) -> Result<SourceTrace, Interrupted>
    ensures { IfOk result (λ t. trace_view t ≡ source_run (program_view program.now) samples.now) }
{
    let mut store = first_store(alloc, program, samples, u64::MAX)?;
    let outcome = run(alloc, program, &[], &mut store)?;
    let trace = source_trace(alloc, store, outcome)?;
    Ok(trace)
}

/// The run of a checked program over a list of samples.
pub fn run_source(alloc: Global, checked: &Checked, samples: &[i32]) -> Result<SourceTrace, Memory>
    ensures { IfOk result (λ t. trace_view t ≡ source_run checked.now.program samples.now) }
{
    match trace_source(alloc, checked.program(), samples) {
        Ok(trace) => Ok(trace),
        Err(_) => Err(Memory),
    }
}

/// The first `limit` parts of a run with the marks of these regions.
fn trace_marked(
    alloc: Global,
    program: &Program,
    regions: &[Region],
    samples: &[i32],
    limit: u64,
) -> Result<MarkedTrace, Interrupted>
    ensures parts { IfOk result
        (λ t. parts t
        ≡ take limit
        (marked_run (program_view program.now) (map region_view regions.now) samples.now).events) }
    ensures whole { IfOk result
        (λ t. t.whole
        ≡ nat_le (length
        (marked_run (program_view program.now) (map region_view regions.now) samples.now).events)
        limit) }
    ensures told { IfOk result
        (λ t. t.whole ≡ true
        → parts t
        ≡ (marked_run (program_view program.now) (map region_view regions.now)
        samples.now).events) }
    ensures source { IfOk result
        (λ t. t.whole ≡ true
        → trace_view t.trace ≡ source_run (program_view program.now) samples.now) }
    ensures short { IfOk result (λ t. t.whole ≡ false → ending_of t.trace.outcome ≡ AtShort) }
    ensures words { IfOk result (λ t. t.whole ≡ false → t.trace.nv.items ≡ []) }
    ensures rises { IfOk result (λ t. Rises 0 t.marks.items (length t.trace.events.items)) }
{
    let mut store = first_store(alloc, program, samples, limit)?;
    let ran = run(alloc, program, regions, &mut store);
    if store.count_told() as u64 > limit {
        let trace = cut_trace(alloc, store, limit)?;
        return Ok(trace);
    }
    let outcome = ran?;
    let trace = whole_trace(alloc, store, outcome)?;
    Ok(trace)
}

/// The first `limit` parts of the run of a marked program over a list of samples: the events of the
/// source, and the marks of the regions. It is `whole` where the run has no more parts: then its trace
/// is the source's run. Else its outcome is `Short`, and it has no nonvolatile words.
pub fn run_marked(
    alloc: Global,
    marked: &Marked,
    samples: &[i32],
    limit: u64,
) -> Result<MarkedTrace, Memory>
    ensures parts { IfOk result
        (λ t. parts t
        ≡ take limit (marked_run marked.now.program marked.now.regions samples.now).events) }
    ensures whole { IfOk result
        (λ t. t.whole
        ≡ nat_le (length (marked_run marked.now.program marked.now.regions samples.now).events)
        limit) }
    ensures told { IfOk result
        (λ t. t.whole ≡ true
        → parts t ≡ (marked_run marked.now.program marked.now.regions samples.now).events) }
    ensures source { IfOk result
        (λ t. t.whole ≡ true → trace_view t.trace ≡ source_run marked.now.program samples.now) }
    ensures short { IfOk result (λ t. t.whole ≡ false → ending_of t.trace.outcome ≡ AtShort) }
    ensures words { IfOk result (λ t. t.whole ≡ false → t.trace.nv.items ≡ []) }
    ensures rises { IfOk result (λ t. Rises 0 t.marks.items (length t.trace.events.items)) }
{
    let program = marked.checked().program();
    match trace_marked(alloc, program, marked.regions(), samples, limit) {
        Ok(trace) => Ok(trace),
        Err(_) => Err(Memory),
    }
}
