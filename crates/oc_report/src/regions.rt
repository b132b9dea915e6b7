//! Writing the regions of a program.
ghost use Rattle.std.specs.Prelude.{◌≡◌, ◌<◌, length, map, IfOk};
ghost use Rattle.oc_io.specs.Faults.{Puts};
ghost use Rattle.oc_tree.specs.Regions.{region_view};
ghost use Rattle.oc_budget.specs.Budgets.{limited_budgets};
ghost use Rattle.oc_budget.specs.View.{budgets_view};
ghost use Rattle.oc_command.specs.Names.{policy_name, function_name, line_at};
ghost use Rattle.oc_report.specs.RegionDetails.{HasDetails, consistent_line, lines_with, numbers_at, policy_fields, range_of, region_fields};
ghost use Rattle.oc_report.specs.RegionLines.{reason_line, reason_lines, region_lines, regions_text, total_lines};

use itoa::Buffer;
use oc_budget::told::Budgets;
use oc_command::names::{function_name, line_at, policy_name};
use oc_effects::effects::Effects;
use oc_io::pieces::put_pieces;
use oc_io::sink::{Sink, SinkFault};
use oc_tree::marked::{Marked, Policy, PolicyKind, Region};
use oc_tree::name::Name;
use std::alloc::{AllocError, Global};

/// The lines of the source in which a region begins and ends.
#[derive(Clone, Copy)]
pub struct LineRange {
    pub first: u32,
    pub last: u32,
}

/// The numbers in a region's line besides its own.
#[derive(Clone, Copy)]
struct Numbers {
    lines: LineRange,
    logged: u32,
    budget: u64,
}

/// What is written of a program's regions besides what they have themselves: the lines of each, and
/// for each policy the name of its variable, which is empty for a consistent set.
#[derive(Drop)]
pub struct Details {
    pub lines: Vec<LineRange>,
    pub names: Vec<Name>,
}

/// The lines of a region.
fn range_of(effects: &Effects, region: &Region) -> LineRange
    ensures { result ≡ range_of effects.now.program (region_view region.now) }
{
    LineRange {
        first: line_at(effects, region.range.first),
        last: line_at(effects, region.range.last),
    }
}

/// The lines of each region.
fn lines_of_regions(
    alloc: Global,
    marked: &Marked,
    effects: &Effects,
) -> Result<Vec<LineRange>, AllocError>
    requires { effects.now.program ≡ marked.now.program }
    ensures { IfOk result (λ v. v.items ≡ map (range_of marked.now.program) marked.now.regions) }
{
    let mut lines = Vec::new(alloc);
    for region in marked.regions() {
        lines.push(range_of(effects, region))?;
    }
    Ok(lines)
}

/// The name of the function at a place.
fn function_of(marked: &Marked, function: u32) -> &[u8]
    ensures { result.now ≡ function_name marked.now.program function }
{
    function_name(marked.checked().program(), function)
}

/// The name of a policy's variable, as a name of its own.
fn name_of_policy(alloc: Global, marked: &Marked, policy: Policy) -> Result<Name, AllocError>
    ensures { IfOk result (λ n. n ≡ policy_name marked.now.program policy) }
{
    let bytes = Vec::from_slice(alloc, policy_name(marked.checked().program(), policy))?;
    Ok(Name::new(bytes))
}

/// The name of each policy's variable.
fn names_of_policies(alloc: Global, marked: &Marked) -> Result<Vec<Name>, AllocError>
    ensures { IfOk result
        (λ v. v.items ≡ map (policy_name marked.now.program) marked.now.policies) }
{
    let mut names = Vec::new(alloc);
    for policy in marked.policies() {
        names.push(name_of_policy(alloc, marked, *policy)?)?;
    }
    Ok(names)
}

/// The details of a program's regions, by the effects of its statements.
pub fn details_of(alloc: Global, marked: &Marked, effects: &Effects) -> Result<Details, AllocError>
    requires { effects.now.program ≡ marked.now.program }
    ensures { IfOk result (λ d. HasDetails marked.now d) }
{
    let lines = lines_of_regions(alloc, marked, effects)?;
    let names = names_of_policies(alloc, marked)?;
    Ok(Details { lines, names })
}

/// Writes the line of a region of a function with this name.
fn put_region<O: Sink>(
    region: &Region,
    function: &[u8],
    numbers: Numbers,
    sink: &mut O,
) -> Result<(), SinkFault>
    ensures { Puts O.took O.faults sink.old
        (region_fields (region_view region.now) function.now numbers) sink.new result }
{
    let mut id = Buffer::new();
    let mut first = Buffer::new();
    let mut last = Buffer::new();
    let mut first_line = Buffer::new();
    let mut last_line = Buffer::new();
    let mut logged = Buffer::new();
    let mut budget = Buffer::new();
    put_pieces(
        sink,
        &[
            b"region ",
            id.format(region.id).as_bytes(),
            b" ",
            function,
            b" ",
            first.format(region.range.first).as_bytes(),
            b"..",
            last.format(region.range.last).as_bytes(),
            b" lines ",
            first_line.format(numbers.lines.first).as_bytes(),
            b"..",
            last_line.format(numbers.lines.last).as_bytes(),
            b" logged ",
            logged.format(numbers.logged).as_bytes(),
            b" budget ",
            budget.format(numbers.budget).as_bytes(),
            b"\n",
        ],
    )
}

/// Writes the line of the consistent set of a number, of a function with this name.
fn put_consistent<O: Sink>(function: &[u8], id: i32, sink: &mut O) -> Result<(), SinkFault>
    ensures { Puts O.took O.faults sink.old (consistent_line function.now id) sink.new result }
{
    let mut number = Buffer::new();
    put_pieces(
        sink,
        &[
            b"consistent ",
            function,
            b" ",
            number.format(id).as_bytes(),
            b"\n",
        ],
    )
}

/// Writes the line of a policy of a function with this name, whose variable has that name.
fn put_policy<O: Sink>(
    kind: PolicyKind,
    function: &[u8],
    variable: &[u8],
    sink: &mut O,
) -> Result<(), SinkFault>
    ensures { Puts O.took O.faults sink.old
        (policy_fields kind function.now variable.now) sink.new result }
{
    match kind {
        PolicyKind::Fresh { .. } => {
            put_pieces(sink, &[b"fresh ", function, b" ", variable, b"\n"])
        }
        PolicyKind::Consistent { id } => put_consistent(function, id, sink),
    }
}

/// Writes the line of the policy of a number.
fn put_reason<O: Sink>(
    marked: &Marked,
    details: &Details,
    reason: u32,
    sink: &mut O,
) -> Result<(), SinkFault>
    requires { HasDetails marked.now details.now }
    ensures { Puts O.took O.faults sink.old (reason_line marked.now reason) sink.new result }
{
    let place = reason as usize;
    match (marked.policies().get(place), details.names.get(place)) {
        (Some(policy), Some(name)) => {
            let function = function_of(marked, policy.function);
            put_policy(policy.kind, function, name.bytes(), sink)
        }
        _ => Ok(()),
    }
}

/// Writes a line for each of these policies.
fn put_reasons<O: Sink>(
    marked: &Marked,
    details: &Details,
    reasons: &[u32],
    sink: &mut O,
) -> Result<(), SinkFault>
    requires { HasDetails marked.now details.now }
    ensures { Puts O.took O.faults sink.old (reason_lines marked.now reasons.now) sink.new result }
{
    for reason in reasons {
        if let Err(fault) = put_reason(marked, details, *reason, sink) {
            return Err(fault);
        }
    }
    Ok(())
}

/// The numbers of the region at a place.
fn numbers_at(budgets: &Budgets, details: &Details, place: usize) -> Numbers
    requires lines { place < length details.now.lines.items }
    requires logged { place < length budgets.now.logged.items }
    requires budget { place < length budgets.now.regions.items }
    ensures { result ≡ numbers_at budgets.now details.now place }
{
    Numbers {
        lines: details.lines[place],
        logged: budgets.logged[place],
        budget: budgets.regions[place],
    }
}

/// Writes the line of a region, and those of its reasons.
fn put_lines<O: Sink>(
    marked: &Marked,
    region: &Region,
    numbers: Numbers,
    details: &Details,
    sink: &mut O,
) -> Result<(), SinkFault>
    requires { HasDetails marked.now details.now }
    ensures { Puts O.took O.faults sink.old
        (lines_with marked.now (region_view region.now) numbers) sink.new result }
{
    let function = function_of(marked, region.function);
    if let Err(fault) = put_region(region, function, numbers, sink) {
        return Err(fault);
    }
    put_reasons(marked, details, &region.reasons, sink)
}

/// Writes the lines of all regions.
fn put_all<O: Sink>(
    marked: &Marked,
    budgets: &Budgets,
    details: &Details,
    sink: &mut O,
) -> Result<(), SinkFault>
    requires budgets { budgets_view budgets.now ≡ limited_budgets marked.now }
    requires details { HasDetails marked.now details.now }
    ensures { Puts O.took O.faults sink.old
        (region_lines marked.now (budgets_view budgets.now) 0 marked.now.regions) sink.new result }
{
    for (place, region) in marked.regions().iter().enumerate() {
        let numbers = numbers_at(budgets, details, place);
        if let Err(fault) = put_lines(marked, region, numbers, details, sink) {
            return Err(fault);
        }
    }
    Ok(())
}

/// Writes what runs cost and what periods need.
fn put_totals<O: Sink>(total: u64, safe: u64, sink: &mut O) -> Result<(), SinkFault>
    ensures { Puts O.took O.faults sink.old (total_lines total safe) sink.new result }
{
    let mut first = Buffer::new();
    let mut second = Buffer::new();
    let total = first.format(total).as_bytes();
    let safe = second.format(safe).as_bytes();
    put_pieces(sink, &[b"total ", total, b"\nsafe ", safe, b"\n"])
}

/// Writes the regions of a program: for each its line and a line for each of its reasons, and then
/// what runs cost and what periods need. It takes no memory. At a fault of the sink a part of the
/// text was taken.
pub fn put_regions<O: Sink>(
    marked: &Marked,
    budgets: &Budgets,
    details: &Details,
    sink: &mut O,
) -> Result<(), SinkFault>
    requires budgets { budgets_view budgets.now ≡ limited_budgets marked.now }
    requires details { HasDetails marked.now details.now }
    ensures { Puts O.took O.faults sink.old
        (regions_text marked.now (limited_budgets marked.now)) sink.new result }
{
    if let Err(fault) = put_all(marked, budgets, details, sink) {
        return Err(fault);
    }
    put_totals(budgets.total, budgets.safe, sink)
}
