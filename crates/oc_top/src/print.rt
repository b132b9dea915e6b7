//! Texts of a program: its regions, and the listing of its image.
ghost use Rattle.std.specs.Prelude.{◌≡◌, ◌≤◌, length, IfOk, IfErr};
ghost use Rattle.oc_effects.specs.Kept.{AreKeptOf};
ghost use Rattle.oc_budget.specs.Budgets.{limited_budgets};
ghost use Rattle.oc_budget.specs.View.{budgets_view};
ghost use Rattle.oc_lex.specs.Limits.{source_limit};
ghost use Rattle.oc_command.specs.Sinks.{writes};
ghost use Rattle.oc_report.specs.Written.{IsWritten};
ghost use Rattle.oc_top.specs.Printed.{IsPrinted, TellsRegions};
ghost use Rattle.oc_report.specs.RegionDetails.{HasDetails};
ghost use Rattle.oc_report.specs.RegionLines.{regions_text};
ghost use Rattle.oc_top.specs.Steps.{IsNotBuilt};
ghost use Rattle.oc_report.specs.Runs.{prints};
ghost use Rattle.oc_top.specs.Verdict.{listing_of, regions_of};

use crate::build::{image_by, marked_with_effects};
use crate::prepare::build_image;
use oc_budget::costs::budgets_by;
use oc_budget::told::Budgets;
use oc_command::answer::Answer;
use oc_effects::effects::{Effects, Kept};
use oc_io::Memory;
use oc_io::sink::Sink;
use oc_report::regions::{Details, details_of, put_regions};
use oc_report::report::flush_with;
use oc_report::text::put_listing;
use oc_tree::marked::Marked;
use std::alloc::Global;

/// The regions of a program, ready to be written.
#[derive(Drop)]
pub struct Told {
    pub marked: Marked,
    pub budgets: Budgets,
    pub details: Details,
}

/// The budgets and the details of a program, by the effects of its statements.
fn told_by(alloc: Global, marked: &Marked, effects: &Effects) -> Result<(Budgets, Details), Memory>
    requires { effects.now.program ≡ marked.now.program }
    ensures budgets { IfOk result (λ t. budgets_view t.0 ≡ limited_budgets marked.now) }
    ensures details { IfOk result (λ t. HasDetails marked.now t.1) }
{
    let image = image_by(alloc, marked, effects)?;
    let budgets = budgets_by(alloc, marked, effects, &image)?;
    match details_of(alloc, marked, effects) {
        Ok(details) => Ok((budgets, details)),
        Err(_) => Err(Memory),
    }
}

/// The same by effects that were kept without the program.
fn told_of(alloc: Global, marked: &Marked, kept: Kept) -> Result<(Budgets, Details), Memory>
    requires { AreKeptOf marked.now.program kept }
    ensures budgets { IfOk result (λ t. budgets_view t.0 ≡ limited_budgets marked.now) }
    ensures details { IfOk result (λ t. HasDetails marked.now t.1) }
{
    let effects = Effects::from_kept(marked.checked(), kept);
    let told = told_by(alloc, marked, &effects)?;
    Ok(told)
}

/// The regions of the program that a source spells, with their budgets.
fn tell(alloc: Global, source: &[u8]) -> Result<Told, Answer>
    requires { length source.now ≤ source_limit }
    ensures told { IfOk result (λ t. TellsRegions source.now t) }
    ensures refused { IfErr result (λ a. IsNotBuilt source.now a) }
{
    let (marked, kept) = marked_with_effects(alloc, source)?;
    let (budgets, details) = told_of(alloc, &marked, kept)?;
    Ok(Told {
        marked,
        budgets,
        details,
    })
}

/// Writes the regions of a program.
fn put_told<O: Sink>(told: &Told, out: &mut O) -> Answer
    requires budgets { budgets_view told.now.budgets ≡ limited_budgets told.now.marked }
    requires details { HasDetails told.now.marked told.now.details }
    ensures written { IsWritten (writes O.took O.held O.faults out.old out.new)
        (prints (regions_text told.now.marked (limited_budgets told.now.marked))) result }
    ensures count { O.faults out.old ≤ O.faults out.new }
{
    match put_regions(&told.marked, &told.budgets, &told.details, out) {
        Ok(()) => flush_with(Answer::End, out),
        Err(_) => Answer::WriteFault,
    }
}

/// Writes the regions of the program that a source spells, or answers why there is none.
pub fn print_regions<O: Sink>(alloc: Global, source: &[u8], out: &mut O) -> Answer
    requires { length source.now ≤ source_limit }
    ensures printed { IsPrinted source.now regions_of
        (writes O.took O.held O.faults out.old out.new) result }
    ensures count { O.faults out.old ≤ O.faults out.new }
{
    match tell(alloc, source) {
        Ok(told) => put_told(&told, out),
        Err(answer) => answer,
    }
}

/// Writes the listing of the image of the program that a source spells, or answers why there is
/// none.
pub fn print_listing<O: Sink>(alloc: Global, source: &[u8], out: &mut O) -> Answer
    requires { length source.now ≤ source_limit }
    ensures printed { IsPrinted source.now listing_of
        (writes O.took O.held O.faults out.old out.new) result }
    ensures count { O.faults out.old ≤ O.faults out.new }
{
    match build_image(alloc, source) {
        Ok(image) => put_listing(&image, out),
        Err(answer) => answer,
    }
}
