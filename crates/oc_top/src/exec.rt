//! Runs of images.
ghost use Rattle.std.specs.Prelude.{◌≤◌, List, [], Some};
ghost use Rattle.oc_meters.specs.Tally.{Reading};
ghost use Rattle.oc_command.specs.Commands.{Exec as to_execute, executing, plans_of, run_words};
ghost use Rattle.oc_command.specs.Files.{ShelfStays, fetches};
ghost use Rattle.oc_command.specs.Sinks.{writes};
ghost use Rattle.oc_top.specs.Answers.{Comes, call_for, call_of};

use oc_command::answer::Answer;
use oc_command::command::RunWords;
use oc_command::files::{IMAGE_LIMIT, fetch_files};
use oc_io::shelf::Shelf;
use oc_io::sink::Sink;
use oc_power::supply::{Supply, choose};
use oc_report::prepare::prepare_image;
use oc_report::report::report;
use std::alloc::Global;

/// Runs the image and the files under these words, with this supply.
fn exec<F: Shelf, O: Sink>(
    alloc: Global,
    words: RunWords<'_>,
    shelf: &mut F,
    out: &mut O,
    supply: &mut dyn Supply,
) -> Answer
    ensures comes { Comes (call_of (run_words words.entry) (Some (executing (plan supply.old)))
        (fetches F.holds F.asked F.faults shelf.old shelf.new)
        (writes O.took O.held O.faults out.old out.new)) [] result }
    ensures stays { ShelfStays F.holds F.faults shelf.old shelf.new }
    ensures count { O.faults out.old ≤ O.faults out.new }
{
    let files = match fetch_files(alloc, words, IMAGE_LIMIT, shelf) {
        Ok(files) => files,
        Err(answer) => return answer,
    };
    match prepare_image(alloc, &files, supply) {
        Ok(prepared) => report(prepared, supply, out),
        Err(answer) => answer,
    }
}

/// Runs the image and the files under these words, with the first supply that has the number 0.
pub fn exec_by<F: Shelf, O: Sink>(
    alloc: Global,
    words: RunWords<'_>,
    shelf: &mut F,
    out: &mut O,
    supplies: Vec<Box<dyn Supply>>,
) -> Answer
    ensures comes { (meters : List Reading) →
        Comes (call_for (plans_of (λ b. number b) (λ b. plan b) supplies.items) meters
        (Some (to_execute (run_words words.entry)))
        (fetches F.holds F.asked F.faults shelf.old shelf.new)
        (writes O.took O.held O.faults out.old out.new)) [] result }
    ensures stays { ShelfStays F.holds F.faults shelf.old shelf.new }
    ensures count { O.faults out.old ≤ O.faults out.new }
{
    match choose(supplies, 0) {
        Some(mut supply) => exec(alloc, words, shelf, out, &mut *supply),
        None => Answer::Usage,
    }
}
