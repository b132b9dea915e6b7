//! Whether a report is honest.
ghost use Rattle.std.specs.Prelude.{map, option_map, IfOk};
ghost use Rattle.oc_items.specs.Told.{told_of};
ghost use Rattle.oc_steps.specs.Auditing.{Finds, IsHeard, first_watch};
ghost use Rattle.oc_judge.specs.Going.{program_of, regions_of};
ghost use Rattle.oc_judge.specs.Seeking.{AreFound};
ghost use Rattle.oc_judge.specs.Verdicts.{IsVerdict, found, reported};
ghost use Rattle.oc_judge.specs.Watches.{answered, watch_view};

use crate::running::Running;
use crate::seeking::{Found, find_set};
use crate::watch::{Watch, first_watch, hear, said_by};
use oc_io::Memory;
use oc_items::item::Item;
use oc_tree::marked::Marked;
use std::alloc::{AllocError, Global};

/// What an audit finds: the report is honest, or this item, from 1, is the last of the shortest
/// prefix that isn't.
#[derive(Clone, Copy)]
pub enum Verdict {
    /// The report is honest.
    Honest,
    /// This item, from 1, is the last of the shortest prefix that isn't.
    Breaks { item: u64 },
}

/// Whether an item may be told now; the audit goes on behind it then.
fn hear_next<'a>(
    run: &Running<'a>,
    nv: Option<&[i32]>,
    watch: &mut Watch<'a>,
    sought: &mut Vec<Found>,
    item: Item,
) -> Result<bool, AllocError>
    requires { AreFound (program_of run.now) sought.old.items }
    ensures heard { IfOk result
        (λ good. IsHeard (program_of run.now) (regions_of run.now)
        (option_map (λ w. w.now) nv.entry)
        (watch_view watch.old) (told_of item).said (answered good watch.new)) }
    ensures sought { IfOk result (λ good. AreFound (program_of run.now) sought.new.items) }
{
    let set = find_set(run.program, sought, item)?;
    let good = hear(run, nv, watch, said_by(item), set)?;
    Ok(good)
}

/// What is found in these items, of which the first is told now.
fn find_break<'a>(
    run: &Running<'a>,
    items: &[Item],
    nv: Option<&[i32]>,
    watch: &mut Watch<'a>,
    sought: &mut Vec<Found>,
) -> Result<Verdict, AllocError>
    requires { AreFound (program_of run.now) sought.old.items }
    ensures { IfOk result
        (λ v. Finds (program_of run.now) (regions_of run.now) (option_map (λ w. w.now) nv.entry)
        (watch_view watch.old) (map told_of items.now) 1 (found v)) }
{
    let mut number = 1;
    for item in items {
        if !hear_next(run, nv, watch, sought, *item)? {
            return Ok(Verdict::Breaks { item: number });
        }
        number += 1;
    }
    Ok(Verdict::Honest)
}

/// What is found in a report of these items.
fn audit(run: &Running, items: &[Item], nv: Option<&[i32]>) -> Result<Verdict, AllocError>
    ensures { IfOk result
        (λ v. Finds (program_of run.now) (regions_of run.now) (option_map (λ w. w.now) nv.entry)
        (first_watch (program_of run.now) (regions_of run.now)) (map told_of items.now) 1
        (found v)) }
{
    let mut sought = Vec::new(run.alloc);
    let mut watch = first_watch(run)?;
    find_break(run, items, nv, &mut watch, &mut sought)
}

/// Judges a report of these items, and of these words of the nonvolatile variables, where there are
/// any.
pub fn judge(
    alloc: Global,
    marked: &Marked,
    items: &[Item],
    nv: Option<&[i32]>,
) -> Result<Verdict, Memory>
    ensures { IfOk result
        (λ v. IsVerdict marked.now.program marked.now.regions
        (reported items.now (option_map (λ w. w.now) nv.entry)) v) }
{
    let run = Running {
        alloc,
        program: marked.checked().program(),
        regions: marked.regions(),
    };
    match audit(&run, items, nv) {
        Ok(verdict) => Ok(verdict),
        Err(_) => Err(Memory),
    }
}
