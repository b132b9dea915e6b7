//! The program's own supplies and meters.
ghost use Rattle.std.specs.Prelude.{◌≡◌, ◌≤◌, [], ◌∷◌, map, IfOk, OnErr};
ghost use Rattle.std.specs.String.{string_bytes};
ghost use Rattle.oc_power.specs.Cutting.{cut_rows};
ghost use Rattle.oc_power.specs.Looping.{looped};
ghost use Rattle.oc_meters.specs.Tally.{reading};
ghost use Rattle.oc_command.specs.Sinks.{writes};
ghost use Rattle.oc_top.specs.Answers.{call_for};
ghost use Rattle.oc_command.specs.Commands.{command_of};
ghost use Rattle.oc_command.specs.Files.{ShelfStays, fetches};
ghost use Rattle.oc_top.specs.Supplies.{piece_limit, round_limit, standard_meters, standard_plans};
ghost use Rattle.oc_top.specs.Works.{Works};

use crate::top::ocelot;
use oc_io::shelf::Shelf;
use oc_io::sink::Sink;
use oc_meters::kinds::{Counts, OffTime, Retries};
use oc_meters::meter::Meter;
use oc_power::cutter::Cutter;
use oc_power::looped::Looped;
use oc_power::recorded::Recorded;
use oc_power::supply::Supply;
use std::alloc::{AllocError, Global};

/// How many rounds of the rows the second supply tells at most.
const ROUNDS: u32 = 64;

/// How many steps the pieces of the third supply have at most.
const PIECE: u64 = 50;

/// [`ocelot`] with a supply that tells the rows, one that tells them in rounds, and one that tells
/// them in pieces, and with a meter that counts, one of the times without power and one of aborts
/// in a row. Without the memory for lists of these it does nothing.
fn ocelot_with_boxes<F: Shelf, O: Sink, E: Sink>(
    alloc: Global,
    words: &[String],
    shelf: &mut F,
    out: &mut O,
    err: &mut E,
    rows: Box<dyn Supply>,
    rounds: Box<dyn Supply>,
    pieces: Box<dyn Supply>,
    counts: Box<dyn Meter>,
    offs: Box<dyn Meter>,
    retries: Box<dyn Meter>,
) -> Result<u8, AllocError>
    requires zero { number rows ≡ 0 }
    requires one { number rounds ≡ 1 }
    requires two { number pieces ≡ 2 }
    requires rows { plan rows ≡ (λ given. given) }
    requires rounds { plan rounds ≡ looped round_limit }
    requires pieces { plan pieces ≡ cut_rows piece_limit }
    requires counts { reading (λ b. kind_of b) (λ b. numbers b) counts
        ≡ record { kind = 0; numbers = 0 ∷ 0 ∷ 0 ∷ 0 ∷ 0 ∷ [] } }
    requires offs { reading (λ b. kind_of b) (λ b. numbers b) offs
        ≡ record { kind = 1; numbers = 0 ∷ 0 ∷ [] } }
    requires retries { reading (λ b. kind_of b) (λ b. numbers b) retries
        ≡ record { kind = 2; numbers = 0 ∷ 0 ∷ [] } }
    ensures works { IfOk result (λ status. Works (call_for standard_plans standard_meters
        (command_of (map string_bytes words.now))
        (fetches F.holds F.asked F.faults shelf.old shelf.new)
        (writes O.took O.held O.faults out.old out.new))
        (writes E.took E.held E.faults err.old err.new) status) }
    ensures stays { ShelfStays F.holds F.faults shelf.old shelf.new }
    ensures out { O.faults out.old ≤ O.faults out.new }
    ensures err { E.faults err.old ≤ E.faults err.new }
    ensures nothing { OnErr result
        ((shelf.new ≡ shelf.old) × (out.new ≡ out.old) × (err.new ≡ err.old)) }
{
    let mut supplies: Vec<Box<dyn Supply>> = Vec::new(alloc);
    supplies.push(rows)?;
    supplies.push(rounds)?;
    supplies.push(pieces)?;
    let mut meters: Vec<Box<dyn Meter>> = Vec::new(alloc);
    meters.push(counts)?;
    meters.push(offs)?;
    meters.push(retries)?;
    Ok(ocelot(alloc, words, shelf, out, err, supplies, meters))
}

/// [`ocelot`] with the program's own supplies and meters: supply 0 tells the rows of the power file,
/// 1 tells them in up to 64 rounds, and 2 in pieces of up to 50 steps; the meters count what was
/// said, have the times without power, and the aborts in a row. Without the memory for these it does
/// nothing.
pub fn ocelot_with_standard<F: Shelf, O: Sink, E: Sink>(
    alloc: Global,
    words: &[String],
    shelf: &mut F,
    out: &mut O,
    err: &mut E,
) -> Result<u8, AllocError>
    ensures works { IfOk result (λ status. Works (call_for standard_plans standard_meters
        (command_of (map string_bytes words.now))
        (fetches F.holds F.asked F.faults shelf.old shelf.new)
        (writes O.took O.held O.faults out.old out.new))
        (writes E.took E.held E.faults err.old err.new) status) }
    ensures stays { ShelfStays F.holds F.faults shelf.old shelf.new }
    ensures out { O.faults out.old ≤ O.faults out.new }
    ensures err { E.faults err.old ≤ E.faults err.new }
    ensures nothing { OnErr result
        ((shelf.new ≡ shelf.old) × (out.new ≡ out.old) × (err.new ≡ err.old)) }
{
    let rows = Box::new(alloc, Recorded::new(alloc))?;
    let rounds = Box::new(alloc, Looped::new(alloc, ROUNDS))?;
    let pieces = Box::new(alloc, Cutter::new(alloc, PIECE))?;
    let counts = Box::new(alloc, Counts::new())?;
    let offs = Box::new(alloc, OffTime::new())?;
    let retries = Box::new(alloc, Retries::new())?;
    ocelot_with_boxes(
        alloc, words, shelf, out, err, rows, rounds, pieces, counts, offs, retries,
    )
}
