//! The lines of meters.
ghost use Rattle.std.specs.Prelude.{◌≡◌};
ghost use Rattle.oc_io.specs.Faults.{Puts};
ghost use Rattle.oc_meters.specs.Lines.{kind_name, meter_line, meter_lines, number_field};
ghost use Rattle.oc_meters.specs.Tally.{reading, readings, width as width_of};

use crate::meter::Meter;
use itoa::Buffer;
use oc_io::pieces::put_pieces;
use oc_io::sink::{Sink, SinkFault};

/// The name of a kind.
fn name(kind: u8) -> &'static [u8]
    ensures { result.now ≡ kind_name kind }
{
    match kind {
        0 => b"counts",
        1 => b"off",
        _ => b"retries",
    }
}

/// How many numbers a meter of this kind has.
fn width(kind: u8) -> u8
    ensures { result ≡ width_of kind }
{
    match kind {
        0 => 5,
        _ => 2,
    }
}

/// Writes a further number of a line, with the space before it.
fn put_number<E: Sink>(number: u64, err: &mut E) -> Result<(), SinkFault>
    ensures { Puts E.took E.faults err.old (number_field number) err.new result }
{
    let mut digits = Buffer::new();
    put_pieces(err, &[b" ", digits.format(number).as_bytes()])
}

/// Writes the line of a meter: `meter`, its name and its numbers.
fn put_meter<M: Meter, E: Sink>(meter: &M, err: &mut E) -> Result<(), SinkFault>
    ensures { Puts E.took E.faults err.old
        (meter_line (reading M.kind_of M.numbers meter.now)) err.new result }
{
    let kind = meter.kind();
    if let Err(fault) = put_pieces(err, &[b"meter ", name(kind)]) {
        return Err(fault);
    }
    for place in 0..width(kind) {
        if let Err(fault) = put_number(meter.number(place), err) {
            return Err(fault);
        }
    }
    err.put(b"\n")
}

/// Writes a line for each meter, in their order. At a fault a part of them was taken.
pub fn put_meters<M: Meter, E: Sink>(meters: &[M], err: &mut E) -> Result<(), SinkFault>
    ensures { Puts E.took E.faults err.old
        (meter_lines (readings M.kind_of M.numbers meters.now)) err.new result }
{
    for meter in meters {
        if let Err(fault) = put_meter(meter, err) {
            return Err(fault);
        }
    }
    Ok(())
}
