//! The line of a drill.
ghost use Rattle.oc_io.specs.Faults.{Puts};
ghost use Rattle.oc_drill.specs.Drill.{drill_line};

use itoa::Buffer;
use oc_io::pieces::put_pieces;
use oc_io::sink::{Sink, SinkFault};

/// Writes the line of a drill of so many turns: the status of its run, and how many lines and bytes
/// that writes. At a fault a part of the line was taken.
pub fn put_drill<O: Sink>(
    turns: u32,
    status: u8,
    lines: u64,
    bytes: u64,
    out: &mut O,
) -> Result<(), SinkFault>
    ensures { Puts O.took O.faults out.old (drill_line turns status lines bytes) out.new result }
{
    let mut first = Buffer::new();
    let mut second = Buffer::new();
    let mut third = Buffer::new();
    let mut fourth = Buffer::new();
    let turns = first.format(turns).as_bytes();
    let status = second.format(status).as_bytes();
    let lines = third.format(lines).as_bytes();
    let bytes = fourth.format(bytes).as_bytes();
    put_pieces(
        out,
        &[
            b"drill ",
            turns,
            b" status ",
            status,
            b" lines ",
            lines,
            b" bytes ",
            bytes,
            b"\n",
        ],
    )
}
