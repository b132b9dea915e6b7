//! Texts that are put in pieces.
ghost use Rattle.std.specs.List.{flat_map};
ghost use Rattle.oc_io.specs.Faults.{Puts};

use crate::sink::{Sink, SinkFault};

/// Puts pieces one after the other. At a fault the sink took a part of them.
pub fn put_pieces<O: Sink>(sink: &mut O, pieces: &[&[u8]]) -> Result<(), SinkFault>
    ensures { Puts O.took O.faults sink.old (flat_map (λ p. p.now) pieces.now) sink.new result }
{
    for piece in pieces {
        if let Err(fault) = sink.put(piece) {
            return Err(fault);
        }
    }
    Ok(())
}
