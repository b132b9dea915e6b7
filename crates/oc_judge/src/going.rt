//! How a run goes on.
use crate::store::Completion;

/// What a step comes to: the run goes on with this, or a sample of a sensor is wanted.
#[derive(Clone, Copy)]
pub enum Going {
    /// It came to this.
    Goes { completion: Completion },
    /// It asks this sensor for a sample.
    Asks { sensor: u8 },
}
