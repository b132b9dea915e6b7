//! What the machine is about.

use oc_tree::said::Ending;

/// What a machine is doing, or how its run is over.
#[derive(Clone, Copy)]
pub enum Phase {
    /// Boot has made no step yet.
    Waking,
    /// Boot puts this entry of the undo log back next, counted from 0.
    Undoing { next: usize },
    /// Boot has restored so many of the saved words.
    Restoring { done: usize },
    /// Instructions are executed.
    Running,
    /// An outermost `enter` has saved so many words.
    Entering { done: usize },
    /// The run has ended by itself.
    Over { how: Ending },
    /// A low-power checkpoint didn't complete, and the run is over.
    Lost,
}
