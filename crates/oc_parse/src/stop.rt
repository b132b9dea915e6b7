//! Why reading stops.
ghost use Rattle.std.specs.Prelude.{◌≡◌};
ghost use Rattle.oc_parse.specs.declared.stop.Stop.TheVariants.{Memory};

use std::alloc::{AllocError, AllocFailed};

/// Why reading stops: memory, or the token with which so many tokens are left.
#[derive(Clone, Copy)]
pub enum Stop {
    /// There is no memory left.
    Memory,
    /// No form goes on with the token.
    Syntax { left: usize },
    /// The token opens one block too many.
    Blocks { left: usize },
    /// The token is one bracket or prefix operator too many.
    Brackets { left: usize },
    /// The token is one binary operator too many.
    Operators { left: usize },
}

impl From<AllocError> for Stop {
    ghost from_gives = { λ _ e. e ≡ Memory };

    fn from(_failed: AllocError) -> Stop {
        Stop::Memory
    }
}

impl<T: Drop> From<AllocFailed<T>> for Stop {
    ghost from_gives = { λ _ e. e ≡ Memory };

    fn from(_failed: AllocFailed<T>) -> Stop {
        Stop::Memory
    }
}
