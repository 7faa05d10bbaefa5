//! Why a script or a command has no outcome.

use std::alloc::{AllocError, AllocFailed};
use thiserror::Error;

/// Why a script or a command has no outcome, numbered from 1 (own).
#[derive(Clone, Copy, Debug, PartialEq, Eq, Error)]
pub enum PlainFault {
    /// On the way a file would have more than 274,432 bytes, or a 201st file would be made.
    #[error("too large")]
    TooLarge = 1,
    /// An allocation was refused.
    #[error("no memory")]
    Memory,
}

impl From<AllocError> for PlainFault {
    ghost use Rattle.std.specs.Prelude.{◌≡◌};
    ghost use Rattle.plain_run.specs.declared.fault.PlainFault.TheVariants.{Memory};

    ghost from_gives = { λ _ fault. fault ≡ Memory };

    fn from(_error: AllocError) -> PlainFault {
        PlainFault::Memory
    }
}

impl<T: Drop> From<AllocFailed<T>> for PlainFault {
    ghost use Rattle.std.specs.Prelude.{◌≡◌};
    ghost use Rattle.plain_run.specs.declared.fault.PlainFault.TheVariants.{Memory};

    ghost from_gives = { λ _ fault. fault ≡ Memory };

    fn from(_error: AllocFailed<T>) -> PlainFault {
        PlainFault::Memory
    }
}
