//! Why a session stays as it is.

use std::alloc::AllocError;
use thiserror::Error;

/// Why a process doesn't take its turn.
#[derive(Clone, Copy, Debug, PartialEq, Eq, Error)]
pub enum ChooseFault {
    /// It isn't Runnable, or there is no such process.
    #[error("not runnable")]
    NotRunnable,
    /// Memory for the schedule was refused.
    #[error("no memory")]
    Memory,
}

impl From<AllocError> for ChooseFault {
    ghost use Rattle.std.specs.Prelude.{◌≡◌};
    ghost use Rattle.step_session.specs.declared.fault.ChooseFault.TheVariants.{Memory};

    ghost from_gives = { λ _ fault. fault ≡ Memory };

    fn from(_error: AllocError) -> ChooseFault {
        ChooseFault::Memory
    }
}

/// Why turns aren't taken back.
#[derive(Clone, Copy, Debug, PartialEq, Eq, Error)]
pub enum BackFault {
    /// There were fewer.
    #[error("too far")]
    TooFar,
    /// Memory was refused, also where it was refused to a call which it wasn't refused to before.
    #[error("no memory")]
    Memory,
}

impl From<AllocError> for BackFault {
    ghost use Rattle.std.specs.Prelude.{◌≡◌};
    ghost use Rattle.step_session.specs.declared.fault.BackFault.TheVariants.{Memory};

    ghost from_gives = { λ _ fault. fault ≡ Memory };

    fn from(_error: AllocError) -> BackFault {
        BackFault::Memory
    }
}
