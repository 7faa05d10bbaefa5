//! Why there is no trace.

use std::alloc::AllocError;
use thiserror::Error;
use xvsh_read::Unwritten;

/// Why there is no trace.
#[derive(Clone, Copy, Debug, PartialEq, Eq, Error)]
pub enum TraceFault {
    /// It can't be made at its path, or what is there took no more.
    #[error("unwritten")]
    Unwritten,
    /// Memory was refused.
    #[error("no memory")]
    Memory,
}

impl From<AllocError> for TraceFault {
    ghost use Rattle.std.specs.Prelude.{◌≡◌};
    ghost use Rattle.xvsh_traces.specs.declared.fault.TraceFault.TheVariants.{Memory};

    ghost from_gives = { λ _ fault. fault ≡ Memory };

    fn from(_error: AllocError) -> TraceFault {
        TraceFault::Memory
    }
}

impl From<Unwritten> for TraceFault {
    ghost use Rattle.std.specs.Prelude.{◌≡◌};
    ghost use Rattle.xvsh_traces.specs.declared.fault.TraceFault.TheVariants.{Unwritten as unwritten};

    ghost from_gives = { λ _ fault. fault ≡ unwritten };

    fn from(_unwritten: Unwritten) -> TraceFault {
        TraceFault::Unwritten
    }
}
