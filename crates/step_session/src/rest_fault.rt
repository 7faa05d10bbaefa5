//! Why it isn't reported what a session can still come to.

use every_order::ExploreFault;
use std::alloc::AllocError;
use thiserror::Error;

/// Why it isn't reported what a session can still come to.
#[derive(Clone, Copy, Debug, PartialEq, Eq, Error)]
pub enum RestFault {
    /// Something was full in the session: the same turns may then lead elsewhere.
    #[error("something was full")]
    Full,
    /// A run has more turns than can be counted.
    #[error("a run is too long")]
    TooLong,
    /// Memory was refused.
    #[error("no memory")]
    Memory,
}

impl From<AllocError> for RestFault {
    ghost use Rattle.std.specs.Prelude.{◌≡◌};
    ghost use Rattle.step_session.specs.declared.rest_fault.RestFault.TheVariants.{Memory};

    ghost from_gives = { λ _ fault. fault ≡ Memory };

    fn from(_error: AllocError) -> RestFault {
        RestFault::Memory
    }
}

impl From<ExploreFault> for RestFault {
    ghost use Rattle.std.specs.Prelude.{◌≢◌};
    ghost use Rattle.step_session.specs.declared.rest_fault.RestFault.TheVariants.{Full};

    ghost from_gives = { λ _ fault. fault ≢ Full };

    fn from(fault: ExploreFault) -> RestFault {
        match fault {
            ExploreFault::Memory => RestFault::Memory,
            ExploreFault::TooLong => RestFault::TooLong,
        }
    }
}
