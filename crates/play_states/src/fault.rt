//! Why a play isn't shown.

use every_order::ExploreFault;
use std::alloc::{AllocError, AllocFailed};
use thiserror::Error;

/// Why a play isn't shown.
#[derive(Clone, Copy, Debug, PartialEq, Eq, Error)]
pub enum PlayFault {
    /// Memory was refused.
    #[error("no memory")]
    Memory,
    /// A run has more turns than can be counted.
    #[error("a run is too long")]
    TooLong,
    /// More states can follow than may be kept, or whoever watches ended it: so many were found.
    #[error("there are {0} states or more")]
    Many(usize),
    /// What was to be shown isn't so: a turn leads elsewhere, an outcome isn't listed, or a turn that isn't offered adds one.
    #[error("what was to be shown isn't so")]
    Astray,
}

impl<T: Drop> From<AllocFailed<T>> for PlayFault {
    fn from(_failed: AllocFailed<T>) -> PlayFault {
        PlayFault::Memory
    }
}

impl From<AllocError> for PlayFault {
    fn from(_error: AllocError) -> PlayFault {
        PlayFault::Memory
    }
}

impl From<ExploreFault> for PlayFault {
    fn from(fault: ExploreFault) -> PlayFault {
        match fault {
            ExploreFault::Memory => PlayFault::Memory,
            ExploreFault::TooLong => PlayFault::TooLong,
        }
    }
}
