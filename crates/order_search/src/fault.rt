//! Why nothing is reported.

use std::alloc::AllocError;
use thiserror::Error;

/// Why an exploration reports nothing.
#[derive(Clone, Copy, Debug, PartialEq, Eq, Error)]
pub enum ExploreFault {
    /// Memory was refused.
    #[error("no memory")]
    Memory,
    /// A run has more turns than can be counted.
    #[error("a run is too long")]
    TooLong,
}

impl From<AllocError> for ExploreFault {
    fn from(_error: AllocError) -> ExploreFault {
        ExploreFault::Memory
    }
}
