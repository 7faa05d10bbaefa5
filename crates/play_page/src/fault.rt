//! Why there is no page.

use play_states::{ExploreFault, PlayFault};
use std::alloc::{AllocError, AllocFailed};
use thiserror::Error;

/// Why there is no page.
#[derive(Clone, Copy, Debug, PartialEq, Eq, Error)]
pub enum PageFault {
    /// Memory was refused.
    #[error("no memory")]
    Memory,
    /// The script leads to more states than may be kept: so many were found.
    #[error("there are {0} states or more")]
    Many(usize),
    /// A run has more turns than can be counted.
    #[error("a run is too long")]
    TooLong,
    /// What was to be shown isn't so.
    #[error("what was to be shown isn't so")]
    Astray,
}

impl<T: Drop> From<AllocFailed<T>> for PageFault {
    fn from(_failed: AllocFailed<T>) -> PageFault {
        PageFault::Memory
    }
}

impl From<AllocError> for PageFault {
    fn from(_error: AllocError) -> PageFault {
        PageFault::Memory
    }
}

impl From<PlayFault> for PageFault {
    fn from(fault: PlayFault) -> PageFault {
        match fault {
            PlayFault::Memory => PageFault::Memory,
            PlayFault::TooLong => PageFault::TooLong,
            PlayFault::Many(states) => PageFault::Many(states),
            PlayFault::Astray => PageFault::Astray,
        }
    }
}

impl From<ExploreFault> for PageFault {
    fn from(fault: ExploreFault) -> PageFault {
        match fault {
            ExploreFault::Memory => PageFault::Memory,
            ExploreFault::TooLong => PageFault::TooLong,
        }
    }
}
