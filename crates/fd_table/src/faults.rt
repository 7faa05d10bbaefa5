//! Why a call was refused. Nothing changes on a refusal.

use thiserror::Error;

/// Why a call on descriptors or on open-file entries was refused, numbered from 1 (own: xv6 returns -1).
#[derive(Clone, Copy, Debug, PartialEq, Eq, Error)]
pub enum FdFault {
    /// The descriptor isn't open, or there is none of that number.
    #[error("bad descriptor")]
    BadFd = 1,
    /// No descriptor of the process is free.
    #[error("no free descriptor")]
    FullFds,
    /// No open-file entry is free.
    #[error("no free entry")]
    FullOpen,
}
