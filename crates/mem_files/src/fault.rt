//! Why a call on files is refused.

use std::alloc::{AllocError, AllocFailed};
use thiserror::Error;

/// Why a call on files was refused (own), numbered from 1. A refused call changes nothing.
#[derive(Clone, Copy, Debug, PartialEq, Eq, Error)]
pub enum FilesFault {
    /// The name has no bytes, more than 14, or one that is `/` or 0.
    #[error("bad file name")]
    BadName = 1,
    /// There is no file of that name.
    #[error("no such file")]
    Missing,
    /// There are 200 files, and none of them has that name.
    #[error("too many files")]
    FullFiles,
    /// The file would have more than 274,432 bytes.
    #[error("file too large")]
    FullSize,
    /// The allocator refused memory.
    #[error("no memory")]
    Memory,
    /// The write begins past the end of the file.
    #[error("write past the end of the file")]
    Gap,
}

impl From<AllocError> for FilesFault {
    ghost use Rattle.std.specs.Prelude.{◌≡◌};
    ghost use Rattle.mem_files.specs.declared.fault.FilesFault.TheVariants.{Memory};

    ghost from_gives = { λ _ fault. fault ≡ Memory };

    fn from(_error: AllocError) -> FilesFault {
        FilesFault::Memory
    }
}

impl<T: Drop> From<AllocFailed<T>> for FilesFault {
    ghost use Rattle.std.specs.Prelude.{◌≡◌};
    ghost use Rattle.mem_files.specs.declared.fault.FilesFault.TheVariants.{Memory};

    ghost from_gives = { λ _ fault. fault ≡ Memory };

    fn from(_error: AllocFailed<T>) -> FilesFault {
        FilesFault::Memory
    }
}
