//! Why a script is refused.

use std::alloc::{AllocError, AllocFailed};
use thiserror::Error;

/// Why the bytes of a script are refused, and in which line, counted from 1 (own).
#[derive(Clone, Copy, Debug, PartialEq, Eq, Error)]
pub enum LoadFault {
    /// Fault 1: the line has more than 511 bytes before its LF.
    #[error("line {0} is too long")]
    LineTooLong(usize),
    /// Fault 2: the line holds a byte 0.
    #[error("line {0} holds a zero byte")]
    ByteZero(usize),
    /// Fault 3: an allocation was refused.
    #[error("no memory")]
    Memory,
}

impl From<AllocError> for LoadFault {
    ghost use Rattle.std.specs.Prelude.{◌≡◌};
    ghost use Rattle.script_load.specs.declared.fault.LoadFault.TheVariants.{Memory};

    ghost from_gives = { λ _ fault. fault ≡ Memory };

    fn from(_error: AllocError) -> LoadFault {
        LoadFault::Memory
    }
}

impl<T: Drop> From<AllocFailed<T>> for LoadFault {
    ghost use Rattle.std.specs.Prelude.{◌≡◌};
    ghost use Rattle.script_load.specs.declared.fault.LoadFault.TheVariants.{Memory};

    ghost from_gives = { λ _ fault. fault ≡ Memory };

    fn from(_error: AllocFailed<T>) -> LoadFault {
        LoadFault::Memory
    }
}

/// A line that a program made, and not `load`, has a word, a redirection's name or a text of more than 511
/// bytes, or a command of more than nine words (own).
#[derive(Clone, Copy, Debug, PartialEq, Eq, Error)]
#[error("line {line} is too large")]
pub struct LineTooLarge {
    /// The number of the line, counted from 1.
    pub line: usize,
}
