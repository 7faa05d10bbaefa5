//! Why a text is no suite.

ghost use Rattle.std.specs.Prelude.{◌≡◌};

use std::alloc::{AllocError, AllocFailed};

/// Why a text is no suite (own).
#[derive(Debug, Drop)]
pub enum SuiteFault {
    /// This line, counted from 1, is wrong, and what is wrong with it.
    At { line: usize, sentence: String },
    /// Memory was refused.
    Memory,
}

impl From<AllocError> for SuiteFault {
    ghost use Rattle.suite_file.specs.declared.fault.SuiteFault.TheVariants.{Memory};

    ghost from_gives = { λ _ fault. fault ≡ Memory };

    fn from(_error: AllocError) -> SuiteFault {
        SuiteFault::Memory
    }
}

impl<T: Drop> From<AllocFailed<T>> for SuiteFault {
    ghost use Rattle.suite_file.specs.declared.fault.SuiteFault.TheVariants.{Memory};

    ghost from_gives = { λ _ fault. fault ≡ Memory };

    fn from(_error: AllocFailed<T>) -> SuiteFault {
        SuiteFault::Memory
    }
}
