//! Why a text is no trace.

use std::alloc::AllocError;
use thiserror::Error;

/// Why a text is no trace (own). Lines are counted from 1.
#[derive(Clone, Copy, Debug, PartialEq, Eq, Error)]
pub enum TraceFault {
    /// Fault 1: the first line is no head of a trace of version 1.
    #[error("line 1 is no head of a trace of version 1")]
    NoTrace,
    /// Fault 2: this line isn't one object of JSON in UTF-8.
    #[error("line {0} is no object of JSON")]
    NoObject(usize),
    /// Fault 3: this line lacks this field, or has something there that no trace has.
    #[error("line {0} has no right field \"{1}\"")]
    Field(usize, &'static str),
    /// Fault 4: this line is about a process that no event before it made.
    #[error("line {0} is of a process that was never made")]
    Stranger(usize),
    /// Fault 5: the text ends at this line, before the line of the end.
    #[error("the trace is cut at line {0}")]
    Cut(usize),
    /// Fault 6: this line is behind that of the end.
    #[error("line {0} is behind the end")]
    Behind(usize),
    /// Fault 7: the allocator refused memory.
    #[error("no memory")]
    Memory,
}

impl From<AllocError> for TraceFault {
    ghost use Rattle.std.specs.Prelude.{◌≡◌};
    ghost use Rattle.trace_read.specs.declared.fault.TraceFault.TheVariants.{Memory};

    ghost from_gives = { λ _ fault. fault ≡ Memory };

    fn from(_error: AllocError) -> TraceFault {
        TraceFault::Memory
    }
}

// What is wrong with a line, whichever it is.
#[derive(Clone, Copy)]
pub(crate) enum Wrong {
    NoTrace,
    NoObject,
    Field(&'static str),
    Behind,
    Memory,
}

impl From<AllocError> for Wrong {
    fn from(_error: AllocError) -> Wrong {
        Wrong::Memory
    }
}

impl Wrong {
    // The same of this line.
    pub(crate) fn at(self, line: usize) -> TraceFault {
        match self {
            Wrong::NoTrace => TraceFault::NoTrace,
            Wrong::NoObject => TraceFault::NoObject(line),
            Wrong::Field(name) => TraceFault::Field(line, name),
            Wrong::Behind => TraceFault::Behind(line),
            Wrong::Memory => TraceFault::Memory,
        }
    }
}
