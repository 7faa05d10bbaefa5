//! Why a line is no command.

use std::alloc::{AllocError, AllocFailed};
use thiserror::Error;

/// Why a line is no command, and where: a byte of the line, counted from 0, or its length where
/// something is missing at its end.
///
/// A line is refused at the first token, or at its end, that no line of the grammar has after the
/// tokens before it, and the kind is the first of `MissingFile`, `TooManyWords`, `Unexpected`,
/// `MissingParen` and `Leftover` that fits there. The kinds are the reasons for which xv6's
/// `user/sh.c` panics; their places are own.
#[derive(Clone, Copy, Debug, PartialEq, Eq, Error)]
pub enum ParseFault {
    /// The token before is `<`, `>` or `>>`, and no word follows it (`parseredirs`).
    #[error("missing file for redirection")]
    MissingFile(usize),
    /// Some `(` is still open (`parseblock`).
    #[error("syntax - missing )")]
    MissingParen(usize),
    /// The tenth word of a simple command (`parseexec`).
    #[error("too many args")]
    TooManyWords(usize),
    /// A `(` after a word or a redirection of a simple command (`parseexec`).
    #[error("syntax")]
    Unexpected(usize),
    /// Anything else that no line goes on with (`parsecmd`).
    #[error("leftovers")]
    Leftover(usize),
    /// The allocator refused memory.
    #[error("no memory")]
    Memory,
}

impl From<AllocError> for ParseFault {
    ghost use Rattle.std.specs.Prelude.{◌≡◌};
    ghost use Rattle.sh_tree.specs.declared.fault.ParseFault.TheVariants.{Memory};

    ghost from_gives = { λ _ fault. fault ≡ Memory };

    fn from(_error: AllocError) -> ParseFault {
        ParseFault::Memory
    }
}

impl<T: Drop> From<AllocFailed<T>> for ParseFault {
    ghost use Rattle.std.specs.Prelude.{◌≡◌};
    ghost use Rattle.sh_tree.specs.declared.fault.ParseFault.TheVariants.{Memory};

    ghost from_gives = { λ _ fault. fault ≡ Memory };

    fn from(_error: AllocFailed<T>) -> ParseFault {
        ParseFault::Memory
    }
}
