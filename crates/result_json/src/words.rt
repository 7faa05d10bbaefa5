//! Words for kinds.

use conflict_check::ClashKind;
use kernel_model::Full;

/// The word of a kind of clash, as `check` reports it.
pub(crate) fn clash_word(kind: ClashKind) -> &'static str {
    match kind {
        ClashKind::PipeSides => "PipeSides",
        ClashKind::Enclosing => "Enclosing",
    }
}

/// The word for what was full, as a run reports it (own).
pub fn full_word(full: Full) -> &'static str {
    match full {
        Full::Procs => "procs",
        Full::Open => "open",
        Full::Fds => "descriptors",
        Full::Files => "files",
        Full::Size => "size",
        Full::Memory => "memory",
    }
}
