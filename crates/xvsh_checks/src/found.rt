//! What `check` finds in a line.

use conflict_check::ClashKind;
use sh_lexer::Bytes;
use sh_tree::ParseFault;
use std::alloc::Global;

/// What `check` finds in a line of a script (own). Lines are counted from 1.
#[derive(Drop)]
pub enum Finding {
    /// This line is no command.
    Fault {
        line: usize,
        fault: ParseFault,
    },
    /// This line holds a `&`.
    Background {
        line: usize,
    },
    /// The first clash of this line is at the file of this name.
    Clash {
        line: usize,
        kind: ClashKind,
        name: Bytes<Global>,
    },
}
