//! Why a script isn't settled.
ghost use Rattle.std.specs.Prelude.{◌≡◌};
ghost use Rattle.plain_run.specs.Reasons.{line_at};

use conflict_check::ClashKind;
use sh_lexer::Bytes;
use std::alloc::Allocator;

/// Why a script isn't settled (own). Lines are counted from 1.
#[derive(Drop)]
pub enum Reason<A: Allocator> {
    /// A command of this line runs behind `&`.
    Background {
        line: usize,
    },
    /// Commands of this line can meet at the file of this name: the first clash of the line.
    Clash {
        line: usize,
        kind: ClashKind,
        name: Bytes<A>,
    },
    /// A pipe of this line is cut: its right side may stop before it has read all. Its left side writes the file of this name,
    /// and the line `again` names it again. Where that is the same line, it names it beside the left side.
    CutPipe {
        line: usize,
        name: Bytes<A>,
        again: usize,
    },
    /// A command of this line may leave another rest of its input in another order, and a later command uses that input: one of
    /// the line `user`, or of the same line, where the input may be that of a part of it.
    LooseInput {
        line: usize,
        user: usize,
    },
}

impl<A: Allocator> Reason<A> {
    /// The line that isn't settled, counted from 1.
    pub fn line(&self) -> usize
        ensures { result ≡ line_at self.now }
    {
        match self {
            Reason::Background { line }
            | Reason::Clash { line, .. }
            | Reason::CutPipe { line, .. }
            | Reason::LooseInput { line, .. } => *line,
        }
    }
}
