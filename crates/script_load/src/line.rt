//! The lines of a loaded script.

ghost use Rattle.std.specs.Prelude.{◌≡◌, map};
ghost use Rattle.script_load.specs.Line.{line_of, lines_of};

use sh_lexer::Bytes;
use sh_tree::{Cmd, ParseFault};
use std::alloc::Allocator;

/// A line of a script (`user/sh.c`'s `main`).
#[derive(Drop)]
pub enum Line<A: Allocator> {
    /// A command.
    Tree(Cmd<A>),
    /// A line that is no command: its fault, which is never `Memory`, and the whole line.
    Bad(ParseFault, Bytes<A>),
    /// A line that begins with `cd `: the text after these three bytes (own; `user/sh.c`'s `main`
    /// changes the directory, and there are no directories here).
    Cd(Bytes<A>),
}

/// The lines of a script, in order (own). Contracts see them by `lines_of`, as plain data.
#[derive(Drop)]
pub struct Lines<A: Allocator> {
    items: Vec<Line<A>, A>,
}

impl<A: Allocator> Lines<A> {
    /// The lines of a `Vec`, which is moved and not copied. Takes no memory (own).
    pub fn from_vec(items: Vec<Line<A>, A>) -> Self
        ensures { lines_of result ≡ map line_of items.items }
    {
        Lines { items }
    }

    /// The lines, borrowed (own).
    pub fn as_slice(&self) -> &[Line<A>]
        ensures { map line_of result.now ≡ lines_of self.now }
    {
        self.items.as_slice()
    }
}
