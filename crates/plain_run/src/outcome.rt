//! What a script comes to by its meaning.

use crate::reason::Reason;
use mem_files::Files;
use sh_lexer::Bytes;
use sh_tree::Words;
use std::alloc::Allocator;

/// The outcome of a script (own).
#[derive(Drop)]
pub struct Plain<A: Allocator> {
    /// Standard output.
    pub out: Bytes<A>,
    /// The files at the end.
    pub files: Files<A>,
    /// What is left unread of standard input.
    pub rest: Bytes<A>,
    /// Whether the script is settled: no command runs behind `&`, its commands can't meet at a file, what
    /// the left side of a cut pipe writes is named nowhere else in the script, and no command uses an
    /// input of which an unknown part is left.
    pub settled: bool,
    /// The names of the files whose bytes may differ by the schedule: what the left sides of cut pipes
    /// write, in byte order, each name once. A pipe is cut if its right side leaves some of its input
    /// unread, or may.
    pub soft: Words<A>,
}

/// The outcome of a script, and why it isn't settled (own).
#[derive(Drop)]
pub struct Reasoned<A: Allocator> {
    /// The outcome.
    pub plain: Plain<A>,
    /// Why the script isn't settled; nothing where it is.
    pub reasons: Vec<Reason<A>, A>,
}
