//! What the runs of a script begin with.

use mem_files::Files;
use script_load::Script;
use std::alloc::Allocator;

/// What the runs of a script begin with (own; in xv6 the arguments of the top shell, what its console reads, and the disk).
#[derive(Clone, Copy)]
pub struct Setting<'a, B: Allocator, C: Allocator> {
    pub script: &'a Script<B>,
    /// The standard input.
    pub stdin: &'a [u8],
    pub files: &'a Files<C>,
}
