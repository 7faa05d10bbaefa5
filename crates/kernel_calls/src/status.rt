//! How full a pipe is, and which of its ends are open.

ghost use Rattle.std.specs.Prelude.{◌≡◌};
ghost use Rattle.kernel_calls.specs.Status.{status_of};

use byte_pipe::Pipe;
use std::alloc::Allocator;

/// How full a pipe is, and which of its ends are open (own).
#[derive(Clone, Copy, Debug, PartialEq, Eq)]
pub struct PipeStatus {
    /// How many bytes it holds.
    pub held: usize,
    pub reader_open: bool,
    pub writer_open: bool,
}

pub(crate) fn status_of<A: Allocator>(pipe: &Pipe<A>) -> PipeStatus
    ensures { result ≡ status_of pipe.now }
{
    PipeStatus {
        held: pipe.held(),
        reader_open: pipe.reader_open(),
        writer_open: pipe.writer_open(),
    }
}
