//! Which descriptors hold the ends of pipes.

ghost use Rattle.std.specs.Prelude.{◌≡◌, option_and_then};
ghost use Rattle.run_trace.specs.Ends.{end_by, object_at};

use fd_table::Object;
use kernel_events::Kernel;
use proc_table::Pid;
use std::alloc::Allocator;
use user_calls::Machine;

/// An end of a pipe.
#[derive(Clone, Copy, Debug, PartialEq, Eq)]
pub enum End {
    /// Its bytes are read here.
    Read,
    /// And written here.
    Write,
}

/// The pipe of which the process's descriptor holds an end, by the number of the event that made it, and which end;
/// `None` where the descriptor has something else open, or nothing.
pub fn pipe_end<M: Machine, A: Allocator>(
    kernel: &Kernel<M, A>,
    pid: Pid,
    fd: usize,
) -> Option<(u64, End)>
    ensures { result ≡ option_and_then end_by (object_at kernel.now.now pid fd) }
{
    match kernel.object(pid, fd) {
        Some(object) => end_of(object),
        None => None,
    }
}

// The end of a pipe that an object is, if it is one.
fn end_of(object: &Object) -> Option<(u64, End)>
    ensures { result ≡ end_by object.now }
{
    match object {
        Object::PipeRead(name) => Some((*name, End::Read)),
        Object::PipeWrite(name) => Some((*name, End::Write)),
        Object::Input => None,
        Object::Out => None,
        Object::Diag => None,
        Object::File(_, _) => None,
    }
}
