//! Why there is no page.

use std::alloc::AllocError;
use std::fmt;
use trace_read::TraceFault;
use xvsh_read::{Fault, Status};

/// Why there is no page. Each is reported as one line on standard error after `xvsh: `.
#[derive(Clone, Copy, Debug)]
pub enum DrawFault<'a> {
    /// A trace can't be read, or has more than 536,870,912 bytes, or memory is refused.
    Read(Fault<'a>),
    /// What is at this path is no trace.
    NoTrace(&'a str, TraceFault),
    /// The two traces are of different scripts.
    OtherScript,
}

impl DrawFault<'_> {
    /// The status with which the program ends: 4 where memory is refused, else 1.
    pub fn status(self) -> Status {
        match self {
            DrawFault::Read(fault) => fault.status(),
            DrawFault::NoTrace(_, TraceFault::Memory) => Status::NoRoom,
            DrawFault::NoTrace(_, _) | DrawFault::OtherScript => Status::Failed,
        }
    }
}

impl fmt::Display for DrawFault<'_> {
    fn fmt<W: fmt::Write>(&self, f: &mut fmt::Formatter<W>) -> fmt::Result {
        match *self {
            DrawFault::Read(fault) => write!(f, "{fault}"),
            DrawFault::NoTrace(_, TraceFault::Memory) => f.write_str("no memory"),
            DrawFault::NoTrace(path, fault) => write!(f, "{path}: {fault}"),
            DrawFault::OtherScript => f.write_str("the traces are of different scripts"),
        }
    }
}

impl<'a> From<Fault<'a>> for DrawFault<'a> {
    fn from(fault: Fault<'a>) -> DrawFault<'a> {
        DrawFault::Read(fault)
    }
}

impl<'a> From<AllocError> for DrawFault<'a> {
    fn from(_error: AllocError) -> DrawFault<'a> {
        DrawFault::Read(Fault::Memory)
    }
}
