//! What descriptors have open.

use crate::line::Line;
use fd_table::{DESCRIPTORS, Mode, Object};
use proc_table::Pid;
use run_trace::Kernel;
use std::alloc::{AllocError, Global};
use user_calls::Machine;

// An object that is remembered over an event which may close it.
#[derive(Drop)]
pub enum Kept {
    Input,
    Out,
    Diag,
    File(Vec<u8>, Mode),
    PipeRead(u64),
    PipeWrite(u64),
}

pub(crate) fn keep(alloc: Global, object: &Object) -> Result<Kept, AllocError> {
    match object {
        Object::Input => Ok(Kept::Input),
        Object::Out => Ok(Kept::Out),
        Object::Diag => Ok(Kept::Diag),
        Object::File(name, mode) => {
            let bytes = name.as_slice().to_vec(alloc)?;
            Ok(Kept::File(bytes, *mode))
        }
        Object::PipeRead(pipe) => Ok(Kept::PipeRead(*pipe)),
        Object::PipeWrite(pipe) => Ok(Kept::PipeWrite(*pipe)),
    }
}

fn mode_word(mode: Mode) -> &'static str {
    match mode {
        Mode::Input => "input",
        Mode::Fresh => "fresh",
        Mode::Over => "over",
        Mode::Append => "append",
    }
}

fn write_pipe(line: &mut Line, pipe: u64, end: &str) -> Result<(), AllocError> {
    line.word("type", "pipe")?;
    line.count("pipe", pipe)?;
    line.word("end", end)
}

fn write_file(line: &mut Line, name: &[u8], mode: Mode) -> Result<(), AllocError> {
    line.word("type", "file")?;
    line.bytes("name", name)?;
    line.word("mode", mode_word(mode))
}

// The object that a call was about, with the byte at which it goes on after the call, where that is known.
pub(crate) fn write_kept(
    line: &mut Line,
    kept: &Kept,
    offset: Option<u64>,
) -> Result<(), AllocError> {
    line.begin_object("object")?;
    match kept {
        Kept::Input => line.word("type", "input")?,
        Kept::Out => line.word("type", "out")?,
        Kept::Diag => line.word("type", "diag")?,
        Kept::File(name, mode) => write_file(line, name.as_slice(), *mode)?,
        Kept::PipeRead(pipe) => write_pipe(line, *pipe, "read")?,
        Kept::PipeWrite(pipe) => write_pipe(line, *pipe, "write")?,
    }
    if let Some(offset) = offset {
        line.count("offset", offset)?;
    }
    line.end_object()
}

fn write_object(line: &mut Line, object: &Object) -> Result<(), AllocError> {
    match object {
        Object::Input => line.word("type", "input"),
        Object::Out => line.word("type", "out"),
        Object::Diag => line.word("type", "diag"),
        Object::File(name, mode) => write_file(line, name.as_slice(), *mode),
        Object::PipeRead(pipe) => write_pipe(line, *pipe, "read"),
        Object::PipeWrite(pipe) => write_pipe(line, *pipe, "write"),
    }
}

// All open descriptors of a process.
pub(crate) fn write_descriptors<M: Machine>(
    line: &mut Line,
    kernel: &Kernel<M, Global>,
    pid: Pid,
) -> Result<(), AllocError> {
    line.begin_list("fds")?;
    for fd in 0..DESCRIPTORS {
        if let Some(object) = kernel.object(pid, fd) {
            line.begin_raw_object()?;
            line.count("fd", fd as u64)?;
            write_object(line, object)?;
            line.end_object()?;
        }
    }
    line.end_list()
}
