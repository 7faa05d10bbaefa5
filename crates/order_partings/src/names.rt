//! Names of processes, and of what they have open.

use command_text::Doing;
use fd_table::Object;
use proc_table::Pid;
use run_trace::Kernel;
use std::alloc::{AllocError, Global};
use user_calls::Machine;

// How many bytes of a command or of what is written are shown.
const SHOWN: usize = 60;

/// Adds the bytes, of more than 60 the first 60 and `..`.
pub(crate) fn add_short(text: &mut Vec<u8>, bytes: &[u8]) -> Result<(), AllocError> {
    text.extend_from_slice(&bytes[..bytes.len().min(SHOWN)])?;
    if SHOWN < bytes.len() {
        text.extend_from_slice(b"..".as_slice())?;
    }
    Ok(())
}

// Adds the number of a process.
fn add_number(alloc: Global, text: &mut Vec<u8>, pid: usize) -> Result<(), AllocError> {
    let number = format!(in alloc; "process {pid}")?;
    text.extend_from_slice(number.as_bytes())
}

// Adds a command between two quotes.
fn add_quoted(text: &mut Vec<u8>, command: &[u8]) -> Result<(), AllocError> {
    text.extend_from_slice(b" `".as_slice())?;
    add_short(text, command)?;
    Ok(text.push(b'`')?)
}

// Adds the command that is carried out, and returns whether one is.
fn add_command(alloc: Global, text: &mut Vec<u8>, doing: Doing<'_>) -> Result<bool, AllocError> {
    let mut command = Vec::new(alloc);
    let is_there = doing.append_text(&mut command)?;
    if is_there {
        add_quoted(text, command.as_slice())?;
    }
    Ok(is_there)
}

/// Adds a process with the command that it carries out.
pub(crate) fn add_process(
    alloc: Global,
    text: &mut Vec<u8>,
    pid: usize,
    doing: Doing<'_>,
) -> Result<(), AllocError> {
    add_number(alloc, text, pid)?;
    if add_command(alloc, text, doing)? {
        return Ok(());
    }
    let name = match doing {
        Doing::Init => " (init)",
        _ => " (the shell)",
    };
    text.extend_from_slice(name.as_bytes())
}

/// What a descriptor of the process has open, in words.
pub(crate) fn thing_of<M: Machine>(
    alloc: Global,
    kernel: &Kernel<M, Global>,
    pid: Pid,
    fd: usize,
) -> Result<Vec<u8>, AllocError> {
    let name = match kernel.object(pid, fd) {
        Some(Object::Input) => b"the standard input".as_slice(),
        Some(Object::Out) => b"the output".as_slice(),
        Some(Object::Diag) => b"the diagnostics".as_slice(),
        Some(Object::File(name, _)) => name.as_slice(),
        Some(Object::PipeRead(_)) => b"the pipe".as_slice(),
        Some(Object::PipeWrite(_)) => b"the pipe".as_slice(),
        None => b"nothing".as_slice(),
    };
    Vec::from_slice(alloc, name)
}
