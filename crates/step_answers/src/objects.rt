//! The same as JSON: one object a line.

use crate::ends::{all_pids, holders, names_of};
use crate::narrator::Narrator;
use fd_table::{DESCRIPTORS, Mode, Object};
use kernel_events::Kernel;
use mem_files::Files;
use proc_table::{Channel, Pid, State};
use run_trace::End;
use std::alloc::{AllocError, Global};
use trace_lines::Line;
use user_calls::{CallKind, CallSlot, Machine, Mode as OpenMode};

// A call with its arguments.
fn write_call(line: &mut Line, call: &CallSlot) -> Result<(), AllocError> {
    let (name, fd) = match call.kind() {
        CallKind::Fork => ("fork", None),
        CallKind::Exec(_) => ("exec", None),
        CallKind::Exit => ("exit", None),
        CallKind::Wait => ("wait", None),
        CallKind::MakePipe => ("pipe", None),
        CallKind::Read(fd, _) => ("read", Some(fd)),
        CallKind::Write(fd) => ("write", Some(fd)),
        CallKind::OpenFile(_) => ("open", None),
        CallKind::Close(fd) => ("close", Some(fd)),
        CallKind::Dup(fd) => ("dup", Some(fd)),
    };
    line.word("name", name)?;
    if let Some(fd) = fd {
        line.count("fd", fd as u64)?;
    }
    match call.kind() {
        CallKind::Read(_, size) => line.count("size", size as u64),
        CallKind::Write(_) => line.bytes("data", call.bytes()),
        CallKind::OpenFile(mode) => {
            line.bytes("file", call.bytes())?;
            line.word("mode", open_word(mode))
        }
        _ => Ok(()),
    }
}

fn open_word(mode: OpenMode) -> &'static str {
    match mode {
        OpenMode::Input => "input",
        OpenMode::Fresh => "fresh",
        OpenMode::Over => "over",
        OpenMode::Append => "append",
    }
}

fn mode_word(mode: Mode) -> &'static str {
    match mode {
        Mode::Input => "input",
        Mode::Fresh => "fresh",
        Mode::Over => "over",
        Mode::Append => "append",
    }
}

fn write_sleep(line: &mut Line, channel: Channel) -> Result<(), AllocError> {
    line.begin_object("sleep")?;
    match channel {
        Channel::Children(_) => line.word("on", "children")?,
        Channel::PipeBytes(pipe) => {
            line.word("on", "pipe_bytes")?;
            line.count("pipe", pipe)?;
        }
        Channel::PipeRoom(pipe) => {
            line.word("on", "pipe_room")?;
            line.count("pipe", pipe)?;
        }
    }
    line.end_object()
}

// The state of a process, with its next call or what it sleeps on.
pub(crate) fn write_state<M: Machine>(
    line: &mut Line,
    narrator: &Narrator<'_, M>,
    pid: Pid,
) -> Result<(), AllocError> {
    match narrator.kernel().state(pid) {
        State::Free => line.word("state", "free"),
        State::Zombie => line.word("state", "zombie"),
        State::Asleep(channel) => {
            line.word("state", "asleep")?;
            write_sleep(line, channel)
        }
        State::Runnable | State::Running(_) => {
            line.word("state", "runnable")?;
            let mut call = CallSlot::new();
            if !narrator.next_call(pid, &mut call) {
                return Ok(());
            }
            line.begin_object("next")?;
            write_call(line, &call)?;
            line.end_object()
        }
    }
}

// A process: its slot, its parent, what it carries out, and its state.
fn write_process<M: Machine>(
    line: &mut Line,
    alloc: Global,
    narrator: &Narrator<'_, M>,
    pid: Pid,
) -> Result<(), AllocError> {
    let doing = narrator.doing(pid);
    line.pid("pid", pid)?;
    line.pid(
        "parent",
        narrator.kernel().parent(pid).unwrap_or(Pid::init()),
    )?;
    line.bytes("prog", doing.program())?;
    let mut command = Vec::new(alloc);
    if doing.append_text(&mut command)? {
        line.bytes("cmd", command.as_slice())?;
    }
    if let Some(number) = doing.line() {
        line.count("line", number as u64)?;
    }
    write_state(line, narrator, pid)
}

// The processes.
pub(crate) fn write_ps<M: Machine>(
    line: &mut Line,
    alloc: Global,
    narrator: &Narrator<'_, M>,
) -> Result<(), AllocError> {
    line.begin_list("processes")?;
    for pid in &all_pids(alloc)? {
        if narrator.kernel().parent(*pid).is_some() {
            line.begin_raw_object()?;
            write_process(line, alloc, narrator, *pid)?;
            line.end_object()?;
        }
    }
    line.end_list()
}

fn write_slots(line: &mut Line, key: &str, pids: &[Pid]) -> Result<(), AllocError> {
    line.begin_list(key)?;
    for pid in pids {
        line.raw_count(pid.index() as u64)?;
    }
    line.end_list()
}

// The pipes.
pub(crate) fn write_pipes<M: Machine>(
    line: &mut Line,
    alloc: Global,
    kernel: &Kernel<M, Global>,
) -> Result<(), AllocError> {
    line.begin_list("pipes")?;
    for name in &names_of(alloc, kernel)? {
        line.begin_raw_object()?;
        line.count("pipe", *name)?;
        let held = match kernel.pipe(*name) {
            Some(status) => status.held,
            None => 0,
        };
        line.count("held", held as u64)?;
        let readers = holders(alloc, kernel, *name, End::Read)?;
        write_slots(line, "readers", readers.as_slice())?;
        let writers = holders(alloc, kernel, *name, End::Write)?;
        write_slots(line, "writers", writers.as_slice())?;
        line.end_object()?;
    }
    line.end_list()
}

fn write_object(line: &mut Line, object: &Object) -> Result<(), AllocError> {
    match object {
        Object::Input => line.word("type", "input"),
        Object::Out => line.word("type", "out"),
        Object::Diag => line.word("type", "diag"),
        Object::File(name, mode) => {
            line.word("type", "file")?;
            line.bytes("name", name.as_slice())?;
            line.word("mode", mode_word(*mode))
        }
        Object::PipeRead(pipe) => {
            line.word("type", "pipe")?;
            line.count("pipe", *pipe)?;
            line.word("end", "read")
        }
        Object::PipeWrite(pipe) => {
            line.word("type", "pipe")?;
            line.count("pipe", *pipe)?;
            line.word("end", "write")
        }
    }
}

// The open descriptors of a process.
pub(crate) fn write_fds<M: Machine>(
    line: &mut Line,
    kernel: &Kernel<M, Global>,
    pid: Pid,
) -> Result<(), AllocError> {
    line.pid("pid", pid)?;
    line.begin_list("fds")?;
    for fd in 0..DESCRIPTORS {
        if let Some(object) = kernel.object(pid, fd) {
            line.begin_raw_object()?;
            line.count("fd", fd as u64)?;
            write_object(line, object)?;
            if let (Object::File(_, _), Some(offset)) = (object, kernel.offset(pid, fd)) {
                line.count("offset", offset)?;
            }
            line.end_object()?;
        }
    }
    line.end_list()
}

// The files, whole.
pub(crate) fn write_files(line: &mut Line, files: &Files<Global>) -> Result<(), AllocError> {
    line.begin_list("files")?;
    for at in 0..files.count() {
        if let Some(name) = files.name_at(at) {
            line.begin_raw_object()?;
            line.bytes("name", name)?;
            line.bytes("data", files.get(name).unwrap_or(&[]))?;
            line.end_object()?;
        }
    }
    line.end_list()
}
