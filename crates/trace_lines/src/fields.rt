//! Calls, replies and words in a line.

use crate::line::Line;
use command_text::{Doing, Node};
use kernel_model::Full;
use proc_table::{Channel, State};
use std::alloc::{AllocError, Global};
use user_calls::{CallKind, CallSlot, Mode, ReplyKind, ReplySlot};

pub(crate) fn full_word(full: Full) -> &'static str {
    match full {
        Full::Procs => "procs",
        Full::Open => "open",
        Full::Fds => "descriptors",
        Full::Files => "files",
        Full::Size => "size",
        Full::Memory => "memory",
    }
}

fn node_word(node: Node) -> &'static str {
    match node {
        Node::Script => "script",
        Node::Exec => "exec",
        Node::Redir => "redir",
        Node::Pipe => "pipe",
        Node::List => "list",
        Node::Back => "back",
        Node::Bad => "bad",
    }
}

fn mode_word(mode: Mode) -> &'static str {
    match mode {
        Mode::Input => "input",
        Mode::Fresh => "fresh",
        Mode::Over => "over",
        Mode::Append => "append",
    }
}

// What a process carries out; the buffer is written over.
pub(crate) fn write_doing(
    line: &mut Line,
    doing: Doing<'_>,
    command: &mut Vec<u8>,
) -> Result<(), AllocError> {
    line.bytes("prog", doing.program())?;
    if let Some(node) = doing.node() {
        line.word("node", node_word(node))?;
    }
    command.clear();
    if doing.append_text(command)? {
        line.bytes("cmd", command.as_slice())?;
    }
    if let Some(number) = doing.line() {
        line.count("line", number as u64)?;
    }
    Ok(())
}

// A call with its arguments.
pub(crate) fn write_call(
    line: &mut Line,
    call: &CallSlot,
    doing: Doing<'_>,
) -> Result<(), AllocError> {
    line.begin_object("call")?;
    match call.kind() {
        CallKind::Fork => line.word("name", "fork")?,
        CallKind::Exec(found) => write_exec(line, doing, found)?,
        CallKind::Exit => line.word("name", "exit")?,
        CallKind::Wait => line.word("name", "wait")?,
        CallKind::MakePipe => line.word("name", "pipe")?,
        CallKind::Read(fd, size) => {
            line.word("name", "read")?;
            line.count("fd", fd as u64)?;
            line.count("size", size as u64)?;
        }
        CallKind::Write(fd) => {
            line.word("name", "write")?;
            line.count("fd", fd as u64)?;
            line.count("size", call.bytes().len() as u64)?;
            line.bytes("data", call.bytes())?;
        }
        CallKind::OpenFile(mode) => {
            line.word("name", "open")?;
            line.bytes("file", call.bytes())?;
            line.word("mode", mode_word(mode))?;
        }
        CallKind::Close(fd) => write_fd_call(line, "close", fd)?,
        CallKind::Dup(fd) => write_fd_call(line, "dup", fd)?,
    }
    line.end_object()
}

fn write_fd_call(line: &mut Line, name: &str, fd: usize) -> Result<(), AllocError> {
    line.word("name", name)?;
    line.count("fd", fd as u64)
}

// `exec` with the words of the command.
fn write_exec(line: &mut Line, doing: Doing<'_>, found: bool) -> Result<(), AllocError> {
    line.word("name", "exec")?;
    line.begin_list("argv")?;
    if let Some(words) = doing.words() {
        for word in words.as_slice() {
            line.raw_bytes(word.as_slice())?;
        }
    }
    line.end_list()?;
    line.truth("found", found)
}

// The state of a slot after a call, with the reply or what it sleeps on.
pub(crate) fn write_state(
    line: &mut Line,
    state: State,
    reply: Option<&ReplySlot>,
) -> Result<(), AllocError> {
    match state {
        State::Asleep(channel) => {
            line.word("state", "asleep")?;
            write_sleep(line, channel)
        }
        State::Zombie => line.word("state", "zombie"),
        State::Free => line.word("state", "free"),
        State::Running(_) => line.word("state", "running"),
        State::Runnable => {
            line.word("state", "runnable")?;
            match reply {
                Some(reply) => write_reply(line, reply),
                None => Ok(()),
            }
        }
    }
}

fn write_sleep(line: &mut Line, channel: Channel) -> Result<(), AllocError> {
    line.begin_object("sleep")?;
    match channel {
        Channel::Children(_) => line.word("on", "children")?,
        Channel::PipeBytes(pipe) => {
            line.word("on", "pipe_bytes")?;
            line.count("pipe", pipe)?;
        }
        Channel::PipeRoom(pipe) => {
            line.word("on", "pipe_room")?;
            line.count("pipe", pipe)?;
        }
    }
    line.end_object()
}

fn write_reply(line: &mut Line, reply: &ReplySlot) -> Result<(), AllocError> {
    line.begin_object("reply")?;
    match reply.kind() {
        ReplyKind::Start => line.word("type", "start")?,
        ReplyKind::Child => line.word("type", "child")?,
        ReplyKind::Done => line.word("type", "done")?,
        ReplyKind::Refused => line.word("type", "refused")?,
        ReplyKind::Bytes => {
            line.word("type", "bytes")?;
            line.count("size", reply.bytes().len() as u64)?;
            line.bytes("data", reply.bytes())?;
        }
        ReplyKind::Fd(fd) => {
            line.word("type", "fd")?;
            line.count("fd", fd as u64)?;
        }
        ReplyKind::Ends(reader, writer) => {
            line.word("type", "ends")?;
            line.count("read", reader as u64)?;
            line.count("write", writer as u64)?;
        }
    }
    line.end_object()
}
