//! Processes, calls and channels, in words.

use crate::markup::{Page, Piece};
use crate::run::Run;
use Piece::{Mark, Num, Pipe, Short};
use std::alloc::Allocator;
use trace_read::{Call, Channel, Doing, Event, Full, Mode, Node, Part, Trace, Trap};

// How many columns bytes take in a table at most.
const TABLE_ROOM: usize = 60;

// How many words of a command are shown at most: all of one that xv6 runs.
const MOST_WORDS: usize = 10;

/// The name of a call.
pub fn call_name(call: Call) -> &'static str {
    match call {
        Call::Fork => "fork",
        Call::Exit => "exit",
        Call::Wait => "wait",
        Call::Pipe => "pipe",
        Call::Exec(_, _) => "exec",
        Call::Read(_, _) => "read",
        Call::Write(_, _) => "write",
        Call::Open(_, _) => "open",
        Call::Close(_) => "close",
        Call::Dup(_) => "dup",
    }
}

// What a shell carries out.
fn node_name(node: Node) -> &'static str {
    match node {
        Node::Script => "the script",
        Node::Exec => "a command",
        Node::Redir => "a redirection",
        Node::Pipe => "a pipe",
        Node::List => "a list",
        Node::Back => "behind &amp;",
        Node::Bad => "a line that is no command",
    }
}

/// What was full.
pub fn full_name(full: Full) -> &'static str {
    match full {
        Full::Procs => "processes",
        Full::Open => "open files",
        Full::Descriptors => "descriptors",
        Full::Files => "files",
        Full::Size => "a file",
        Full::Memory => "memory",
    }
}

// How a file is opened.
fn mode_name(mode: Mode) -> &'static str {
    match mode {
        Mode::Input => "input",
        Mode::Fresh => "fresh",
        Mode::Over => "over",
        Mode::Append => "append",
    }
}

// What stands before the command of a process, the command, and how many columns it has of these.
fn doing_words<'a, A: Allocator>(
    run: &Run<'a, A>,
    doing: &Doing,
    room: usize,
) -> (Piece<'a>, &'a [u8], usize) {
    let program = run.trace.text(doing.program);
    let Some(command) = doing.command else {
        return (Mark(""), program, room);
    };
    let command = run.trace.text(command);
    if program == b"sh".as_slice() && doing.node != Some(Node::Exec) {
        return (Mark("sh: "), command, room.saturating_sub(4));
    }
    (Mark(""), command, room)
}

/// The command of a process, or else its program, in so many columns.
pub fn add_doing<A: Allocator + Copy>(
    page: &mut Page<A>,
    run: &Run<'_, A>,
    doing: &Doing,
    room: usize,
) {
    let (shell, text, room) = doing_words(run, doing, room);
    page.add(&[shell, Short(text, room)]);
}

/// What a shell carries out, in words; nothing of another process.
pub fn add_node<A: Allocator>(page: &mut Page<A>, doing: &Doing) {
    if let Some(node) = doing.node {
        page.fill(", %", &[Mark(node_name(node))]);
    }
    match doing.line {
        Some(line) => page.fill(", line %", &[Num(line)]),
        None => {}
    }
}

// The words of a command, with commas between.
fn add_words<A: Allocator>(page: &mut Page<A>, trace: &Trace<A>, words: &[Part]) {
    let mut comma = "";
    let shown = words.get(..MOST_WORDS).unwrap_or(words);
    for word in shown {
        page.fill("%“%”", &[Mark(comma), Short(trace.text(*word), TABLE_ROOM)]);
        comma = ", ";
    }
    if shown.len() < words.len() {
        page.mark(", …");
    }
}

// An exec with the words of its command.
fn add_exec<A: Allocator>(page: &mut Page<A>, trace: &Trace<A>, words: Part) {
    let words = trace.words.as_slice().get(words.first..words.past);
    page.mark("exec(");
    add_words(page, trace, words.unwrap_or(&[]));
    page.mark(")");
}

/// A call with its arguments, as a program would write it: `read(3, 512)`. Of a write the count of the bytes stands there.
pub fn add_call<A: Allocator + Copy>(page: &mut Page<A>, run: &Run<'_, A>, trap: &Trap) {
    let name = call_name(trap.call);
    match trap.call {
        Call::Fork | Call::Exit | Call::Wait | Call::Pipe => page.fill("%()", &[Mark(name)]),
        Call::Exec(words, _) => add_exec(page, run.trace, words),
        Call::Read(fd, size) => page.fill("%(%, %)", &[Mark(name), Num(fd), Num(size)]),
        Call::Write(fd, bytes) => {
            let size = run.trace.text(bytes).len();
            page.fill("%(%, %)", &[Mark(name), Num(fd), Num(size)])
        }
        Call::Open(file, mode) => page.fill(
            "%(“%”, %)",
            &[
                Mark(name),
                Short(run.trace.text(file), TABLE_ROOM),
                Mark(mode_name(mode)),
            ],
        ),
        Call::Close(fd) | Call::Dup(fd) => page.fill("%(%)", &[Mark(name), Num(fd)]),
    }
}

/// What a process sleeps on.
pub fn add_channel<A: Allocator + Copy>(page: &mut Page<A>, run: &Run<'_, A>, channel: Channel) {
    match channel {
        Channel::Children => page.mark("until a child exits"),
        Channel::PipeBytes(pipe) => page.fill("until pipe % has bytes", &[Pipe(run.pipe(pipe))]),
        Channel::PipeRoom(pipe) => page.fill("until pipe % has room", &[Pipe(run.pipe(pipe))]),
    }
}

/// The number and the command of a process.
pub fn add_process<A: Allocator + Copy>(
    page: &mut Page<A>,
    run: &Run<'_, A>,
    event: &Event,
    room: usize,
) {
    page.fill("<b>%</b> ", &[Num(event.process.pid as usize)]);
    add_doing(page, run, &event.doing, room);
}
