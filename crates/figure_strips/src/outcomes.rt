//! What calls came to, in few columns.

use Piece::{Mark, Num, Pipe, Short};
use figure_words::{Page, Piece, Run, shown_width};
use std::alloc::Allocator;
use trace_read::{Call, Object, Part, Reply, State, Trap};

// What a read or a write was about.
fn short_object<'a, A: Allocator>(
    run: &Run<'a, A>,
    object: Option<Object>,
    room: usize,
) -> Piece<'a> {
    match object {
        Some(Object::PipeRead(pipe) | Object::PipeWrite(pipe)) => Pipe(run.pipe(pipe)),
        Some(Object::File(name, _)) => Short(run.trace.text(name), room.saturating_sub(4)),
        Some(Object::Out) => Mark("out"),
        Some(Object::Diag) => Mark("msg"),
        Some(Object::Input) => Mark("in"),
        None => Mark("–"),
    }
}

// Whether the name of a file has no room beside what was read of it.
fn is_long<A: Allocator>(run: &Run<'_, A>, object: Option<Object>, room: usize) -> bool {
    match object {
        Some(Object::File(name, _)) => {
            shown_width(run.trace.text(name)) > room.saturating_sub(4)
        }
        _ => false,
    }
}

// How many bytes a read returned; `None` of one that met the end or was refused.
fn bytes_read<A: Allocator>(run: &Run<'_, A>, trap: &Trap, reply: Reply) -> Option<usize> {
    match reply {
        Reply::Bytes(bytes) if !trap.is_at_end => Some(run.trace.text(bytes).len()),
        _ => None,
    }
}

// A read of a file whose name has no room, and how many bytes it returned, if it did.
fn add_long_read<A: Allocator>(page: &mut Page<A>, count: Option<usize>, is_at_end: bool) {
    match count {
        Some(count) => page.fill("% B", &[Num(count)]),
        None => page.mark(if is_at_end { "EOF" } else { "−1" }),
    }
}

// A read of this, and how many bytes it returned, if it did.
fn add_read_of<A: Allocator>(
    page: &mut Page<A>,
    object: Piece<'_>,
    count: Option<usize>,
    is_at_end: bool,
) {
    match count {
        Some(count) => page.fill("%→%", &[object, Num(count)]),
        None if is_at_end => page.fill("%→EOF", &[object]),
        None => page.fill("% −1", &[object]),
    }
}

// What a read came to.
fn add_read<A: Allocator>(
    page: &mut Page<A>,
    run: &Run<'_, A>,
    trap: &Trap,
    reply: Reply,
    room: usize,
) {
    let count = bytes_read(run, trap, reply);
    if is_long(run, trap.object, room) {
        add_long_read(page, count, trap.is_at_end);
        return;
    }
    let object = short_object(run, trap.object, room);
    add_read_of(page, object, count, trap.is_at_end);
}

// What a write of so many bytes to this came to.
fn add_write<A: Allocator>(page: &mut Page<A>, object: Piece<'_>, size: usize, reply: Reply) {
    match reply {
        Reply::Refused => page.fill("→% −1", &[object]),
        _ => page.fill("%→%", &[Num(size), object]),
    }
}

// A process that was made, or taken out.
fn add_pid<A: Allocator>(page: &mut Page<A>, word: &'static str, pid: Option<u8>) {
    match pid {
        Some(pid) => page.fill("%%", &[Mark(word), Num(pid as usize)]),
        None => page.mark("−1"),
    }
}

// The process that a fork made.
fn child_of(trap: &Trap) -> Option<u8> {
    match &trap.child {
        Some(child) => Some(child.pid),
        None => None,
    }
}

// The process that a wait took out.
fn reaped_of(trap: &Trap) -> Option<u8> {
    match trap.reaped {
        Some(reaped) => Some(reaped.pid),
        None => None,
    }
}

// A descriptor that a call is about or returned.
fn add_descriptor<A: Allocator>(page: &mut Page<A>, call: Call, reply: Reply) {
    match (reply, call) {
        (Reply::Refused, _) => page.mark("−1"),
        (Reply::Ends(reader, writer), _) => page.fill("%, %", &[Num(reader), Num(writer)]),
        (Reply::Fd(new), Call::Dup(fd)) => page.fill("%→%", &[Num(fd), Num(new)]),
        (Reply::Fd(new), _) => page.fill("fd %", &[Num(new)]),
        (_, Call::Close(fd)) => page.fill("fd %", &[Num(fd)]),
        _ => {}
    }
}

// The program that a process became.
fn add_exec<A: Allocator>(
    page: &mut Page<A>,
    run: &Run<'_, A>,
    words: Part,
    reply: Reply,
    room: usize,
) {
    match (reply, run.trace.words.as_slice().get(words.first)) {
        (Reply::Refused, _) => page.mark("−1"),
        (_, Some(word)) => page.add(&[Short(run.trace.text(*word), room)]),
        (_, None) => {}
    }
}

// What a call returned.
fn add_reply<A: Allocator>(
    page: &mut Page<A>,
    run: &Run<'_, A>,
    trap: &Trap,
    reply: Reply,
    room: usize,
) {
    match trap.call {
        Call::Read(_, _) => add_read(page, run, trap, reply, room),
        Call::Write(_, bytes) => {
            let size = run.trace.text(bytes).len();
            add_write(page, short_object(run, trap.object, 5), size, reply)
        }
        Call::Fork => add_pid(page, "new ", child_of(trap)),
        Call::Wait => add_pid(page, "got ", reaped_of(trap)),
        Call::Exec(words, _) => add_exec(page, run, words, reply, room),
        _ => add_descriptor(page, trap.call, reply),
    }
}

/// What a call came to.
pub fn add_outcome<A: Allocator>(page: &mut Page<A>, run: &Run<'_, A>, trap: &Trap, room: usize) {
    match trap.state {
        State::Asleep(_) => page.mark("sleep"),
        State::Zombie => {}
        State::Runnable(reply) => add_reply(page, run, trap, reply, room),
    }
}

/// The class of what a call came to.
pub fn outcome_class(trap: &Trap) -> &'static str {
    match trap.state {
        State::Runnable(Reply::Refused) => "small alert",
        State::Runnable(_) if trap.is_at_end => "small alert",
        State::Asleep(_) => "small faint",
        _ => "small",
    }
}
