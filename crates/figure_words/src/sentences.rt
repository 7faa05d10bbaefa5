//! What calls did, in sentences.

use crate::markup::{Page, Piece};
use crate::run::Run;
use crate::words::full_name;
use Piece::{Bits, Count, Mark, Num, Pipe, Short};
use std::alloc::Allocator;
use trace_read::{Call, Channel, Event, Full, Mode, Object, Part, PipeState, Reply, State, Trap};

// How many columns bytes take in a sentence at most.
const ROOM: usize = 60;

// How many ends of pipes a call closes for good at most: as many as a process has descriptors.
const MOST_CLOSED: usize = 16;

// What a call returns that is refused.
const REFUSED: &str = ": <b class=\"alert\">refused, −1</b>";

// What a descriptor has open, in two pieces.
fn object_words<'a, A: Allocator>(
    run: &Run<'a, A>,
    object: Option<Object>,
) -> (Piece<'a>, Piece<'a>) {
    match object {
        None => (Mark("nothing"), Mark("")),
        Some(Object::Input) => (Mark("the input"), Mark("")),
        Some(Object::Out) => (Mark("the output"), Mark("")),
        Some(Object::Diag) => (Mark("the messages"), Mark("")),
        Some(Object::File(name, _)) => (Mark("file "), Short(run.trace.text(name), ROOM)),
        Some(Object::PipeRead(pipe) | Object::PipeWrite(pipe)) => {
            (Mark("pipe "), Pipe(run.pipe(pipe)))
        }
    }
}

/// What a descriptor has open, in words.
pub fn add_object<A: Allocator + Copy>(
    page: &mut Page<A>,
    run: &Run<'_, A>,
    object: Option<Object>,
) {
    let (what, name) = object_words(run, object);
    page.add(&[what, name]);
}

// What a process waits for that sleeps.
fn add_reason<A: Allocator>(page: &mut Page<A>, run: &Run<'_, A>, channel: Channel) {
    match channel {
        Channel::Children => page.mark("sleeps: no child has ended"),
        Channel::PipeBytes(pipe) => {
            page.fill("sleeps: pipe % is empty", &[Pipe(run.pipe(pipe))])
        }
        Channel::PipeRoom(pipe) => page.fill("sleeps: pipe % is full", &[Pipe(run.pipe(pipe))]),
    }
}

// A call that put its process to sleep; a write may have moved some bytes before.
fn add_sleep<A: Allocator>(
    page: &mut Page<A>,
    run: &Run<'_, A>,
    moved: Option<usize>,
    channel: Channel,
) {
    match moved {
        Some(moved) if moved > 0 => page.fill("writes %, and ", &[Count(moved)]),
        _ => {}
    }
    add_reason(page, run, channel);
}

// A read that returned.
fn add_read<A: Allocator>(page: &mut Page<A>, run: &Run<'_, A>, trap: &Trap, reply: Reply) {
    let (what, name) = object_words(run, trap.object);
    match reply {
        _ if trap.is_at_end => page.fill(
            "reads 0 bytes: <b class=\"alert\">end of file</b>, %%",
            &[what, name],
        ),
        Reply::Bytes(bytes) => {
            let bytes = run.trace.text(bytes);
            page.fill(
                "reads % of %%: “%”",
                &[Count(bytes.len()), what, name, Short(bytes, ROOM)],
            )
        }
        _ => page.fill("can’t read %%%", &[what, name, Mark(REFUSED)]),
    }
}

// A write that returned.
fn add_write<A: Allocator>(
    page: &mut Page<A>,
    run: &Run<'_, A>,
    object: Option<Object>,
    bytes: Part,
    reply: Reply,
) {
    let (what, name) = object_words(run, object);
    match reply {
        Reply::Refused => page.fill("can’t write to %%%", &[what, name, Mark(REFUSED)]),
        _ => {
            let bytes = run.trace.text(bytes);
            page.fill(
                "writes % to %%: “%”",
                &[Count(bytes.len()), what, name, Short(bytes, ROOM)],
            )
        }
    }
}

// For what a file is opened.
fn purpose(mode: Mode) -> &'static str {
    match mode {
        Mode::Input => " to read it, as descriptor ",
        Mode::Fresh => " and empties it, as descriptor ",
        Mode::Over => " to write over it, as descriptor ",
        Mode::Append => " to write at its end, as descriptor ",
    }
}

// An open that returned.
fn add_open<A: Allocator>(page: &mut Page<A>, name: &[u8], mode: Mode, reply: Reply) {
    let name = Short(name, ROOM);
    match reply {
        Reply::Fd(fd) => page.fill("opens file %%%", &[name, Mark(purpose(mode)), Num(fd)]),
        _ => page.fill("can’t open file %%", &[name, Mark(REFUSED)]),
    }
}

// The name of the program of these words.
fn program_name<'a, A: Allocator>(run: &Run<'a, A>, words: Part) -> Piece<'a> {
    match run.trace.words.as_slice().get(words.first) {
        Some(word) => Short(run.trace.text(*word), ROOM),
        None => Mark("nothing"),
    }
}

// A program that a process becomes, or doesn't.
fn add_exec<A: Allocator>(page: &mut Page<A>, name: Piece<'_>, reply: Reply) {
    match reply {
        Reply::Refused => page.fill("can’t become the program %%", &[name, Mark(REFUSED)]),
        _ => page.fill("becomes the program %", &[name]),
    }
}

// A descriptor that is closed or doubled.
fn add_descriptor<'p, A: Allocator>(
    page: &mut Page<A>,
    (what, name): (Piece<'p>, Piece<'p>),
    fd: usize,
    reply: Reply,
) {
    match reply {
        Reply::Fd(new) => page.fill(
            "makes descriptor % the same as %, %%",
            &[Num(new), Num(fd), what, name],
        ),
        Reply::Refused => page.fill(
            "can’t double or close descriptor %%, %%",
            &[Num(fd), Mark(REFUSED), what, name],
        ),
        _ => page.fill("closes descriptor %, %%", &[Num(fd), what, name]),
    }
}

// A pipe that a call makes, or what a call can't make or wait for.
fn add_pipe<A: Allocator>(page: &mut Page<A>, pipe: Piece<'_>, call: Call, reply: Reply) {
    match (reply, call) {
        (Reply::Ends(reader, writer), _) => page.fill(
            "makes pipe %: descriptor % to read, % to write",
            &[pipe, Num(reader), Num(writer)],
        ),
        (_, Call::Fork) => page.fill("can’t make a process%", &[Mark(REFUSED)]),
        (_, Call::Wait) => page.fill("has no child to wait for%", &[Mark(REFUSED)]),
        _ => page.fill("can’t make a pipe%", &[Mark(REFUSED)]),
    }
}

// A process that a call makes or takes out, or a pipe that it makes.
fn add_made<A: Allocator>(
    page: &mut Page<A>,
    run: &Run<'_, A>,
    number: usize,
    trap: &Trap,
    reply: Reply,
) {
    match (&trap.child, trap.reaped) {
        (Some(child), _) => page.fill("makes process %", &[Num(child.pid as usize)]),
        (None, Some(reaped)) => page.fill(
            "takes process % out, which has ended",
            &[Num(reaped.pid as usize)],
        ),
        _ => add_pipe(page, Pipe(run.pipe(number)), trap.call, reply),
    }
}

// A call that returned.
fn add_returned<A: Allocator>(
    page: &mut Page<A>,
    run: &Run<'_, A>,
    number: usize,
    trap: &Trap,
    reply: Reply,
) {
    match trap.call {
        Call::Exit => page.mark("ends"),
        Call::Fork | Call::Wait | Call::Pipe => add_made(page, run, number, trap, reply),
        Call::Exec(words, _) => add_exec(page, program_name(run, words), reply),
        Call::Read(_, _) => add_read(page, run, trap, reply),
        Call::Write(_, bytes) => add_write(page, run, trap.object, bytes, reply),
        Call::Open(name, mode) => add_open(page, run.trace.text(name), mode, reply),
        Call::Close(fd) | Call::Dup(fd) => {
            add_descriptor(page, object_words(run, trap.object), fd, reply)
        }
    }
}

// The processes that a call woke or gave to init.
fn add_processes<A: Allocator>(page: &mut Page<A>, adopted: u64, woken: u64) {
    if adopted != 0 {
        page.fill("; init gets %", &[Bits(adopted)]);
    }
    if woken == 0 {
        return;
    }
    page.fill("; <b class=\"wakes\">wakes %</b>", &[Bits(woken)]);
}

// The ends of a pipe with this place that a call closed for good.
fn add_closed<A: Allocator>(page: &mut Page<A>, state: &PipeState, place: usize) {
    if state.closes_read {
        page.fill(
            "; <b class=\"alert\">nobody can read % any more</b>",
            &[Pipe(place)],
        );
    }
    if !state.closes_write {
        return;
    }
    page.fill(
        "; <b class=\"alert\">nobody can write to % any more</b>",
        &[Pipe(place)],
    );
}

// The ends of pipes that a call closed for good.
fn add_all_closed<A: Allocator>(page: &mut Page<A>, run: &Run<'_, A>, pipes: Part) {
    let states = run.trace.pipes.as_slice().get(pipes.first..pipes.past);
    for state in states.unwrap_or(&[]).iter().take(MOST_CLOSED) {
        add_closed(page, state, run.pipe(state.pipe));
    }
}

// What was full.
fn add_full<A: Allocator>(page: &mut Page<A>, full: Option<Full>) {
    match full {
        Some(full) => page.fill("; <b class=\"alert\">full: %</b>", &[Mark(full_name(full))]),
        None => {}
    }
}

// What the call of an event did.
fn add_deed<A: Allocator>(page: &mut Page<A>, run: &Run<'_, A>, number: usize, trap: &Trap) {
    match trap.state {
        State::Zombie => page.mark("ends"),
        State::Asleep(channel) => add_sleep(page, run, trap.moved, channel),
        State::Runnable(reply) => add_returned(page, run, number, trap, reply),
    }
}

/// What the call of an event did, as a sentence whose subject, the process, stands before it; then whom it woke, which ends of
/// pipes it closed for good, and what was full.
pub fn add_sentence<A: Allocator + Copy>(
    page: &mut Page<A>,
    run: &Run<'_, A>,
    event: &Event,
    trap: &Trap,
) {
    add_deed(page, run, event.number, trap);
    add_processes(page, trap.adopted, trap.woken);
    add_all_closed(page, run, trap.pipes);
    add_full(page, trap.full);
}
