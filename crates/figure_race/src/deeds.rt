//! What a call did, in the few words of a box.

use Piece::{Mark, Num, Pipe, Short};
use figure_words::{Page, Piece, Run};
use std::alloc::Allocator;
use trace_read::{Call, Channel, Mode, Object, Part, PipeState, Reply, State, Trap};

// How many columns a name takes, and bytes.
const NAME_ROOM: usize = 7;

const BYTES_ROOM: usize = 14;

// What a descriptor has open, in two pieces.
fn object_words<'a, A: Allocator>(
    run: &Run<'a, A>,
    object: Option<Object>,
) -> (Piece<'a>, Piece<'a>) {
    match object {
        Some(Object::Input) => (Mark("the input"), Mark("")),
        Some(Object::Out) => (Mark("output"), Mark("")),
        Some(Object::Diag) => (Mark("messages"), Mark("")),
        Some(Object::File(name, _)) => (Mark(""), Short(run.trace.text(name), NAME_ROOM)),
        Some(Object::PipeRead(pipe) | Object::PipeWrite(pipe)) => {
            (Mark("pipe "), Pipe(run.pipe(pipe)))
        }
        None => (Mark("nothing"), Mark("")),
    }
}

// The first word of an exec.
fn program_of<'a, A: Allocator>(run: &Run<'a, A>, words: Part) -> Piece<'a> {
    match run.trace.words.as_slice().get(words.first) {
        Some(word) => Short(run.trace.text(*word), NAME_ROOM),
        None => Mark("nothing"),
    }
}

/// What a call does, in the words of a box's first line.
pub(crate) fn add_verb<A: Allocator>(page: &mut Page<A>, run: &Run<'_, A>, trap: &Trap) {
    let (what, name) = object_words(run, trap.object);
    match trap.call {
        Call::Fork => page.mark("forks"),
        Call::Exit => page.mark("ends"),
        Call::Wait => page.mark("waits"),
        Call::Pipe => page.mark("makes a pipe"),
        Call::Exec(words, _) => page.add(&[Mark("becomes "), program_of(run, words)]),
        Call::Read(_, _) => page.add(&[Mark("reads "), what, name]),
        Call::Write(_, _) => match trap.object {
            Some(Object::Diag) => page.mark("tells a message"),
            _ => page.add(&[Mark("writes to "), what, name]),
        },
        Call::Open(file, _) => {
            page.add(&[Mark("opens "), Short(run.trace.text(file), NAME_ROOM)])
        }
        Call::Close(_) => page.add(&[Mark("closes "), what, name]),
        Call::Dup(_) => page.add(&[Mark("doubles "), what, name]),
    }
}

// For what a file was opened.
fn purpose(mode: Mode) -> &'static str {
    match mode {
        Mode::Input => "to read it",
        Mode::Fresh => "and empties it",
        Mode::Over => "to write over it",
        Mode::Append => "to write behind",
    }
}

// Bytes between quotes.
fn add_quoted<A: Allocator>(page: &mut Page<A>, bytes: &[u8]) {
    page.add(&[Mark("“"), Short(bytes, BYTES_ROOM), Mark("”")]);
}

// A process that was made or taken out.
fn add_made<A: Allocator>(page: &mut Page<A>, trap: &Trap) {
    match (&trap.child, trap.reaped) {
        (Some(child), _) => page.add(&[Mark("process "), Num(child.pid as usize)]),
        (None, Some(reaped)) => page.add(&[Mark("takes out "), Num(reaped.pid as usize)]),
        _ => {}
    }
}

// Which end of a pipe a call closed for good, of these states.
fn add_closed<A: Allocator>(page: &mut Page<A>, states: &[PipeState]) {
    let closing = states
        .iter()
        .find(|state| state.closes_read || state.closes_write);
    match closing {
        Some(state) if state.closes_write => page.mark("write end closed"),
        Some(_) => page.mark("read end closed"),
        None => {}
    }
}

// What a read came to that returned.
fn add_read<A: Allocator>(page: &mut Page<A>, run: &Run<'_, A>, is_at_end: bool, reply: Reply) {
    match reply {
        _ if is_at_end => page.mark("end of file"),
        Reply::Bytes(bytes) => add_quoted(page, run.trace.text(bytes)),
        _ => {}
    }
}

// What a call closed for good.
fn add_all_closed<A: Allocator>(page: &mut Page<A>, run: &Run<'_, A>, pipes: Part) {
    let states = run.trace.pipes.as_slice();
    add_closed(page, states.get(pipes.first..pipes.past).unwrap_or(&[]))
}

// What a call came to that returned.
fn add_returned<A: Allocator>(page: &mut Page<A>, run: &Run<'_, A>, trap: &Trap, reply: Reply) {
    match trap.call {
        Call::Read(_, _) => add_read(page, run, trap.is_at_end, reply),
        Call::Write(_, bytes) => add_quoted(page, run.trace.text(bytes)),
        Call::Open(_, mode) => page.mark(purpose(mode)),
        Call::Fork | Call::Wait => add_made(page, trap),
        _ => add_all_closed(page, run, trap.pipes),
    }
}

// Why a process sleeps.
fn reason(channel: Channel) -> &'static str {
    match channel {
        Channel::Children => "sleeps: none ended",
        Channel::PipeBytes(_) => "sleeps: empty",
        Channel::PipeRoom(_) => "sleeps: full",
    }
}

/// What a call came to, in the words of a box's second line.
pub(crate) fn add_result<A: Allocator>(page: &mut Page<A>, run: &Run<'_, A>, trap: &Trap) {
    match trap.state {
        State::Asleep(channel) => page.mark(reason(channel)),
        State::Runnable(Reply::Refused) => page.mark("refused, −1"),
        State::Runnable(reply) => add_returned(page, run, trap, reply),
        State::Zombie => add_returned(page, run, trap, Reply::Done),
    }
}
