//! What a turn does.

use crate::book::{Book, Kind, add_item, add_optional};
use crate::fault::PageFault;
use crate::follow::{Follow, held_in};
use crate::states::{letter_of, pipe_of};
use fd_table::Object;
use proc_table::Pid;
use std::alloc::{AllocError, Global};
use step_answers::{Plan, Text, add_deed, add_object, add_pipe, plan_of};
use user_calls::{CallKind, CallSlot, Machine, Mode, ReplyKind};

// How many characters of what is written are shown on a box.
const SHORT: usize = 10;

// What is known of a turn before its call is carried out.
#[derive(Drop)]
struct Before {
    call: CallSlot,
    plan: Plan,
    // What its descriptor has open, as a thing.
    thing: Option<usize>,
    // The pipe of its descriptor, and how many bytes that holds.
    pipe: Option<u64>,
    held: usize,
    // Whether the file that it opens is there.
    is_there: bool,
    // A few letters on what it is about to do: the program that it runs, the first bytes that it writes, or what it closes or dups.
    short: Vec<u8>,
    // The pipes that are open, each with whether it is open to read and to write.
    open: Vec<(u64, bool, bool)>,
}

// The word of a call.
fn word_of(call: CallKind) -> &'static str {
    match call {
        CallKind::Fork => "fork",
        CallKind::Exec(_) => "exec",
        CallKind::Exit => "exit",
        CallKind::Wait => "wait",
        CallKind::MakePipe => "pipe",
        CallKind::Read(_, _) => "read",
        CallKind::Write(_) => "write",
        CallKind::OpenFile(_) => "open",
        CallKind::Close(_) => "close",
        CallKind::Dup(_) => "dup",
    }
}

// The descriptor of a call.
fn descriptor_of(call: CallKind) -> Option<usize> {
    match call {
        CallKind::Read(fd, _) | CallKind::Write(fd) | CallKind::Close(fd) | CallKind::Dup(fd) => {
            Some(fd)
        }
        _ => None,
    }
}

// The thing that an object is.
fn thing_of<M: Machine>(book: &mut Book, follow: &Follow<'_, M>, object: &Object) -> usize {
    match object {
        Object::Input => book.thing(Kind::Input, 0),
        Object::Out => book.thing(Kind::Output, 0),
        Object::Diag => book.thing(Kind::Diagnostics, 0),
        Object::File(name, _) => {
            let name = book.name(name.as_slice());
            book.thing(Kind::File, name)
        }
        Object::PipeRead(name) | Object::PipeWrite(name) => pipe_of(book, follow, *name),
    }
}

// The same, if there is an object.
fn thing_in<M: Machine>(
    book: &mut Book,
    follow: &Follow<'_, M>,
    object: Option<&Object>,
) -> Option<usize> {
    match object {
        Some(object) => Some(thing_of(book, follow, object)),
        None => None,
    }
}

// An object in a few letters.
fn add_letters<M: Machine>(text: &mut Text, follow: &Follow<'_, M>, object: &Object) {
    match object {
        Object::Input => text.add("input"),
        Object::Out => text.add("output"),
        Object::Diag => text.add("diag"),
        Object::File(_, _) => add_object(text, &follow.narrator, object),
        Object::PipeRead(name) | Object::PipeWrite(name) => {
            add_pipe(text, &follow.narrator, *name);
        }
    }
}

// The pipes that are open.
fn open_of<M: Machine>(
    alloc: Global,
    follow: &Follow<'_, M>,
) -> Result<Vec<(u64, bool, bool)>, AllocError> {
    let mut open = Vec::new(alloc);
    for pipe in &follow.pipes {
        if let Some(status) = follow.kernel().pipe(pipe.name) {
            open.push((pipe.name, status.reader_open, status.writer_open))?;
        }
    }
    Ok(open)
}

// The name of the program that the process runs by its next call.
fn add_program<M: Machine>(text: &mut Text, follow: &Follow<'_, M>, pid: Pid) {
    if let Some(words) = follow.narrator.doing(pid).words() {
        if let Some(name) = words.as_slice().first() {
            text.shown(name.as_slice());
        }
    }
}

// What the descriptor of the process's call has open.
fn object_of<'f, M: Machine>(
    follow: &'f Follow<'_, M>,
    pid: Pid,
    call: CallKind,
) -> Option<&'f Object> {
    let fd = descriptor_of(call)?;
    follow.kernel().object(pid, fd)
}

// The pipe that an object is an end of.
fn pipe_in(object: Option<&Object>) -> Option<u64> {
    match object {
        Some(Object::PipeRead(name) | Object::PipeWrite(name)) => Some(*name),
        _ => None,
    }
}

// How many bytes the pipe of that name holds, if there is a name.
fn held_of<M: Machine>(follow: &Follow<'_, M>, pipe: Option<u64>) -> usize {
    match pipe {
        Some(name) => held_in(follow.kernel(), name),
        None => 0,
    }
}

// A byte as it is shown.
fn shown_byte(alloc: Global, byte: u8) -> Result<Vec<u8>, AllocError> {
    let mut one = Text::new(alloc);
    one.shown(&[byte]);
    one.end()
}

// The first bytes of what is written, as they are shown, in at most so many characters.
fn add_first(text: &mut Text, alloc: Global, bytes: &[u8]) -> Result<(), AllocError> {
    let mut size: usize = 0;
    for byte in bytes {
        let one = shown_byte(alloc, *byte)?;
        size = size.saturating_add(one.len());
        if size > SHORT {
            break;
        }
        text.bytes(&one);
    }
    Ok(())
}

// A few letters on what the call is about to do.
fn short_before<M: Machine>(
    alloc: Global,
    follow: &Follow<'_, M>,
    pid: Pid,
    call: &CallSlot,
) -> Result<Vec<u8>, AllocError> {
    let mut text = Text::new(alloc);
    match call.kind() {
        CallKind::Exec(_) => add_program(&mut text, follow, pid),
        CallKind::Write(_) => add_first(&mut text, alloc, call.bytes())?,
        CallKind::Close(_) | CallKind::Dup(_) => {
            if let Some(object) = object_of(follow, pid, call.kind()) {
                add_letters(&mut text, follow, object);
            }
        }
        _ => {}
    }
    text.end()
}

// What is known before the process on hart 0 makes its call.
fn known_before<M: Machine>(
    book: &mut Book,
    follow: &Follow<'_, M>,
    pid: Pid,
) -> Result<Before, AllocError> {
    let open = open_of(book.alloc, follow)?;
    let call = follow.call_of(pid);
    let short = short_before(book.alloc, follow, pid, &call)?;
    let plan = plan_of(book.alloc, &follow.narrator, pid)?;
    let object = object_of(follow, pid, call.kind());
    let pipe = pipe_in(object);
    Ok(Before {
        plan,
        thing: thing_in(book, follow, object),
        pipe,
        held: held_of(follow, pipe),
        is_there: follow.has_file(call.bytes()),
        call,
        short,
        open,
    })
}

// How many bytes a read got, or that it met the end.
fn add_read<M: Machine>(text: &mut Text, follow: &Follow<'_, M>, pid: Pid) {
    match follow.kernel().reply(pid) {
        Some(reply) if !reply.bytes().is_empty() => {
            text.number(reply.bytes().len() as u64);
            text.add(" B");
        }
        _ => text.add("end"),
    }
}

// Whom a wait took, or a fork made.
fn add_other(text: &mut Text, word: &str, none: &str, other: Option<Pid>) {
    match other {
        Some(other) => {
            text.add(word);
            text.number(other.index() as u64);
        }
        None => text.add(none),
    }
}

// Whether the call was refused.
fn is_refused<M: Machine>(follow: &Follow<'_, M>, pid: Pid, call: CallKind) -> bool {
    match call {
        CallKind::Exit | CallKind::Wait => false,
        CallKind::Fork => follow.narrator.child().is_none(),
        _ => match follow.kernel().reply(pid) {
            Some(reply) => matches!(reply.kind(), ReplyKind::Refused),
            None => false,
        },
    }
}

// What is known of a call only when it is carried out, behind what was known before.
fn add_answer<M: Machine>(text: &mut Text, follow: &Follow<'_, M>, pid: Pid, call: CallKind) {
    match call {
        CallKind::Fork => add_other(text, "new ", "", follow.narrator.child()),
        CallKind::Wait => add_other(text, "takes ", "no child", follow.narrator.gone()),
        CallKind::Read(_, _) => add_read(text, follow, pid),
        _ => {}
    }
}

// A few letters on what the call did, which was carried out.
fn done_of<M: Machine>(
    book: &mut Book,
    follow: &Follow<'_, M>,
    pid: Pid,
    before: &Before,
) -> usize {
    match before.call.kind() {
        CallKind::MakePipe => letter_of(book, follow, follow.kernel().schedule().len() as u64),
        CallKind::OpenFile(_) => book.name(before.call.bytes()),
        call => {
            let mut text = Text::new(book.alloc);
            text.bytes(&before.short);
            add_answer(&mut text, follow, pid, call);
            book.text(text)
        }
    }
}

// A few letters on what came of the call.
fn short_of<M: Machine>(
    book: &mut Book,
    follow: &Follow<'_, M>,
    pid: Pid,
    before: &Before,
) -> usize {
    if follow.narrator.is_asleep(pid) {
        book.word("sleeps")
    } else if is_refused(follow, pid, before.call.kind()) {
        book.word("refused")
    } else {
        done_of(book, follow, pid, before)
    }
}

// How an open touches its file: it changes it, makes it, or looks whether it is there.
fn opening(mode: Mode, is_there: bool, is_refused: bool) -> usize {
    match mode {
        Mode::Input => 3,
        _ if is_refused => 3,
        Mode::Fresh if is_there => 1,
        Mode::Over | Mode::Append if is_there => 3,
        _ => 2,
    }
}

// Whether the pipe is open to read and to write.
fn ends_in<M: Machine>(follow: &Follow<'_, M>, name: u64) -> (bool, bool) {
    match follow.kernel().pipe(name) {
        Some(status) => (status.reader_open, status.writer_open),
        None => (false, false),
    }
}

// The pipes of which an end was closed for good.
fn add_closed<M: Machine>(
    row: &mut Text,
    book: &mut Book,
    follow: &Follow<'_, M>,
    before: &Before,
) {
    for (name, reader, writer) in &before.open {
        let (reads, writes) = ends_in(follow, *name);
        if (*reader && !reads) || (*writer && !writes) {
            add_item(row, pipe_of(book, follow, *name));
            add_item(row, 4);
        }
    }
}

// The file that an open touched, and how.
fn add_opened(row: &mut Text, book: &mut Book, name: &[u8], how: usize) {
    let name = book.name(name);
    add_item(row, book.thing(Kind::File, name));
    add_item(row, how);
}

// What the call touched, and how.
fn add_touched<M: Machine>(
    row: &mut Text,
    book: &mut Book,
    follow: &Follow<'_, M>,
    pid: Pid,
    before: &Before,
) {
    let call = before.call.kind();
    match (call, before.thing) {
        (CallKind::Read(_, _), Some(thing)) => {
            add_item(row, thing);
            add_item(row, 0);
        }
        (CallKind::Write(_), Some(thing)) if !before.call.bytes().is_empty() => {
            add_item(row, thing);
            add_item(row, 1);
        }
        (CallKind::OpenFile(mode), _) => {
            let how = opening(mode, before.is_there, is_refused(follow, pid, call));
            add_opened(row, book, before.call.bytes(), how);
        }
        _ => {}
    }
}

// Whether nothing came of the turn but that the process sleeps, or that it exited.
fn ends_of<M: Machine>(follow: &Follow<'_, M>, pid: Pid, before: &Before) -> usize {
    if let CallKind::Exit = before.call.kind() {
        return 2;
    }
    let held = held_of(follow, before.pipe);
    usize::from(follow.narrator.is_asleep(pid) && held == before.held)
}

// What the turn did, in words.
fn words_of<M: Machine>(book: &mut Book, follow: &Follow<'_, M>, pid: Pid, plan: &Plan) -> usize {
    let mut words = Text::new(book.alloc);
    add_deed(&mut words, &follow.narrator, pid, plan);
    book.text(words)
}

// The row of what a turn did, of which this was known before.
fn row_of<M: Machine>(book: &mut Book, follow: &Follow<'_, M>, pid: Pid, before: &Before) -> usize {
    let word = book.word(word_of(before.call.kind()));
    let short = short_of(book, follow, pid, before);
    let words = words_of(book, follow, pid, &before.plan);
    let mut row = Text::new(book.alloc);
    row.add("[");
    row.number(word as u64);
    add_item(&mut row, short);
    add_item(&mut row, words);
    add_item(&mut row, ends_of(follow, pid, before));
    add_optional(&mut row, index_of(follow.narrator.child()));
    add_touched(&mut row, book, follow, pid, before);
    add_closed(&mut row, book, follow, before);
    row.add("]");
    book.deeds.put_text(row)
}

fn index_of(pid: Option<Pid>) -> Option<usize> {
    match pid {
        Some(pid) => Some(pid.index()),
        None => None,
    }
}

// The process takes a turn; the row of what it did.
pub fn deed_of<M: Machine>(
    book: &mut Book,
    follow: &mut Follow<'_, M>,
    pid: Pid,
) -> Result<usize, PageFault> {
    follow.dispatch(pid)?;
    let before = known_before(book, follow, pid)?;
    follow.trap(pid, &before.call)?;
    Ok(row_of(book, follow, pid, &before))
}
