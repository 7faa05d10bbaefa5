//! What a process did by its call, in words.

use crate::narrator::Narrator;
use crate::text::Text;
use crate::words::{add_data, add_name, add_pipe, add_process, add_short, add_thing, purpose};
use proc_table::{PROCS, Pid};
use std::alloc::{AllocError, Global};
use user_calls::{CallKind, CallSlot, Machine, Mode, ReplyKind};

/// What is known of a call before it is carried out.
#[derive(Drop)]
pub struct Plan {
    call: CallSlot,
    // What its descriptor has open, in words.
    thing: Vec<u8>,
    // Whether the file that it opens is there.
    is_there: bool,
    // The name of the program that it runs.
    program: Vec<u8>,
}

// What the descriptor of a call has open, in words; nothing where it has none.
fn add_thing_of<M: Machine>(text: &mut Text, narrator: &Narrator<'_, M>, pid: Pid, call: CallKind) {
    match call {
        CallKind::Read(fd, _) | CallKind::Write(fd) | CallKind::Close(fd) | CallKind::Dup(fd) => {
            add_thing(text, narrator, pid, fd);
        }
        _ => {}
    }
}

// The name of the program that the process runs by its next call.
fn add_program<M: Machine>(text: &mut Text, narrator: &Narrator<'_, M>, pid: Pid) {
    if let Some(words) = narrator.doing(pid).words() {
        if let Some(name) = words.as_slice().first() {
            add_short(text, name.as_slice());
        }
    }
}

/// The call that the process on hart 0 makes, before it is carried out.
pub fn plan_of<M: Machine>(
    alloc: Global,
    narrator: &Narrator<'_, M>,
    pid: Pid,
) -> Result<Plan, AllocError> {
    let kernel = narrator.kernel();
    let mut call = CallSlot::new();
    kernel.ask(0, pid.index(), &mut call);
    let is_there = kernel.files().get(call.bytes()).is_some();
    let mut thing = Text::new(alloc);
    add_thing_of(&mut thing, narrator, pid, call.kind());
    let mut program = Text::new(alloc);
    add_program(&mut program, narrator, pid);
    Ok(Plan {
        call,
        thing: thing.end()?,
        is_there,
        program: program.end()?,
    })
}

// The words before and after what is acted on.
fn around(text: &mut Text, before: &str, thing: &[u8], after: &str) {
    text.add(before);
    text.bytes(thing);
    text.add(after);
}

fn add_read<M: Machine>(text: &mut Text, narrator: &Narrator<'_, M>, pid: Pid, thing: &[u8]) {
    if narrator.is_asleep(pid) {
        around(text, "found ", thing, " empty and sleeps");
    } else if !narrator.is_done(pid) {
        around(text, "couldn't read ", thing, "");
    } else {
        match narrator.kernel().reply(pid) {
            Some(reply) if !reply.bytes().is_empty() => {
                add_moved(text, "read ", reply.bytes(), " of ", thing);
            }
            _ => around(text, "found ", thing, " at its end"),
        }
    }
}

// Bytes that were moved, how many and which.
fn add_moved(text: &mut Text, verb: &str, bytes: &[u8], toward: &str, thing: &[u8]) {
    text.add(verb);
    text.count(bytes.len(), "byte");
    around(text, toward, thing, ": ");
    add_data(text, bytes);
}

fn add_write<M: Machine>(text: &mut Text, narrator: &Narrator<'_, M>, pid: Pid, plan: &Plan) {
    let thing = plan.thing.as_slice();
    if narrator.is_asleep(pid) {
        around(text, "found ", thing, " full and sleeps");
    } else if !narrator.is_done(pid) {
        around(text, "couldn't write to ", thing, "");
    } else {
        add_moved(text, "wrote ", plan.call.bytes(), " to ", thing);
    }
}

fn add_open<M: Machine>(
    text: &mut Text,
    narrator: &Narrator<'_, M>,
    pid: Pid,
    plan: &Plan,
    mode: Mode,
) {
    let is_done = narrator.is_done(pid);
    text.add(match (is_done, mode, plan.is_there) {
        (false, _, _) => "couldn't open ",
        (true, Mode::Input, _) | (true, _, true) => "opened ",
        (true, _, false) => "made ",
    });
    add_name(text, plan.call.bytes());
    if is_done {
        text.add(purpose(mode));
        add_descriptors(text, narrator, pid);
    }
}

// The descriptors that the process got, if it got any.
fn add_descriptors<M: Machine>(text: &mut Text, narrator: &Narrator<'_, M>, pid: Pid) {
    if let Some(reply) = narrator.kernel().reply(pid) {
        add_descriptor(text, reply.kind());
    }
}

// The descriptor that a reply gives, if it gives one.
fn add_descriptor(text: &mut Text, reply: ReplyKind) {
    match reply {
        ReplyKind::Fd(fd) => {
            text.add(": descriptor ");
            text.number(fd as u64);
        }
        ReplyKind::Ends(reader, writer) => {
            text.add(": descriptors ");
            text.number(reader as u64);
            text.add(" to read and ");
            text.number(writer as u64);
            text.add(" to write");
        }
        _ => {}
    }
}

fn add_fork<M: Machine>(text: &mut Text, narrator: &Narrator<'_, M>) {
    match narrator.child() {
        Some(child) => {
            text.add("forked ");
            add_process(text, child, narrator.doing(child));
        }
        None => text.add("couldn't fork"),
    }
}

fn add_wait<M: Machine>(text: &mut Text, narrator: &Narrator<'_, M>, pid: Pid) {
    if narrator.is_asleep(pid) {
        text.add("sleeps until a child exits");
        return;
    }
    match narrator.gone() {
        Some(gone) => {
            text.add("learned that process ");
            text.number(gone.index() as u64);
            text.add(" has exited");
        }
        None => text.add("has no child to wait for"),
    }
}

// The pipe that was made has the number of this event.
fn add_made<M: Machine>(text: &mut Text, narrator: &Narrator<'_, M>, pid: Pid) {
    if !narrator.is_done(pid) {
        text.add("couldn't make a pipe");
        return;
    }
    text.add("made ");
    add_pipe(text, narrator, narrator.kernel().schedule().len() as u64);
    add_descriptors(text, narrator, pid);
}

fn add_dup<M: Machine>(text: &mut Text, narrator: &Narrator<'_, M>, pid: Pid, thing: &[u8]) {
    if !narrator.is_done(pid) {
        around(text, "couldn't duplicate ", thing, "");
        return;
    }
    around(text, "duplicated ", thing, "");
    add_descriptors(text, narrator, pid);
}

// Who was woken.
fn add_woken<M: Machine>(text: &mut Text, narrator: &Narrator<'_, M>) {
    let mut before = ", and woke process ";
    for index in 0..PROCS {
        if let Some(pid) = Pid::new(index) {
            if narrator.tracer().is_woken(pid) {
                text.add(before);
                text.number(index as u64);
                before = ", ";
            }
        }
    }
}

// Adds what the call did.
fn add_call<M: Machine>(text: &mut Text, narrator: &Narrator<'_, M>, pid: Pid, plan: &Plan) {
    let thing = plan.thing.as_slice();
    match plan.call.kind() {
        CallKind::Fork => add_fork(text, narrator),
        CallKind::Exec(true) => around(text, "became the program ", plan.program.as_slice(), ""),
        CallKind::Exec(false) => around(text, "found no program ", plan.program.as_slice(), ""),
        CallKind::Exit => text.add("exited"),
        CallKind::Wait => add_wait(text, narrator, pid),
        CallKind::MakePipe => add_made(text, narrator, pid),
        CallKind::Read(_, _) => add_read(text, narrator, pid, thing),
        CallKind::Write(_) => add_write(text, narrator, pid, plan),
        CallKind::OpenFile(mode) => add_open(text, narrator, pid, plan, mode),
        CallKind::Close(_) => around(text, "closed ", thing, ""),
        CallKind::Dup(_) => add_dup(text, narrator, pid, thing),
    }
}

/// Adds what the process's last call did, which was this one, whom it woke, and whether something was full for the first time.
pub fn add_deed<M: Machine>(text: &mut Text, narrator: &Narrator<'_, M>, pid: Pid, plan: &Plan) {
    add_call(text, narrator, pid, plan);
    add_woken(text, narrator);
    if narrator.tracer().full().is_some() {
        text.add("; something was full");
    }
}
