//! What a process does at its turn, in words.

use crate::names::{add_process, add_short, thing_of};
use crate::turner::Turner;
use proc_table::Pid;
use std::alloc::{AllocError, Global};
use user_calls::{CallKind, CallSlot, Machine, Mode};

// What is known of a call before it is carried out.
#[derive(Drop)]
struct Plan {
    call: CallSlot,
    // What its descriptor has open, in words.
    thing: Vec<u8>,
    // Whether the file that it opens is there.
    is_there: bool,
    // The name of the program that it runs.
    program: Vec<u8>,
}

// The name of the program that the process runs, if it runs one.
fn program_of<M: Machine>(
    alloc: Global,
    turner: &Turner<'_, M>,
    pid: Pid,
) -> Result<Vec<u8>, AllocError> {
    let mut program = Vec::new(alloc);
    if let Some(words) = turner.doing(pid).words() {
        if let Some(name) = words.as_slice().first() {
            add_short(&mut program, name.as_slice())?;
        }
    }
    Ok(program)
}

// The call that the process on hart 0 makes.
fn plan_of<M: Machine>(
    alloc: Global,
    turner: &Turner<'_, M>,
    pid: Pid,
) -> Result<Plan, AllocError> {
    let program = program_of(alloc, turner, pid)?;
    let kernel = turner.tracer().kernel();
    let mut call = CallSlot::new();
    kernel.ask(0, pid.index(), &mut call);
    let thing = match call.kind() {
        CallKind::Read(fd, _) | CallKind::Write(fd) | CallKind::Close(fd) | CallKind::Dup(fd) => {
            thing_of(alloc, kernel, pid, fd)?
        }
        _ => Vec::new(alloc),
    };
    let is_there = kernel.files().get(call.bytes()).is_some();
    Ok(Plan {
        call,
        thing,
        is_there,
        program,
    })
}

// The words before and after what is acted on.
fn around(text: &mut Vec<u8>, before: &str, thing: &[u8], after: &str) -> Result<(), AllocError> {
    text.extend_from_slice(before.as_bytes())?;
    text.extend_from_slice(thing)?;
    text.extend_from_slice(after.as_bytes())
}

fn add_read<M: Machine>(
    alloc: Global,
    text: &mut Vec<u8>,
    turner: &Turner<'_, M>,
    pid: Pid,
    thing: &[u8],
) -> Result<(), AllocError> {
    if turner.is_asleep(pid) {
        return around(text, "finds ", thing, " empty and waits");
    }
    if !turner.is_done(pid) {
        return around(text, "can't read ", thing, "");
    }
    let count = turner.read(pid);
    if count == 0 {
        return around(text, "finds ", thing, " at its end");
    }
    let end = if count == 1 { "" } else { "s" };
    let begin = format!(in alloc; "reads {count} byte{end} of ")?;
    around(text, begin.as_str(), thing, "")
}

fn add_write<M: Machine>(
    text: &mut Vec<u8>,
    turner: &Turner<'_, M>,
    pid: Pid,
    plan: &Plan,
) -> Result<(), AllocError> {
    let thing = plan.thing.as_slice();
    if turner.is_asleep(pid) {
        return around(text, "finds ", thing, " full and waits");
    }
    if !turner.is_done(pid) {
        return around(text, "can't write to ", thing, "");
    }
    text.extend_from_slice(b"writes \"".as_slice())?;
    add_short(text, plan.call.bytes())?;
    around(text, "\" to ", thing, "")
}

fn add_open<M: Machine>(
    text: &mut Vec<u8>,
    turner: &Turner<'_, M>,
    pid: Pid,
    plan: &Plan,
    mode: Mode,
) -> Result<(), AllocError> {
    let name = plan.call.bytes();
    if !turner.is_done(pid) {
        return around(text, "can't open ", name, "");
    }
    match (mode, plan.is_there) {
        (Mode::Input, _) => around(text, "opens ", name, ""),
        (_, false) => around(text, "makes ", name, ""),
        (Mode::Fresh, true) => around(text, "opens ", name, " and empties it"),
        (Mode::Over, true) => around(text, "opens ", name, " to write over it"),
        (Mode::Append, true) => around(text, "opens ", name, " to append to it"),
    }
}

fn add_fork<M: Machine>(
    alloc: Global,
    text: &mut Vec<u8>,
    turner: &Turner<'_, M>,
) -> Result<(), AllocError> {
    let Some(child) = turner.child() else {
        return text.extend_from_slice(b"can't fork".as_slice());
    };
    text.extend_from_slice(b"forks ".as_slice())?;
    add_process(alloc, text, child.index(), turner.doing(child))
}

fn add_wait<M: Machine>(
    alloc: Global,
    text: &mut Vec<u8>,
    turner: &Turner<'_, M>,
    pid: Pid,
) -> Result<(), AllocError> {
    if turner.is_asleep(pid) {
        return text.extend_from_slice(b"waits for a child".as_slice());
    }
    match turner.gone() {
        Some(gone) => {
            let index = gone.index();
            let learned = format!(in alloc; "learns that process {index} has exited")?;
            text.extend_from_slice(learned.as_bytes())
        }
        None => text.extend_from_slice(b"has no child to wait for".as_slice()),
    }
}

// Adds what the call did.
fn add_deed<M: Machine>(
    alloc: Global,
    text: &mut Vec<u8>,
    turner: &Turner<'_, M>,
    pid: Pid,
    plan: &Plan,
) -> Result<(), AllocError> {
    let thing = plan.thing.as_slice();
    match plan.call.kind() {
        CallKind::Fork => add_fork(alloc, text, turner),
        CallKind::Exec(true) => around(text, "runs ", plan.program.as_slice(), ""),
        CallKind::Exec(false) => around(text, "finds no program ", plan.program.as_slice(), ""),
        CallKind::Exit => text.extend_from_slice(b"exits".as_slice()),
        CallKind::Wait => add_wait(alloc, text, turner, pid),
        CallKind::MakePipe => text.extend_from_slice(b"makes a pipe".as_slice()),
        CallKind::Read(_, _) => add_read(alloc, text, turner, pid, thing),
        CallKind::Write(_) => add_write(text, turner, pid, plan),
        CallKind::OpenFile(mode) => add_open(text, turner, pid, plan, mode),
        CallKind::Close(_) => around(text, "closes ", thing, ""),
        CallKind::Dup(_) => around(text, "duplicates a descriptor of ", thing, ""),
    }
}

// Lets the process make its call, and adds what it did; whether it could.
fn trap<M: Machine>(
    alloc: Global,
    text: &mut Vec<u8>,
    turner: &mut Turner<'_, M>,
    pid: Pid,
    plan: &Plan,
) -> Result<bool, AllocError> {
    if !turner.trap(pid)? {
        return Ok(false);
    }
    add_deed(alloc, text, turner, pid, plan)?;
    Ok(true)
}

/// Lets the process take its turn, and returns in words which process it is and what it does; `None` where it can't.
pub(crate) fn deed_of<M: Machine>(
    alloc: Global,
    turner: &mut Turner<'_, M>,
    pid: Pid,
) -> Result<Option<Vec<u8>>, AllocError> {
    if !turner.dispatch(pid)? {
        return Ok(None);
    }
    let plan = plan_of(alloc, turner, pid)?;
    let mut text = Vec::new(alloc);
    add_process(alloc, &mut text, pid.index(), turner.doing(pid))?;
    text.push(b' ')?;
    let is_made = trap(alloc, &mut text, turner, pid, &plan)?;
    Ok(is_made.then_some(text))
}
