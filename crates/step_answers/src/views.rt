//! What there is of processes, pipes, descriptors and files, as text.

use crate::ends::{live_pids, names_of};
use crate::narrator::Narrator;
use crate::plans::add_plan;
use crate::sleeps::{add_holders, add_sleep};
use crate::text::Text;
use crate::words::{add_blanks, add_listed, add_name, add_object, add_pipe, add_quoted};
use fd_table::{DESCRIPTORS, Object};
use kernel_events::Kernel;
use mem_files::Files;
use proc_table::{Pid, State};
use run_trace::End;
use std::alloc::{AllocError, Global};
use user_calls::Machine;

// How many bytes a pipe holds at most.
const PIPE_SIZE: &str = " of 512 bytes";

// Where the commands of processes begin, on lines of these, how many blanks stand behind the widest, and how wide a program is with the
// blanks behind it.
const COMMAND_COLUMN: usize = 3;

const GAP: usize = 2;

const PROGRAM_SIZE: usize = 6;

// The state of a process, with what it does next or sleeps on.
fn add_state<M: Machine>(text: &mut Text, narrator: &Narrator<'_, M>, pid: Pid) {
    let kernel = narrator.kernel();
    match kernel.state(pid) {
        State::Free => text.add("free"),
        State::Zombie => text.add("zombie"),
        State::Asleep(channel) => {
            text.add("asleep     ");
            add_sleep(text, narrator, pid, channel);
        }
        State::Runnable | State::Running(_) => {
            text.add("runnable   next: ");
            add_plan(text, narrator, pid);
        }
    }
}

// A process, on a line: its number, its command, of which the widest has so many columns, its program and its state.
fn add_process_line<M: Machine>(
    text: &mut Text,
    narrator: &Narrator<'_, M>,
    pid: Pid,
    wide: usize,
) {
    let begin = text.len();
    text.number(pid.index() as u64);
    add_blanks(text, begin.saturating_add(COMMAND_COLUMN));
    let program = text.len().saturating_add(wide).saturating_add(GAP);
    add_listed(text, narrator.doing(pid));
    add_blanks(text, program);
    text.bytes(narrator.doing(pid).program());
    add_blanks(text, program.saturating_add(PROGRAM_SIZE));
    add_state(text, narrator, pid);
    text.byte(b'\n');
}

// How many columns the widest command of these processes has.
fn width_of<M: Machine>(alloc: Global, narrator: &Narrator<'_, M>, pids: &[Pid]) -> usize {
    let mut widest = 0;
    for pid in pids {
        let mut text = Text::new(alloc);
        add_listed(&mut text, narrator.doing(*pid));
        widest = text.len().max(widest);
    }
    widest
}

// The processes, a line each.
pub(crate) fn add_ps<M: Machine>(
    text: &mut Text,
    narrator: &Narrator<'_, M>,
) -> Result<(), AllocError> {
    let pids = live_pids(text.alloc(), narrator.kernel())?;
    let wide = width_of(text.alloc(), narrator, pids.as_slice());
    for pid in &pids {
        add_process_line(text, narrator, *pid, wide);
    }
    Ok(())
}

// The holders of the ends of a pipe, and how full it is, on a line.
fn add_pipe_line<M: Machine>(text: &mut Text, narrator: &Narrator<'_, M>, name: u64) {
    let held = match narrator.kernel().pipe(name) {
        Some(status) => status.held,
        None => 0,
    };
    add_pipe(text, narrator, name);
    text.add(", made by event ");
    text.number(name);
    text.add(": ");
    text.number(held as u64);
    text.add(PIPE_SIZE);
    text.add(", read by ");
    add_holders(text, narrator, name, End::Read);
    text.add(", written by ");
    add_holders(text, narrator, name, End::Write);
    text.byte(b'\n');
}

// The pipes, a line each.
pub(crate) fn add_pipes<M: Machine>(
    text: &mut Text,
    narrator: &Narrator<'_, M>,
) -> Result<(), AllocError> {
    let names = names_of(text.alloc(), narrator.kernel())?;
    if names.is_empty() {
        text.add("there is no pipe\n");
    }
    for name in &names {
        add_pipe_line(text, narrator, *name);
    }
    Ok(())
}

// Where what a descriptor has open goes on, of a file.
fn add_offset(text: &mut Text, object: &Object, offset: Option<u64>) {
    if let (Object::File(_, _), Some(offset)) = (object, offset) {
        text.add(", at byte ");
        text.number(offset);
    }
}

// The open descriptors of a process, a line each.
pub(crate) fn add_fds<M: Machine>(text: &mut Text, narrator: &Narrator<'_, M>, pid: Pid) {
    let kernel = narrator.kernel();
    let begin = text.len();
    for fd in 0..DESCRIPTORS {
        if let Some(object) = kernel.object(pid, fd) {
            text.number(fd as u64);
            text.add(": ");
            add_object(text, narrator, object);
            add_offset(text, object, kernel.offset(pid, fd));
            text.byte(b'\n');
        }
    }
    if text.len() == begin {
        text.add("it has nothing open\n");
    }
}

// How many bytes of a file are shown.
const HEAD_SIZE: usize = 32;

// The files, a line each.
pub(crate) fn add_files<M: Machine>(text: &mut Text, kernel: &Kernel<M, Global>) {
    if kernel.files().count() == 0 {
        text.add("there is no file\n");
    }
    add_all_files(text, kernel.files(), "");
}

// A file on a line.
fn add_file(text: &mut Text, name: &[u8], bytes: &[u8]) {
    add_name(text, name);
    text.add(": ");
    text.count(bytes.len(), "byte");
    text.add(", ");
    add_quoted(text, bytes, HEAD_SIZE);
    text.byte(b'\n');
}

// The files, a line each, behind these blanks.
pub(crate) fn add_all_files(text: &mut Text, files: &Files<Global>, blanks: &str) {
    for at in 0..files.count() {
        if let Some(name) = files.name_at(at) {
            text.add(blanks);
            add_file(text, name, files.get(name).unwrap_or(&[]));
        }
    }
}

// Bytes that were written, how many and which.
fn add_written(text: &mut Text, what: &str, bytes: &[u8]) {
    text.add(what);
    text.count(bytes.len(), "byte");
    text.add(", ");
    add_quoted(text, bytes, usize::MAX);
    text.byte(b'\n');
}

// The output and the diagnostics so far.
pub(crate) fn add_out<M: Machine>(text: &mut Text, kernel: &Kernel<M, Global>) {
    add_written(text, "output: ", kernel.out());
    add_written(text, "diagnostics: ", kernel.diag());
}
