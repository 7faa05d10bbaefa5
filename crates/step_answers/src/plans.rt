//! What a process does next, in words.

use crate::narrator::Narrator;
use crate::text::Text;
use crate::words::{add_name, add_short, add_thing, purpose};
use command_text::{Doing, append_command};
use proc_table::Pid;
use script_load::{Line, Script};
use std::alloc::{AllocError, Global};
use user_calls::{CallKind, CallSlot, Machine};

// A call on a descriptor, with what that has open.
fn add_on<M: Machine>(
    text: &mut Text,
    verb: &str,
    narrator: &Narrator<'_, M>,
    pid: Pid,
    fd: usize,
) {
    text.add(verb);
    text.add(" descriptor ");
    text.number(fd as u64);
    text.add(" (");
    add_thing(text, narrator, pid, fd);
    text.byte(b')');
}

// The program that a shell calls.
fn add_exec<M: Machine>(text: &mut Text, narrator: &Narrator<'_, M>, pid: Pid) {
    text.add("exec ");
    if let Some(words) = narrator.doing(pid).words() {
        if let Some(name) = words.as_slice().first() {
            add_short(text, name.as_slice());
        }
    }
}

fn add_write<M: Machine>(
    text: &mut Text,
    narrator: &Narrator<'_, M>,
    pid: Pid,
    fd: usize,
    size: usize,
) {
    text.add("write ");
    text.count(size, "byte");
    add_on(text, " to", narrator, pid, fd);
}

fn add_call<M: Machine>(text: &mut Text, narrator: &Narrator<'_, M>, pid: Pid, call: &CallSlot) {
    match call.kind() {
        CallKind::Fork => text.add("fork"),
        CallKind::Exec(_) => add_exec(text, narrator, pid),
        CallKind::Exit => text.add("exit"),
        CallKind::Wait => text.add("wait"),
        CallKind::MakePipe => text.add("pipe"),
        CallKind::Read(fd, _) => add_on(text, "read", narrator, pid, fd),
        CallKind::Write(fd) => add_write(text, narrator, pid, fd, call.bytes().len()),
        CallKind::OpenFile(mode) => {
            text.add("open ");
            add_name(text, call.bytes());
            text.add(purpose(mode));
        }
        CallKind::Close(fd) => add_on(text, "close", narrator, pid, fd),
        CallKind::Dup(fd) => add_on(text, "dup", narrator, pid, fd),
    }
}

// The text of a line of a script.
fn append_line(line: &Line<Global>, text: &mut Vec<u8>) -> Result<(), AllocError> {
    match line {
        Line::Tree(tree) => append_command(tree, text),
        Line::Bad(_, bad) => text.extend_from_slice(bad.as_slice()),
        Line::Cd(place) => {
            text.extend_from_slice(b"cd ".as_slice())?;
            text.extend_from_slice(place.as_slice())
        }
    }
}

// A line of the script, by its number.
fn add_script_line(text: &mut Text, script: &Script<Global>, number: usize) {
    let Some(line) = script.lines.as_slice().get(number.saturating_sub(1)) else {
        return;
    };
    let mut command = Vec::new(text.alloc());
    if append_line(line, &mut command).is_err() {
        text.refuse();
    }
    text.add(" for line ");
    text.number(number as u64);
    text.add(" `");
    add_short(text, command.as_slice());
    text.byte(b'`');
}

// The line of the script that a process carries out a command of; of the first shell only the line that it forks for.
fn add_line<M: Machine>(text: &mut Text, narrator: &Narrator<'_, M>, pid: Pid, call: CallKind) {
    let doing = narrator.doing(pid);
    if let Doing::Script(number) = doing {
        if let CallKind::Fork = call {
            add_script_line(text, narrator.script(), number);
        }
        return;
    }
    if let Some(line) = doing.line() {
        text.add(" for line ");
        text.number(line as u64);
    }
}

/// Adds what the process does by its next call, if there is one.
pub fn add_plan<M: Machine>(text: &mut Text, narrator: &Narrator<'_, M>, pid: Pid) {
    let mut call = CallSlot::new();
    if narrator.next_call(pid, &mut call) {
        add_call(text, narrator, pid, &call);
        add_line(text, narrator, pid, call.kind());
    }
}
