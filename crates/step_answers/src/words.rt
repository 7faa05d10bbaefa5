//! Words for processes, for what they have open, and for bytes.

use crate::narrator::Narrator;
use crate::text::Text;
use command_text::Doing;
use fd_table::Object;
use proc_table::Pid;
use user_calls::{Machine, Mode};

// How many bytes of a command, or of what is written, are shown.
const SHOWN: usize = 60;

// How many bytes of a command are shown where processes are listed.
const LISTED: usize = 24;

// The letters of pipes.
const LETTERS: [u8; 26] = *b"ABCDEFGHIJKLMNOPQRSTUVWXYZ";

// Blanks until the text has so many bytes.
pub(crate) fn add_blanks(text: &mut Text, size: usize) {
    for _ in text.len()..size {
        text.byte(b' ');
    }
}

// Adds the bytes on one line, of more than `most` the first and `..`.
fn add_first(text: &mut Text, bytes: &[u8], most: usize) {
    text.shown(&bytes[..bytes.len().min(most)]);
    if most < bytes.len() {
        text.add("..");
    }
}

// The same of 60 bytes.
pub(crate) fn add_short(text: &mut Text, bytes: &[u8]) {
    add_first(text, bytes, SHOWN);
}

/// Adds the name of a file: as it is where each byte is a printable one and no space, else between quotes.
pub fn add_name(text: &mut Text, name: &[u8]) {
    if !name.is_empty() && name.iter().all(|byte| matches!(*byte, b'!'..=b'~')) {
        text.bytes(name);
    } else {
        add_quoted(text, name, usize::MAX);
    }
}

// The bytes between quotes on one line, with a backslash before a quote, of more than `most` the first and `..`.
pub(crate) fn add_quoted(text: &mut Text, bytes: &[u8], most: usize) {
    text.byte(b'"');
    for byte in &bytes[..bytes.len().min(most)] {
        if *byte == b'"' {
            text.byte(b'\\');
        }
        text.shown(&[*byte]);
    }
    text.byte(b'"');
    if most < bytes.len() {
        text.add("..");
    }
}

// The same of what a call moved.
pub(crate) fn add_data(text: &mut Text, bytes: &[u8]) {
    add_quoted(text, bytes, SHOWN);
}

// The command that is carried out, its first bytes, between grave accents, if there is one; and whether there is.
fn add_doing(text: &mut Text, doing: Doing<'_>, most: usize) -> bool {
    let mut command = Vec::new(text.alloc());
    match doing.append_text(&mut command) {
        Ok(false) => return false,
        Ok(true) => {
            text.byte(b'`');
            add_first(text, command.as_slice(), most);
            text.byte(b'`');
        }
        Err(_) => text.refuse(),
    }
    true
}

// What is carried out by a process that has no command.
fn own_word(doing: Doing<'_>) -> &'static str {
    match doing {
        Doing::Init => "(init)",
        _ => "(the shell)",
    }
}

/// Adds the command that a process carries out, its first 60 bytes, between grave accents, or `(init)` or `(the shell)`.
pub fn add_command(text: &mut Text, doing: Doing<'_>) {
    if !add_doing(text, doing, SHOWN) {
        text.add(own_word(doing));
    }
}

// A process with the command that it carries out.
pub(crate) fn add_process(text: &mut Text, pid: Pid, doing: Doing<'_>) {
    text.add("process ");
    text.number(pid.index() as u64);
    text.byte(b' ');
    add_command(text, doing);
}

// The command that a process carries out, where processes are listed.
pub(crate) fn add_listed(text: &mut Text, doing: Doing<'_>) {
    if !add_doing(text, doing, LISTED) {
        text.add(own_word(doing));
    }
}

/// Adds a pipe, by its letter: A is the first that was made, and behind the first 26 a number stands too, as on the page of a run.
pub fn add_pipe<M: Machine>(text: &mut Text, narrator: &Narrator<'_, M>, name: u64) {
    text.add("pipe ");
    let Some(place) = narrator.place_of_pipe(name) else {
        text.number(name);
        return;
    };
    text.byte(LETTERS[place % 26]);
    if place >= 26 {
        text.number((place / 26) as u64);
    }
}

// An end of a pipe.
fn add_pipe_end<M: Machine>(text: &mut Text, narrator: &Narrator<'_, M>, name: u64, end: &str) {
    add_pipe(text, narrator, name);
    text.add(end);
}

/// Adds what is open, in words.
pub fn add_object<M: Machine>(text: &mut Text, narrator: &Narrator<'_, M>, object: &Object) {
    match object {
        Object::Input => text.add("the standard input"),
        Object::Out => text.add("the output"),
        Object::Diag => text.add("the diagnostics"),
        Object::File(name, _) => add_name(text, name.as_slice()),
        Object::PipeRead(name) => add_pipe_end(text, narrator, *name, "'s read end"),
        Object::PipeWrite(name) => add_pipe_end(text, narrator, *name, "'s write end"),
    }
}

// What a descriptor of the process has open, in words.
pub(crate) fn add_thing<M: Machine>(
    text: &mut Text,
    narrator: &Narrator<'_, M>,
    pid: Pid,
    fd: usize,
) {
    match narrator.kernel().object(pid, fd) {
        Some(object) => add_object(text, narrator, object),
        None => {
            text.add("descriptor ");
            text.number(fd as u64);
            text.add(", which isn't open");
        }
    }
}

// How a file is opened.
pub(crate) fn purpose(mode: Mode) -> &'static str {
    match mode {
        Mode::Input => " to read it",
        Mode::Fresh => " to write it anew",
        Mode::Over => " to write over it",
        Mode::Append => " to append to it",
    }
}
