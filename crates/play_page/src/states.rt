//! What there is in a state: its processes, and the world around them.

use crate::book::{Book, Kind, add_comma, add_item, add_optional};
use crate::follow::{Follow, Held, held_in};
use command_text::Doing;
use fd_table::DESCRIPTORS;
use proc_table::{PROCS, Pid, State};
use run_trace::{End, pipe_end};
use std::alloc::AllocError;
use step_answers::{Text, add_command, add_pipe, add_plan, add_sleep};
use user_calls::Machine;

// What stands before the letter of a pipe.
const PIPE: usize = 5;

// The row of a pipe's letter.
pub fn letter_of<M: Machine>(book: &mut Book, follow: &Follow<'_, M>, name: u64) -> usize {
    let mut text = Text::new(book.alloc);
    add_pipe(&mut text, &follow.narrator, name);
    book.texts.put_rest(text, PIPE)
}

// The row of a pipe as a thing.
pub fn pipe_of<M: Machine>(book: &mut Book, follow: &Follow<'_, M>, name: u64) -> usize {
    let letter = letter_of(book, follow, name);
    book.thing(Kind::Pipe, letter)
}

// What a process does next, or what it sleeps on.
fn words_of<M: Machine>(book: &mut Book, follow: &Follow<'_, M>, pid: Pid) -> usize {
    let mut text = Text::new(book.alloc);
    match follow.kernel().state(pid) {
        State::Free | State::Zombie => {}
        State::Asleep(channel) => add_sleep(&mut text, &follow.narrator, pid, channel),
        State::Runnable | State::Running(_) => add_plan(&mut text, &follow.narrator, pid),
    }
    book.text(text)
}

// How a process is: runnable, about to fall asleep, asleep, or a zombie.
fn state_of<M: Machine>(follow: &Follow<'_, M>, pid: Pid) -> usize {
    match follow.kernel().state(pid) {
        State::Asleep(_) => 2,
        State::Free | State::Zombie => 3,
        State::Runnable | State::Running(_) => usize::from(follow.would_sleep(pid)),
    }
}

// The row of the command that a process carries out.
fn command_of(book: &mut Book, doing: Doing<'_>) -> usize {
    let mut name = Text::new(book.alloc);
    add_command(&mut name, doing);
    book.text(name)
}

// The slot of a process's parent, which this is; the first process has none.
fn parent_of(pid: Pid, parent: Pid) -> Option<usize> {
    if pid == Pid::init() {
        None
    } else {
        Some(parent.index())
    }
}

// The row of a process, whose parent is this one.
fn process_of<M: Machine>(book: &mut Book, follow: &Follow<'_, M>, pid: Pid, parent: Pid) -> usize {
    let doing = follow.narrator.doing(pid);
    let name = command_of(book, doing);
    let words = words_of(book, follow, pid);
    let mut row = Text::new(book.alloc);
    row.add("[");
    row.number(pid.index() as u64);
    add_optional(&mut row, parent_of(pid, parent));
    add_item(&mut row, name);
    add_item(&mut row, doing.line().unwrap_or(0));
    add_item(&mut row, state_of(follow, pid));
    add_item(&mut row, words);
    row.add("]");
    book.processes.put_text(row)
}

// Whether the process holds this end of the pipe.
fn holds<M: Machine>(follow: &Follow<'_, M>, pid: Pid, name: u64, end: End) -> bool {
    for fd in 0..DESCRIPTORS {
        if pipe_end(follow.kernel(), pid, fd) == Some((name, end)) {
            return true;
        }
    }
    false
}

// The processes that hold this end of the pipe.
fn add_holders<M: Machine>(row: &mut Text, follow: &Follow<'_, M>, name: u64, end: End) {
    let mut count: usize = 0;
    row.add("[");
    for index in 0..PROCS {
        if let Some(pid) = Pid::new(index) {
            if holds(follow, pid, name, end) {
                add_comma(row, count);
                row.number(index as u64);
                count = count.saturating_add(1);
            }
        }
    }
    row.add("]");
}

// A pipe: its letter, how many bytes it holds and which, and who holds its ends.
fn add_pipe_row<M: Machine>(row: &mut Text, book: &mut Book, follow: &Follow<'_, M>, pipe: &Held) {
    let letter = letter_of(book, follow, pipe.name);
    let bytes = book.shown(&pipe.bytes);
    row.add("[");
    row.number(letter as u64);
    add_item(row, held_in(follow.kernel(), pipe.name));
    add_item(row, bytes);
    row.add(",");
    add_holders(row, follow, pipe.name, End::Read);
    row.add(",");
    add_holders(row, follow, pipe.name, End::Write);
    row.add("]");
}

// The pipes of which an end is held.
fn add_pipes<M: Machine>(row: &mut Text, book: &mut Book, follow: &Follow<'_, M>) {
    let mut count: usize = 0;
    row.add("[");
    for pipe in &follow.pipes {
        if follow.kernel().pipe(pipe.name).is_some() {
            add_comma(row, count);
            add_pipe_row(row, book, follow, pipe);
            count = count.saturating_add(1);
        }
    }
    row.add("]");
}

// The files, name and bytes in turn.
fn add_files<M: Machine>(row: &mut Text, book: &mut Book, follow: &Follow<'_, M>) {
    let files = follow.kernel().files();
    for at in 0..files.count() {
        if let Some(name) = files.name_at(at) {
            let bytes = book.shown(files.get(name).unwrap_or(&[]));
            let name = book.name(name);
            add_comma(row, at);
            row.number(name as u64);
            add_item(row, bytes);
        }
    }
}

// The row of the world.
fn world_of<M: Machine>(book: &mut Book, follow: &Follow<'_, M>) -> usize {
    let out = book.shown(follow.kernel().out());
    let diag = book.shown(follow.kernel().diag());
    let mut row = Text::new(book.alloc);
    row.add("[");
    row.number(out as u64);
    add_item(&mut row, diag);
    row.add(",[");
    add_files(&mut row, book, follow);
    row.add("],");
    add_pipes(&mut row, book, follow);
    row.add("]");
    book.worlds.put_text(row)
}

// How many processes there are.
fn count_of<M: Machine>(follow: &Follow<'_, M>) -> usize {
    let mut count: usize = 0;
    for index in 0..PROCS {
        if let Some(pid) = Pid::new(index) {
            if follow.kernel().parent(pid).is_some() {
                count = count.saturating_add(1);
            }
        }
    }
    count
}

// The rows of the processes.
fn add_processes<M: Machine>(row: &mut Text, book: &mut Book, follow: &Follow<'_, M>) {
    for index in 0..PROCS {
        if let Some(pid) = Pid::new(index) {
            if let Some(parent) = follow.kernel().parent(pid) {
                add_item(row, process_of(book, follow, pid, parent));
            }
        }
    }
}

// What is shown of a state, as its row has it: the world, how many processes there are, and these.
//
// `AllocError` where memory was refused to a row of the book, of this state or of an earlier one.
pub fn shown_of<M: Machine>(
    book: &mut Book,
    follow: &Follow<'_, M>,
) -> Result<Vec<u8>, AllocError> {
    let world = world_of(book, follow);
    let mut row = Text::new(book.alloc);
    row.number(world as u64);
    add_item(&mut row, count_of(follow));
    add_processes(&mut row, book, follow);
    book.check()?;
    row.end()
}
