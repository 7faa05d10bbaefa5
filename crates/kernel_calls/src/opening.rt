//! open (xv6's `sys_open`).

ghost use Rattle.std.specs.Prelude.{◌≡◌, IfSome, is_some, true};
ghost use Rattle.proc_table.specs.Answers.{reply_of};
ghost use Rattle.proc_table.specs.Slots.{at, is_running};
ghost use Rattle.mem_files.specs.Name.{is_openable};
ghost use Rattle.mem_files.specs.Files.{files};
ghost use Rattle.kernel_model.specs.Modes.{empties, entry_mode, reads};
ghost use Rattle.kernel_model.specs.Opening.{emptied_if, open_file, open_for_reading, open_for_writing, open_here, open_reply};
ghost use Rattle.kernel_model.specs.Notes.{is_refused};

use crate::descriptors::{free_fd, open_object};
use crate::state::State;
use fd_table::{Mode as EntryMode, Name, Object};
use kernel_model::{Full, Memory};
use mem_files::{FilesFault, is_openable};
use proc_table::{Answer, Pid};
use std::alloc::Allocator;
use user_calls::{Machine, Mode};

// Opens the file, which is there, in this mode.
pub(crate) fn open_here<M: Machine, A: Allocator>(
    state: &mut State<M, A>,
    pid: Pid,
    name: Name,
    mode: Mode,
)
    requires runs { is_running (at state.old.table pid) ≡ true }
    ensures { IfSome (at state.old.table pid) (λ p. state.new ≡ open_here state.old pid (M.next_of p.machine p.reply) name mode) }
{
    let fd = free_fd(state, pid);
    open_object(state, pid, Object::File(name, entry_mode(mode)));
    state.answer(pid, open_reply(fd));
}

// A missing file is refused.
pub(crate) fn open_for_reading<M: Machine, A: Allocator>(
    state: &mut State<M, A>,
    pid: Pid,
    name: Name,
    mode: Mode,
)
    requires runs { is_running (at state.old.table pid) ≡ true }
    ensures { IfSome (at state.old.table pid) (λ p. state.new ≡ open_for_reading state.old pid (M.next_of p.machine p.reply) name mode (files state.old.files name)) }
{
    if state.files.get(name.as_slice()).is_some() {
        open_here(state, pid, name, mode);
    } else {
        state.answer(pid, Answer::Refused);
    }
}

// Looks for an entry and a descriptor first. Returns whether memory was refused.
pub(crate) fn open_file<M: Machine, A: Allocator + Copy>(
    state: &mut State<M, A>,
    pid: Pid,
    name: &[u8],
    mode: Mode,
) -> Memory
    requires runs { is_running (at state.old.table pid) ≡ true }
    ensures { IfSome (at state.old.table pid) (λ p. state.new ≡ open_file state.old pid (M.next_of p.machine p.reply) name.now mode (is_refused result)) }
{
    if state.entries.free_count() == 0 {
        state.refuse(pid, Full::Open);
        return Memory::Found;
    }
    if free_fd(state, pid).is_none() {
        state.refuse(pid, Full::Fds);
        return Memory::Found;
    }
    if !is_openable(name) {
        state.answer(pid, Answer::Refused);
        return Memory::Found;
    }
    let Some(name) = Name::new(name) else {
        unreachable!()
    };
    if reads(mode) {
        open_for_reading(state, pid, name, mode);
        Memory::Found
    } else {
        open_for_writing(state, pid, name, mode)
    }
}

// A missing file is made. Returns whether memory was refused.
pub(crate) fn open_for_writing<M: Machine, A: Allocator + Copy>(
    state: &mut State<M, A>,
    pid: Pid,
    name: Name,
    mode: Mode,
) -> Memory
    requires runs { is_running (at state.old.table pid) ≡ true }
    requires openable { is_openable name ≡ true }
    ensures { IfSome (at state.old.table pid) (λ p. state.new ≡ open_for_writing state.old pid (M.next_of p.machine p.reply) name mode (is_refused result) (files state.old.files name)) }
{
    if state.files.get(name.as_slice()).is_some() {
        empty_if(state, empties(mode), name.as_slice());
        open_here(state, pid, name, mode);
        return Memory::Found;
    }
    match state.files.create(name.as_slice()) {
        Ok(()) => {
            open_here(state, pid, name, mode);
            Memory::Found
        }
        Err(FilesFault::FullFiles) => {
            state.refuse(pid, Full::Files);
            Memory::Found
        }
        Err(FilesFault::Memory) => {
            state.refuse(pid, Full::Memory);
            Memory::Refused
        }
        Err(_) => unreachable!(),
    }
}

// Empties the file, which is there, where it is to be.
pub(crate) fn empty_if<M: Machine, A: Allocator + Copy>(
    state: &mut State<M, A>,
    empties: bool,
    name: &[u8],
)
    requires { is_some (files state.old.files name.now) ≡ true }
    ensures { state.new ≡ emptied_if empties state.old name.now }
{
    if empties {
        if state.files.truncate(name).is_err() {
            unreachable!()
        }
    }
}

// The reply to an open, by its descriptor.
fn open_reply(fd: Option<usize>) -> Answer
    ensures { reply_of result ≡ open_reply fd }
{
    match fd {
        Some(fd) => Answer::Fd(fd),
        None => Answer::Refused,
    }
}

// The mode of an entry that is opened so.
fn entry_mode(mode: Mode) -> EntryMode
    ensures { result ≡ entry_mode mode }
{
    match mode {
        Mode::Input => EntryMode::Input,
        Mode::Fresh => EntryMode::Fresh,
        Mode::Over => EntryMode::Over,
        Mode::Append => EntryMode::Append,
    }
}

// Whether a file is opened so for reading.
fn reads(mode: Mode) -> bool
    ensures { result ≡ reads mode }
{
    matches!(mode, Mode::Input)
}

// Whether a file that is opened so is emptied.
fn empties(mode: Mode) -> bool
    ensures { result ≡ empties mode }
{
    matches!(mode, Mode::Fresh)
}
