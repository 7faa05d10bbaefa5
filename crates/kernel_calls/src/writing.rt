//! write (xv6's `filewrite` and `pipewrite`).

ghost use Rattle.std.specs.Prelude.{◌≡◌, ◌≤◌, ◌<◌, ◌+◌, ◌++◌, true, IfSome, Some, OnOk, OnErr, drop, min, length};
ghost use Rattle.fd_table.specs.Entries.{IsInUse, entry_at, offset_of};
ghost use Rattle.mem_files.specs.Files.{files};
ghost use Rattle.mem_files.specs.Listing.{max_size};
ghost use Rattle.proc_table.specs.Slots.{at, is_running, put_of};
ghost use Rattle.kernel_calls.specs.FileOf.{IfFile, IsFile};
ghost use Rattle.kernel_model.specs.Sound.{IsSound};
ghost use Rattle.kernel_model.specs.Notes.{is_refused};
ghost use Rattle.kernel_model.specs.Pipes.{pipe_of};
ghost use Rattle.kernel_model.specs.Writing.{append_file, write, write_file, write_object, write_pipe};

use crate::descriptors::entry;
use crate::state::State;
use byte_pipe::Put;
use fd_table::{Entry, Mode as EntryMode, Object};
use kernel_model::{Full, Memory};
use mem_files::FilesFault;
use proc_table::{Answer, Channel, Pid};
use std::alloc::{AllocError, Allocator};
use user_calls::Machine;

// `sys_write`. Returns whether memory was refused, which can be only where a file or an output grows.
pub(crate) fn write<M: Machine, A: Allocator>(
    state: &mut State<M, A>,
    pid: Pid,
    fd: usize,
    bytes: &[u8],
) -> Memory
    requires runs { is_running (at state.old.table pid) ≡ true }
    requires sound { IsSound state.old.table state.old.entries }
    requires few { length bytes.now ≤ 1024 }
    ensures { IfSome (at state.old.table pid) (λ p. state.new ≡ write state.old pid (M.next_of p.machine p.reply) fd bytes.now (is_refused result)) }
{
    match entry(state, pid, fd) {
        Some(entry) => write_held(state, pid, entry, bytes),
        None => {
            state.answer(pid, Answer::Refused);
            Memory::Found
        }
    }
}

// Appends the bytes. Takes memory only where there are some.
fn append<A: Allocator>(to: &mut Vec<u8, A>, bytes: &[u8]) -> Result<(), AllocError>
    ensures ok { OnOk result (to.new.items ≡ to.old.items ++ bytes.now) }
    ensures err { OnErr result (to.new.items ≡ to.old.items) }
    ensures grows { OnErr result (0 < length bytes.now) }
{
    if bytes.is_empty() {
        return Ok(());
    }
    to.extend_from_slice(bytes)
}

// A write to what the entry has open. Returns whether memory was refused, which can be only where something grows.
pub(crate) fn write_held<M: Machine, A: Allocator>(
    state: &mut State<M, A>,
    pid: Pid,
    entry: Entry,
    bytes: &[u8],
) -> Memory
    requires runs { is_running (at state.old.table pid) ≡ true }
    requires in_use { IsInUse state.old.entries entry }
    requires small { offset_of (entry_at state.old.entries entry) ≤ max_size }
    requires few { length bytes.now ≤ 1024 }
    ensures { IfSome (at state.old.table pid) (λ p. IfSome (entry_at state.old.entries entry) (λ f. state.new ≡ write_object state.old pid (M.next_of p.machine p.reply) entry f.offset bytes.now (is_refused result) f.object)) }
{
    match state.entries.object(entry) {
        Object::Out => {
            if append(&mut state.out, bytes).is_ok() {
                state.procs.answer(pid, Answer::Done);
                Memory::Found
            } else {
                state.refuse(pid, Full::Memory);
                Memory::Refused
            }
        }
        Object::Diag => {
            if append(&mut state.diag, bytes).is_ok() {
                state.procs.answer(pid, Answer::Done);
                Memory::Found
            } else {
                state.refuse(pid, Full::Memory);
                Memory::Refused
            }
        }
        Object::File(_, EntryMode::Fresh) => write_file(state, pid, entry, bytes),
        Object::File(_, EntryMode::Over) => write_file(state, pid, entry, bytes),
        Object::File(_, EntryMode::Append) => append_file(state, pid, entry, bytes),
        Object::PipeWrite(name) => {
            let name = *name;
            let put = state.procs.put(pid);
            let from = put.min(bytes.len());
            write_pipe(state, pid, name, put, &bytes[from..]);
            Memory::Found
        }
        Object::File(_, EntryMode::Input) => {
            state.procs.answer(pid, Answer::Refused);
            Memory::Found
        }
        Object::PipeRead(_) => {
            state.procs.answer(pid, Answer::Refused);
            Memory::Found
        }
        Object::Input => {
            state.procs.answer(pid, Answer::Refused);
            Memory::Found
        }
    }
}

// A write to the pipe of that name of the bytes that are left after `put` of them were put. A write that sleeps has put
// less than a block.
pub(crate) fn write_pipe<M: Machine, A: Allocator>(
    state: &mut State<M, A>,
    pid: Pid,
    name: u64,
    put: usize,
    left: &[u8],
)
    requires runs { is_running (at state.old.table pid) ≡ true }
    requires few { 0 < length left.now → put + length left.now ≤ 1024 }
    ensures { IfSome (at state.old.table pid) (λ p. state.new ≡ write_pipe state.old pid (M.next_of p.machine p.reply) name put left.now (pipe_of state.old.pipes name)) }
{
    match state.pipes.put(name, left) {
        None => state.procs.answer(pid, Answer::Refused),
        Some(Put::Closed) => state.procs.answer(pid, Answer::Refused),
        Some(Put::Full) => {
            state.procs.sleep(pid, Channel::PipeRoom(name), put);
            state.procs.wakeup(Channel::PipeBytes(name));
        }
        Some(Put::Took(count)) => {
            if count == left.len() {
                state.procs.answer(pid, Answer::Done);
            } else {
                state.procs.sleep(pid, Channel::PipeRoom(name), put + count);
            }
            state.procs.wakeup(Channel::PipeBytes(name));
        }
    }
}

// A write to the file that the entry has open for writing. Returns whether memory was refused, which can be only where
// the file grows.
pub(crate) fn write_file<M: Machine, A: Allocator>(
    state: &mut State<M, A>,
    pid: Pid,
    entry: Entry,
    bytes: &[u8],
) -> Memory
    requires runs { is_running (at state.old.table pid) ≡ true }
    requires in_use { IsInUse state.old.entries entry }
    requires small { offset_of (entry_at state.old.entries entry) ≤ max_size }
    requires few { length bytes.now ≤ 1024 }
    requires file { IsFile (entry_at state.old.entries entry) }
    ensures { IfSome (at state.old.table pid) (λ p. IfFile (entry_at state.old.entries entry) (λ name offset. state.new ≡ write_file state.old pid (M.next_of p.machine p.reply) entry name offset bytes.now (is_refused result) (files state.old.files name))) }
{
    let offset = state.entries.offset(entry);
    let Object::File(name, _) = state.entries.object(entry) else {
        unreachable!()
    };
    match state
        .files
        .write_at(name.as_slice(), offset as usize, bytes)
    {
        Ok(()) => {
            state.entries.advance(entry, bytes.len() as u64);
            state.procs.answer(pid, Answer::Done);
            Memory::Found
        }
        Err(FilesFault::FullSize) => {
            state.refuse(pid, Full::Size);
            Memory::Found
        }
        Err(FilesFault::Memory) => {
            state.refuse(pid, Full::Memory);
            Memory::Refused
        }
        Err(_) => {
            state.procs.answer(pid, Answer::Refused);
            Memory::Found
        }
    }
}

// A write to the end of the file that the entry has open. Returns whether memory was refused, which can be only where
// there are bytes.
pub(crate) fn append_file<M: Machine, A: Allocator>(
    state: &mut State<M, A>,
    pid: Pid,
    entry: Entry,
    bytes: &[u8],
) -> Memory
    requires runs { is_running (at state.old.table pid) ≡ true }
    requires in_use { IsInUse state.old.entries entry }
    requires file { IsFile (entry_at state.old.entries entry) }
    ensures { IfSome (at state.old.table pid) (λ p. IfFile (entry_at state.old.entries entry) (λ name offset. state.new ≡ append_file state.old pid (M.next_of p.machine p.reply) entry name bytes.now (is_refused result) (files state.old.files name))) }
{
    let Object::File(name, _) = state.entries.object(entry) else {
        unreachable!()
    };
    match state.files.append(name.as_slice(), bytes) {
        Ok(size) => {
            state.entries.move_to(entry, size as u64);
            state.procs.answer(pid, Answer::Done);
            Memory::Found
        }
        Err(FilesFault::FullSize) => {
            state.refuse(pid, Full::Size);
            Memory::Found
        }
        Err(FilesFault::Memory) => {
            state.refuse(pid, Full::Memory);
            Memory::Refused
        }
        Err(_) => {
            state.procs.answer(pid, Answer::Refused);
            Memory::Found
        }
    }
}
