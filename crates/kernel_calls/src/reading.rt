//! read (xv6's `fileread` and `piperead`).

ghost use Rattle.std.specs.Prelude.{◌≡◌, ◌≤◌, ◌<◌, true, IfSome, Some, option_copied, option_map, take, drop, min, length};
ghost use Rattle.user_calls.specs.Limits.{block_size};
ghost use Rattle.fd_table.specs.Entries.{IsInUse, entry_at, offset_of};
ghost use Rattle.mem_files.specs.Files.{files};
ghost use Rattle.mem_files.specs.Listing.{max_size};
ghost use Rattle.proc_table.specs.Slots.{at, is_running};
ghost use Rattle.kernel_model.specs.Sound.{IsSound};
ghost use Rattle.kernel_model.specs.Pipes.{pipe_of};
ghost use Rattle.kernel_model.specs.Reading.{read, read_held, read_object, read_pipe};

use crate::blocks::first_bytes;
use crate::descriptors::entry;
use crate::state::State;
use byte_pipe::Take;
use fd_table::{Entry, Mode as EntryMode, Object};
use mem_files::Files;
use proc_table::{Answer, Channel, Pid};
use std::alloc::Allocator;
use user_calls::{BLOCK_SIZE, Machine};

// `sys_read`; a call for more bytes than a block reads a block at most.
pub(crate) fn read<M: Machine, A: Allocator>(state: &mut State<M, A>, pid: Pid, fd: usize, n: usize)
    requires runs { is_running (at state.old.table pid) ≡ true }
    requires sound { IsSound state.old.table state.old.entries }
    ensures { IfSome (at state.old.table pid) (λ p. state.new ≡ read state.old pid (M.next_of p.machine p.reply) fd n) }
{
    let n = n.min(BLOCK_SIZE);
    match entry(state, pid, fd) {
        Some(entry) => read_held(state, pid, entry, n),
        None => state.answer(pid, Answer::Refused),
    }
}

// A read from what the entry has open (`fileread`).
fn read_held<M: Machine, A: Allocator>(state: &mut State<M, A>, pid: Pid, entry: Entry, n: usize)
    requires runs { is_running (at state.old.table pid) ≡ true }
    requires in_use { IsInUse state.old.entries entry }
    requires small { offset_of (entry_at state.old.entries entry) ≤ max_size }
    requires few { n ≤ block_size }
    ensures { IfSome (at state.old.table pid) (λ p. IfSome (entry_at state.old.entries entry) (λ f. state.new ≡ read_object state.old pid (M.next_of p.machine p.reply) entry f.offset n f.object)) }
{
    match state.entries.object(entry) {
        Object::Input => {
            state.procs.answer_bytes(pid, state.input.first(n));
            state.input.skip(n);
        }
        Object::File(name, EntryMode::Input) => {
            let offset = state.entries.offset(entry);
            match bytes_of(&state.files, name.as_slice(), offset, n) {
                Some(bytes) => {
                    state.procs.answer_bytes(pid, bytes);
                    state.entries.advance(entry, bytes.len() as u64);
                }
                None => state.procs.answer(pid, Answer::Refused),
            }
        }
        Object::PipeRead(name) => {
            let name = *name;
            read_pipe(state, pid, name, n);
        }
        Object::File(_, EntryMode::Fresh) => state.procs.answer(pid, Answer::Refused),
        Object::File(_, EntryMode::Over) => state.procs.answer(pid, Answer::Refused),
        Object::File(_, EntryMode::Append) => state.procs.answer(pid, Answer::Refused),
        Object::PipeWrite(_) => state.procs.answer(pid, Answer::Refused),
        Object::Out => state.procs.answer(pid, Answer::Refused),
        Object::Diag => state.procs.answer(pid, Answer::Refused),
    }
}

// A read from the pipe of that name (`piperead`).
fn read_pipe<M: Machine, A: Allocator>(state: &mut State<M, A>, pid: Pid, name: u64, n: usize)
    requires runs { is_running (at state.old.table pid) ≡ true }
    requires few { n ≤ block_size }
    ensures { IfSome (at state.old.table pid) (λ p. state.new ≡ read_pipe state.old pid (M.next_of p.machine p.reply) name n (pipe_of state.old.pipes name)) }
{
    match state.pipes.peek(name, n) {
        Some((Take::Got(_), first, second)) => {
            state.procs.answer_parts(pid, first, second);
            state.pipes.skip(name, n);
            state.procs.wakeup(Channel::PipeRoom(name));
        }
        Some((Take::Empty, _, _)) => {
            state.pipes.skip(name, n);
            state.procs.sleep(pid, Channel::PipeBytes(name), 0);
        }
        Some((Take::End, _, _)) => {
            state.pipes.skip(name, n);
            state.procs.answer_bytes(pid, b"");
        }
        None => state.procs.answer(pid, Answer::Refused),
    }
}

// At most n bytes of the file from the offset on, where they lie.
fn bytes_of<'a, A: Allocator>(
    set: &'a Files<A>,
    name: &[u8],
    offset: u64,
    n: usize,
) -> Option<&'a [u8]>
    ensures value { option_copied result ≡ option_map (λ bytes. take n (drop offset bytes)) (files set.now name.now) }
    ensures within { IfSome result (λ bytes. length bytes.now ≤ n) }
{
    match set.get(name) {
        Some(bytes) => {
            let from = bytes.len().min(offset as usize);
            Some(first_bytes(&bytes[from..], n))
        }
        None => None,
    }
}
