//! Any call, and the trap that carries it out (xv6's `usertrap` and `syscall`).

ghost use Rattle.std.specs.Prelude.{◌≡◌, ◌<◌, ◌+◌, ◌^◌, IfSome, true, count_by};
ghost use Rattle.proc_table.specs.Slots.{at, is_running};
ghost use Rattle.kernel_model.specs.Sound.{IsSound, Keeps};
ghost use Rattle.kernel_model.specs.Events.{acted, counted};
ghost use Rattle.kernel_model.specs.Notes.{is_refused};

use crate::descriptors::{close, dup};
use crate::opening::open_file;
use crate::piping::make_pipe;
use crate::reading::read;
use crate::state::State;
use crate::writing::write;
use kernel_model::Memory;
use proc_table::Pid;
use std::alloc::Allocator;
use user_calls::{CallKind, CallSlot, Machine};

/// Carries out this call of the running process `pid`, as one more event (`usertrap` and `syscall`): its machine goes on
/// past its own call where it lies, unless the process sleeps or exits. Returns whether the allocator refused memory.
pub fn trap<M: Machine, A: Allocator + Copy>(
    state: &mut State<M, A>,
    pid: Pid,
    call: &CallSlot,
) -> Memory
    requires runs { is_running (at state.old.table pid) ≡ true }
    requires sound { IsSound state.old.table state.old.entries }
    requires fits { state.old.events + 1 < 2 ^ 64 }
    ensures after { IfSome (at state.old.table pid) (λ p. state.new ≡ acted (counted state.old) pid (M.next_of p.machine p.reply) call.now (is_refused result)) }
    ensures keeps { Keeps (count_by is_running state.old.table) state.new.table state.new.entries }
{
    state.events += 1;
    mem_files::laws::are_files(&state.files);
    act(state, pid, call)
}

// Carries out the call of a process. Returns whether memory was refused.
fn act<M: Machine, A: Allocator + Copy>(
    state: &mut State<M, A>,
    pid: Pid,
    call: &CallSlot,
) -> Memory
    requires runs { is_running (at state.old.table pid) ≡ true }
    requires sound { IsSound state.old.table state.old.entries }
    ensures { IfSome (at state.old.table pid) (λ p. state.new ≡ acted state.old pid (M.next_of p.machine p.reply) call.now (is_refused result)) }
{
    match call.kind() {
        CallKind::Fork => {
            state.fork(pid);
            Memory::Found
        }
        CallKind::Exec(found) => {
            state.exec(pid, found);
            Memory::Found
        }
        CallKind::Exit => {
            state.exit(pid);
            Memory::Found
        }
        CallKind::Wait => {
            state.wait(pid);
            Memory::Found
        }
        CallKind::MakePipe => make_pipe(state, pid),
        CallKind::Read(fd, n) => {
            read(state, pid, fd, n);
            Memory::Found
        }
        CallKind::Write(fd) => write(state, pid, fd, call.bytes()),
        CallKind::OpenFile(mode) => open_file(state, pid, call.bytes(), mode),
        CallKind::Close(fd) => {
            close(state, pid, fd);
            Memory::Found
        }
        CallKind::Dup(fd) => {
            dup(state, pid, fd);
            Memory::Found
        }
    }
}
