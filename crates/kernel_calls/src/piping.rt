//! pipe (xv6's `sys_pipe` and `pipealloc`).

ghost use Rattle.std.specs.Prelude.{◌≡◌, IfSome, true};
ghost use Rattle.proc_table.specs.Answers.{reply_of};
ghost use Rattle.proc_table.specs.Slots.{at, is_running};
ghost use Rattle.kernel_model.specs.Descriptors.{ends_reply, make_pipe};
ghost use Rattle.kernel_model.specs.Notes.{is_refused};

use crate::descriptors::{free_fd, free_fds, open_object};
use crate::state::State;
use fd_table::Object;
use kernel_model::{Full, Memory};
use proc_table::{Answer, Pid};
use std::alloc::Allocator;
use user_calls::Machine;

// A new pipe is named by the number of this event. Returns whether memory was refused.
pub(crate) fn make_pipe<M: Machine, A: Allocator + Copy>(
    state: &mut State<M, A>,
    pid: Pid,
) -> Memory
    requires runs { is_running (at state.old.table pid) ≡ true }
    ensures { IfSome (at state.old.table pid) (λ p. state.new ≡ make_pipe state.old pid (M.next_of p.machine p.reply) (is_refused result)) }
{
    if state.entries.free_count() < 2 {
        state.refuse(pid, Full::Open);
        return Memory::Found;
    }
    if free_fds(state, pid) < 2 {
        state.refuse(pid, Full::Fds);
        return Memory::Found;
    }
    let name = state.events;
    if state.pipes.add(name).is_err() {
        state.refuse(pid, Full::Memory);
        return Memory::Refused;
    }
    let reader = free_fd(state, pid);
    open_object(state, pid, Object::PipeRead(name));
    let writer = free_fd(state, pid);
    open_object(state, pid, Object::PipeWrite(name));
    state.answer(pid, ends_reply(reader, writer));
    Memory::Found
}

// The reply to a pipe call, by its two descriptors.
fn ends_reply(reader: Option<usize>, writer: Option<usize>) -> Answer
    ensures { reply_of result ≡ ends_reply reader writer }
{
    match (reader, writer) {
        (Some(reader), Some(writer)) => Answer::Ends(reader, writer),
        _ => Answer::Refused,
    }
}
