//! close and dup, and the descriptors of a process (xv6's `kernel/sysfile.c` and `file.c`).

ghost use Rattle.std.specs.Prelude.{◌≡◌, IfSome, true};
ghost use Rattle.fd_table.specs.Descriptors.{dup_answer, entry_of, lowest_free};
ghost use Rattle.fd_table.specs.Entries.{free_count};
ghost use Rattle.proc_table.specs.Slots.{at, is_running};
ghost use Rattle.kernel_model.specs.KernelState.{fds_at};
ghost use Rattle.kernel_model.specs.Sound.{IsSound};
ghost use Rattle.kernel_model.specs.Descriptors.{close, copied, dup, with_open};

use crate::state::State;
use fd_table::{Entry, FdFault, Object};
use kernel_model::Full;
use proc_table::{Answer, Pid};
use std::alloc::Allocator;
use user_calls::Machine;

// `sys_close`.
pub(crate) fn close<M: Machine, A: Allocator>(state: &mut State<M, A>, pid: Pid, fd: usize)
    requires runs { is_running (at state.old.table pid) ≡ true }
    requires sound { IsSound state.old.table state.old.entries }
    ensures { IfSome (at state.old.table pid) (λ p. state.new ≡ close state.old pid (M.next_of p.machine p.reply) fd) }
{
    let answer = if state.close_one(pid, fd) {
        Answer::Done
    } else {
        Answer::Refused
    };
    state.answer(pid, answer);
}

// `sys_dup`.
pub(crate) fn dup<M: Machine, A: Allocator>(state: &mut State<M, A>, pid: Pid, fd: usize)
    requires runs { is_running (at state.old.table pid) ≡ true }
    requires sound { IsSound state.old.table state.old.entries }
    ensures { IfSome (at state.old.table pid) (λ p. state.new ≡ dup state.old pid (M.next_of p.machine p.reply) fd) }
{
    match dup_fd(state, pid, fd) {
        Ok(fd) => state.answer(pid, Answer::Fd(fd)),
        Err(FdFault::BadFd) => state.answer(pid, Answer::Refused),
        Err(FdFault::FullFds) => state.refuse(pid, Full::Fds),
        Err(FdFault::FullOpen) => state.refuse(pid, Full::Open),
    }
}

// The lowest free descriptor of the process shares the entry of fd, if that is open.
pub(crate) fn dup_fd<M: Machine, A: Allocator>(
    state: &mut State<M, A>,
    pid: Pid,
    fd: usize,
) -> Result<usize, FdFault>
    requires runs { is_running (at state.old.table pid) ≡ true }
    requires sound { IsSound state.old.table state.old.entries }
    ensures answer { result ≡ dup_answer (entry_of (fds_at state.old pid) fd) (lowest_free (fds_at state.old pid)) }
    ensures after { state.new ≡ copied state.old pid (entry_of (fds_at state.old pid) fd) (lowest_free (fds_at state.old pid)) }
    ensures runs { is_running (at state.new.table pid) ≡ true }
{
    state.procs.fds_mut(pid).dup(&mut state.entries, fd)
}

// Opens the object at the lowest free entry, if there is one, and the lowest free descriptor of the process.
pub(crate) fn open_object<M: Machine, A: Allocator>(
    state: &mut State<M, A>,
    pid: Pid,
    object: Object,
)
    requires { is_running (at state.old.table pid) ≡ true }
    ensures after { state.new ≡ with_open state.old pid object }
    ensures runs { is_running (at state.new.table pid) ≡ true }
{
    if let Ok(entry) = state.entries.add(object) {
        let _ = state.procs.fds_mut(pid).install(entry);
    }
}

// How many descriptors of the process are free.
pub(crate) fn free_fds<M: Machine, A: Allocator>(state: &State<M, A>, pid: Pid) -> usize
    requires { is_running (at state.now.table pid) ≡ true }
    ensures { result ≡ free_count (fds_at state.now pid) }
{
    state.procs.fds(pid).free_count()
}

// The lowest free descriptor of the process.
pub(crate) fn free_fd<M: Machine, A: Allocator>(state: &State<M, A>, pid: Pid) -> Option<usize>
    requires { is_running (at state.now.table pid) ≡ true }
    ensures { result ≡ lowest_free (fds_at state.now pid) }
{
    state.procs.fds(pid).lowest_free()
}

// The entry that the descriptor of the process holds, if it is open.
pub(crate) fn entry<M: Machine, A: Allocator>(
    state: &State<M, A>,
    pid: Pid,
    fd: usize,
) -> Option<Entry>
    requires { is_running (at state.now.table pid) ≡ true }
    ensures { result ≡ entry_of (fds_at state.now pid) fd }
{
    state.procs.fds(pid).get(fd).ok()
}
