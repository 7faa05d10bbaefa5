//! What a kernel shows of its processes and pipes, for simulators and tests.

ghost use Rattle.std.specs.Prelude.{◌≡◌, IfSome, None, option_map};
ghost use Rattle.std.specs.Bool.{OnTrue};
ghost use Rattle.fd_table.specs.Descriptors.{entry_of};
ghost use Rattle.fd_table.specs.Entries.{IsInUse};
ghost use Rattle.kernel_model.specs.KernelState.{fds_at, file_at};
ghost use Rattle.kernel_model.specs.Pipes.{pipe_of};
ghost use Rattle.kernel_model.specs.Sound.{IsSound};
ghost use Rattle.kernel_calls.specs.Status.{status_of};
ghost use Rattle.proc_table.specs.Slots.{at, is_running_on, parent_or_init, state_of};

use crate::kernel::Kernel;
use fd_table::{Entry, Object};
use kernel_calls::{PipeStatus, State};
use mem_files::Files;
use proc_table::{Pid, State as SlotState};
use std::alloc::Allocator;
use user_calls::{CallSlot, Machine, ReplySlot};

impl<M: Machine, A: Allocator> Kernel<M, A> {
    /// The state of a slot (`enum procstate`).
    pub fn state(&self, pid: Pid) -> SlotState
        ensures { result ≡ state_of (at self.now.now.table pid) }
    {
        self.state.procs.state(pid)
    }

    /// The parent of the slot's process, init's being itself; `None` where the slot is free.
    pub fn parent(&self, pid: Pid) -> Option<Pid>
        ensures { result ≡ option_map (λ process. parent_or_init process.parent) (at self.now.now.table pid) }
    {
        if !self.state.procs.is_used(pid) {
            return None;
        }
        Some(self.state.procs.parent(pid))
    }

    /// How full the pipe of that name is, and which of its ends are open; `None` where there is no such pipe. A pipe has
    /// the number of the event that made it as its name, counted from 1.
    pub fn pipe(&self, name: u64) -> Option<PipeStatus>
        ensures { result ≡ option_map status_of (pipe_of self.now.now.pipes name) }
    {
        self.state.pipes.status(name)
    }

    /// What was written to the standard output so far.
    pub fn out(&self) -> &[u8]
        ensures { result.now ≡ self.now.now.out }
    {
        self.state.out.as_slice()
    }

    /// What was written as diagnostics so far.
    pub fn diag(&self) -> &[u8]
        ensures { result.now ≡ self.now.now.diag }
    {
        self.state.diag.as_slice()
    }

    /// The files.
    pub fn files(&self) -> &Files<A>
        ensures { result.now ≡ self.now.now.files }
    {
        &self.state.files
    }

    /// Writes the call that the process in slot `pid` makes, if it runs on the hart, and returns whether it does. Else the
    /// call stays.
    pub fn ask(&self, hart: u8, pid: usize, call: &mut CallSlot) -> bool
        ensures runs { result ≡ is_running_on hart (at self.now.now.table pid) }
        ensures call { OnTrue result (IfSome (at self.now.now.table pid) (λ process. call.new ≡ M.call_of process.machine process.reply)) }
    {
        match self.state.found_on(hart, pid) {
            Some(slot) => {
                self.state.ask(slot, call);
                true
            }
            None => false,
        }
    }

    /// The reply that the slot's process takes when it runs next; `None` where the slot is free.
    pub fn reply(&self, pid: Pid) -> Option<&ReplySlot>
        ensures { option_map (λ reply. reply.now) result ≡ option_map (λ process. process.reply) (at self.now.now.table pid) }
    {
        if !self.state.procs.is_used(pid) {
            return None;
        }
        Some(self.state.procs.reply(pid))
    }

    /// What the descriptor of the slot's process has open; `None` where it isn't open, and for any number past 15.
    pub fn object(&self, pid: Pid, fd: usize) -> Option<&Object>
        ensures { option_map (λ object. object.now) result ≡ option_map (λ file. file.object) (file_at self.now.now.entries (entry_of (fds_at self.now.now pid) fd)) }
    {
        match entry(&self.state, pid, fd) {
            Some(entry) => Some(self.state.entries.object(entry)),
            None => None,
        }
    }

    /// At which byte what the descriptor has open goes on, counted from 0; `None` where it isn't open.
    pub fn offset(&self, pid: Pid, fd: usize) -> Option<u64>
        ensures { result ≡ option_map (λ file. file.offset) (file_at self.now.now.entries (entry_of (fds_at self.now.now pid) fd)) }
    {
        match entry(&self.state, pid, fd) {
            Some(entry) => Some(self.state.entries.offset(entry)),
            None => None,
        }
    }
}

// The entry that the descriptor of the slot's process holds, if it is open.
fn entry<M: Machine, A: Allocator>(state: &State<M, A>, pid: Pid, fd: usize) -> Option<Entry>
    requires { IsSound state.now.table state.now.entries }
    ensures held { result ≡ entry_of (fds_at state.now pid) fd }
    ensures in_use { IfSome result (IsInUse state.now.entries) }
{
    if !state.procs.is_used(pid) {
        return None;
    }
    state.procs.fds(pid).get(fd).ok()
}
