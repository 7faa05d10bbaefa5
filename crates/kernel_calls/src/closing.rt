//! Closing descriptors, and what no descriptor holds any more (xv6's `fileclose` and `pipeclose`).

ghost use Rattle.std.specs.Prelude.{◌≡◌, is_ok, true};
ghost use Rattle.fd_table.specs.Descriptors.{close_answer, entry_of};
ghost use Rattle.proc_table.specs.Slots.{at, is_running};
ghost use Rattle.kernel_model.specs.KernelState.{fds_at};
ghost use Rattle.kernel_model.specs.Sound.{IsSound};
ghost use Rattle.kernel_model.specs.Descriptors.{closed, let_go, taken_away};

use crate::State;
use fd_table::{FdFault, Object};
use proc_table::{Channel, Pid};
use std::alloc::Allocator;
use user_calls::Machine;

impl<M: Machine, A: Allocator> State<M, A> {
    /// Closes the descriptor of the process, and returns whether it was open. What no descriptor holds any more is let go: a
    /// pipe's end is closed, and the sleepers of the other are woken (`sys_close`, `fileclose` and `pipeclose`).
    pub fn close_one(&mut self, pid: Pid, fd: usize) -> bool
        requires runs { is_running (at self.old.table pid) ≡ true }
        requires sound { IsSound self.old.table self.old.entries }
        ensures answer { result ≡ is_ok (close_answer self.old.entries (entry_of (fds_at self.old pid) fd)) }
        ensures after { self.new ≡ closed self.old pid fd }
    {
        match self.close_fd(pid, fd) {
            Ok(None) => true,
            Ok(Some(object)) => {
                self.let_go(object);
                true
            }
            Err(_) => false,
        }
    }

    // The object has no holder any more.
    fn let_go(&mut self, object: Object)
        ensures { self.new ≡ let_go self.old object }
    {
        match object {
            Object::PipeRead(name) => {
                self.pipes.close_read(name);
                self.procs.wakeup(Channel::PipeRoom(name));
            }
            Object::PipeWrite(name) => {
                self.pipes.close_write(name);
                self.procs.wakeup(Channel::PipeBytes(name));
            }
            Object::Input => {}
            Object::Out => {}
            Object::Diag => {}
            Object::File(_, _) => {}
        }
    }

    // Closes the descriptor of the process, if it is open.
    fn close_fd(&mut self, pid: Pid, fd: usize) -> Result<Option<Object>, FdFault>
        requires runs { is_running (at self.old.table pid) ≡ true }
        requires sound { IsSound self.old.table self.old.entries }
        ensures answer { result ≡ close_answer self.old.entries (entry_of (fds_at self.old pid) fd) }
        ensures after { self.new ≡ taken_away self.old pid fd (entry_of (fds_at self.old pid) fd) }
    {
        self.procs.fds_mut(pid).close(&mut self.entries, fd)
    }
}
