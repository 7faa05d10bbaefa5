//! fork, exec, exit and wait (xv6's `kernel/proc.c`).

ghost use Rattle.std.specs.Prelude.{◌≡◌, IfSome, true};
ghost use Rattle.fd_table.specs.declared.descriptors.TheConstants.{DESCRIPTORS};
ghost use Rattle.proc_table.specs.Slots.{at, is_running};
ghost use Rattle.kernel_model.specs.Sound.{IsSound};
ghost use Rattle.kernel_model.specs.Descriptors.{closed_below};
ghost use Rattle.kernel_model.specs.Processes.{exec, exit, fork, wait};

use crate::State;
use fd_table::DESCRIPTORS;
use kernel_model::Full;
use proc_table::{Answer, Channel, Pid, Waited};
use std::alloc::Allocator;
use user_calls::Machine;

impl<M: Machine, A: Allocator> State<M, A> {
    /// Carries out a fork: the child has a copy of the machine after the call, and shares the open-file entries (`kfork`).
    /// The replies are `Child` and `Done`, or `Refused` where no slot is free.
    pub fn fork(&mut self, pid: Pid)
        requires runs { is_running (at self.old.table pid) ≡ true }
        requires sound { IsSound self.old.table self.old.entries }
        ensures { IfSome (at self.old.table pid) (λ p. self.new ≡ fork self.old pid (M.next_of p.machine p.reply)) }
    {
        if self.procs.lowest_free().is_none() {
            self.refuse(pid, Full::Procs);
            return;
        }
        let fds = self.procs.fds(pid).fork_copy(&mut self.entries);
        match self.procs.fork(pid, fds) {
            Ok(_) => {}
            Err(_) => unreachable!(),
        }
    }

    /// Carries out an exec: the reply is `Done` where the program was found, else `Refused` (`kexec`).
    pub fn exec(&mut self, pid: Pid, found: bool)
        requires { is_running (at self.old.table pid) ≡ true }
        ensures { IfSome (at self.old.table pid) (λ p. self.new ≡ exec self.old pid (M.next_of p.machine p.reply) found) }
    {
        let answer = if found { Answer::Done } else { Answer::Refused };
        self.answer(pid, answer);
    }

    /// Carries out an exit: the process closes its descriptors, the lowest first, and becomes a zombie (`kexit`). The reply
    /// to init is `Refused` (own: xv6 panics).
    pub fn exit(&mut self, pid: Pid)
        requires runs { is_running (at self.old.table pid) ≡ true }
        requires sound { IsSound self.old.table self.old.entries }
        ensures { IfSome (at self.old.table pid) (λ p. self.new ≡ exit self.old pid (M.next_of p.machine p.reply)) }
    {
        if pid == Pid::init() {
            self.answer(pid, Answer::Refused);
            return;
        }
        self.close_all(pid);
        self.procs.exit(pid);
    }

    // Closes all descriptors of the process, the lowest first.
    fn close_all(&mut self, pid: Pid)
        requires runs { is_running (at self.old.table pid) ≡ true }
        requires sound { IsSound self.old.table self.old.entries }
        ensures { self.new ≡ closed_below self.old pid DESCRIPTORS }
    {
        for fd in 0..DESCRIPTORS {
            self.close_one(pid, fd);
        }
    }

    /// Carries out a wait: reaps the lowest child that is a zombie, with the reply `Done`; where no child is, the process
    /// sleeps, and where it has no children the reply is `Refused` (`kwait`).
    pub fn wait(&mut self, pid: Pid)
        requires { is_running (at self.old.table pid) ≡ true }
        ensures { IfSome (at self.old.table pid) (λ p. self.new ≡ wait self.old pid (M.next_of p.machine p.reply)) }
    {
        match self.procs.wait(pid) {
            Waited::Reaped(_) => self.procs.answer(pid, Answer::Done),
            Waited::NoChildren => self.procs.answer(pid, Answer::Refused),
            Waited::MustSleep => self.procs.sleep(pid, Channel::Children(pid), 0),
        }
    }
}
