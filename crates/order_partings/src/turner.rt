//! A kernel that is led turn by turn, and what each of its processes carries out.

use command_text::{Doing, Followed};
use kernel_events::Kernel;
use kernel_model::Event;
use proc_table::{PROCS, Pid, State};
use run_trace::Tracer;
use script_load::Script;
use std::alloc::{AllocError, Global};
use user_calls::{CallKind, Machine, ReplyKind};

// A kernel that is led turn by turn.
#[derive(Drop)]
pub struct Turner<'t, M: Machine> {
    tracer: Tracer<M, Global>,
    followed: Followed<'t>,
}

impl<'t, M: Machine> Turner<'t, M> {
    // The kernel at its start, with the script that its first shell runs.
    pub(crate) fn new(kernel: Kernel<M, Global>, script: &'t Script<Global>) -> Self {
        Turner {
            tracer: Tracer::new(kernel),
            followed: Followed::new(script),
        }
    }

    // What the last event did.
    pub(crate) fn tracer(&self) -> &Tracer<M, Global> {
        &self.tracer
    }

    // What the process carries out by its next call.
    pub(crate) fn doing(&self, pid: Pid) -> Doing<'t> {
        self.followed.doing(pid)
    }

    // Gives the process to hart 0, if that can be done, and returns whether it was.
    pub(crate) fn dispatch(&mut self, pid: Pid) -> Result<bool, AllocError> {
        self.tracer.happen(Event::Dispatch(0, pid.index() as u32))
    }

    // Lets the process on hart 0 make its call, if it runs there, and returns whether it did.
    pub(crate) fn trap(&mut self, pid: Pid) -> Result<bool, AllocError> {
        let is_made = self.tracer.happen(Event::Trap(0, pid.index() as u32))?;
        if is_made {
            self.follow(pid);
        }
        Ok(is_made)
    }

    // Follows what the process did by its call, which was just made.
    fn follow(&mut self, pid: Pid) {
        let kind = self.tracer.call().kind();
        let child = self.child();
        let is_done = match kind {
            CallKind::Fork => child.is_some(),
            _ => self.is_done(pid),
        };
        self.followed.follow(pid, kind, is_done, child);
    }

    // The process that the last event made, if it made one.
    pub(crate) fn child(&self) -> Option<Pid> {
        for index in 0..PROCS {
            if let Some(pid) = Pid::new(index) {
                if self.tracer.is_made(pid) {
                    return Some(pid);
                }
            }
        }
        None
    }

    // The process that the last event took away, if it did.
    pub(crate) fn gone(&self) -> Option<Pid> {
        for index in 0..PROCS {
            if let Some(pid) = Pid::new(index) {
                if self.tracer.is_gone(pid) {
                    return Some(pid);
                }
            }
        }
        None
    }

    // Whether the process's last call put it to sleep.
    pub(crate) fn is_asleep(&self, pid: Pid) -> bool {
        matches!(self.tracer.kernel().state(pid), State::Asleep(_))
    }

    // Whether the process's last call is over, and was not refused.
    pub(crate) fn is_done(&self, pid: Pid) -> bool {
        if !matches!(self.tracer.kernel().state(pid), State::Runnable) {
            return false;
        }
        match self.tracer.kernel().reply(pid) {
            Some(reply) => !matches!(reply.kind(), ReplyKind::Refused),
            None => false,
        }
    }

    // How many bytes the process's last call read.
    pub(crate) fn read(&self, pid: Pid) -> usize {
        match self.tracer.kernel().reply(pid) {
            Some(reply) => reply.bytes().len(),
            None => 0,
        }
    }
}
