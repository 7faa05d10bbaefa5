//! A second kernel, in which each event of a session is made again and printed.

use crate::scene::Scene;
use command_text::{Doing, Followed};
use kernel_events::{Event, Kernel};
use proc_table::{PROCS, Pid, State};
use run_trace::Tracer;
use script_load::Script;
use std::alloc::{AllocError, Global};
use trace_lines::TraceLines;
use user_calls::{CallKind, CallSlot, Machine, ReplyKind};

/// Follows a session event by event: a kernel in which each event is made again and printed.
#[derive(Drop)]
pub struct Narrator<'t, M: Machine> {
    script: &'t Script<Global>,
    tracer: Tracer<M, Global>,
    lines: TraceLines<'t>,
    followed: Followed<'t>,
    // The machine of each slot's process.
    machines: Vec<Option<M>>,
    // The pipes that were made, each named by its event, in order.
    pipes: Vec<u64>,
}

// The lowest slot that passes the test.
fn found<F: Fn(Pid) -> bool>(test: F) -> Option<Pid>
    requires { F.IsAlwaysCallable test }
{
    for index in 0..PROCS {
        if let Some(pid) = Pid::new(index) {
            if test(pid) {
                return Some(pid);
            }
        }
    }
    None
}

// The machines of both first processes, and room for the others'.
fn first_machines<M: Machine>(
    alloc: Global,
    scene: &Scene<'_, M>,
) -> Result<Vec<Option<M>>, AllocError> {
    let mut machines = Vec::new(alloc);
    machines.push(Some(scene.init.twin()))?;
    machines.push(Some(scene.shell.twin()))?;
    for _ in 2..PROCS {
        machines.push(None)?;
    }
    Ok(machines)
}

impl<'t, M: Machine> Narrator<'t, M> {
    /// A narrator of a kernel at its start.
    pub fn new(alloc: Global, scene: &Scene<'t, M>) -> Result<Self, AllocError> {
        Ok(Narrator {
            script: scene.script,
            tracer: scene.tracer(alloc)?,
            lines: TraceLines::new(alloc, scene.script),
            followed: Followed::new(scene.script),
            machines: first_machines(alloc, scene)?,
            pipes: Vec::new(alloc),
        })
    }

    pub(crate) fn script(&self) -> &'t Script<Global> {
        self.script
    }

    /// What the last event did.
    pub fn tracer(&self) -> &Tracer<M, Global> {
        &self.tracer
    }

    /// The kernel after the last event.
    pub fn kernel(&self) -> &Kernel<M, Global> {
        self.tracer.kernel()
    }

    /// What the process carries out by its next call.
    pub fn doing(&self, pid: Pid) -> Doing<'t> {
        self.followed.doing(pid)
    }

    // The machine of the slot's process, if there is one.
    fn machine(&self, pid: Pid) -> Option<&M> {
        match self.machines.get(pid.index()) {
            Some(Some(machine)) => Some(machine),
            _ => None,
        }
    }

    /// Writes the call that the slot's process makes next, and returns whether there is one.
    pub fn next_call(&self, pid: Pid, call: &mut CallSlot) -> bool {
        match (self.machine(pid), self.kernel().reply(pid)) {
            (Some(machine), Some(reply)) => {
                machine.ask(reply, call);
                true
            }
            _ => false,
        }
    }

    // The machine of the process after its next call.
    fn machine_after(&self, pid: Pid) -> Option<M> {
        let mut after = self.machine(pid)?.twin();
        after.advance(self.kernel().reply(pid)?);
        Some(after)
    }

    /// The process is given to hart 0. The record of that is added to the lines; `None` where it can't be.
    pub fn dispatch(&mut self, pid: Pid, lines: Vec<u8>) -> Result<Option<Vec<u8>>, AllocError> {
        let event = Event::Dispatch(0, pid.index() as u32);
        self.lines.happen(&mut self.tracer, event, lines)
    }

    /// The process on hart 0 makes its call. The record of that is added to the lines; `None` where it doesn't run there.
    pub fn trap(&mut self, pid: Pid, lines: Vec<u8>) -> Result<Option<Vec<u8>>, AllocError> {
        let Some(lines) = self.make_call(pid, lines)? else {
            return Ok(None);
        };
        self.note_pipe(pid)?;
        Ok(Some(lines))
    }

    // The same, but for the names of pipes.
    fn make_call(&mut self, pid: Pid, lines: Vec<u8>) -> Result<Option<Vec<u8>>, AllocError> {
        let after = self.machine_after(pid);
        let event = Event::Trap(0, pid.index() as u32);
        let Some(lines) = self.lines.happen(&mut self.tracer, event, lines)? else {
            return Ok(None);
        };
        let kind = self.tracer.call().kind();
        let child = self.child();
        let is_done = match kind {
            CallKind::Fork => child.is_some(),
            _ => self.is_done(pid),
        };
        self.followed.follow(pid, kind, is_done, child);
        self.keep(pid, child, after);
        Ok(Some(lines))
    }

    // Whether the process made a pipe by the last call.
    fn has_made_pipe(&self, pid: Pid) -> bool {
        matches!(self.tracer.call().kind(), CallKind::MakePipe) && self.is_done(pid)
    }

    // Keeps the name of the pipe that the process made by the last call, if it made one: the number of its event.
    fn note_pipe(&mut self, pid: Pid) -> Result<(), AllocError> {
        if self.has_made_pipe(pid) {
            let name = self.kernel().schedule().len() as u64;
            self.pipes.push(name)?;
        }
        Ok(())
    }

    // How many pipes were made before the one of this name; `None` where none has it.
    pub(crate) fn place_of_pipe(&self, name: u64) -> Option<usize> {
        self.pipes.iter().position(|made| *made == name)
    }

    // Keeps the machine after a call, unless the process sleeps and makes the call again; a child has the same.
    fn keep(&mut self, pid: Pid, child: Option<Pid>, after: Option<M>) {
        if self.is_asleep(pid) {
            return;
        }
        if let (Some(child), Some(machine)) = (child, &after) {
            put(&mut self.machines, child, Some(machine.twin()));
        }
        put(&mut self.machines, pid, after);
    }

    /// The process that the last event made, if it made one.
    pub fn child(&self) -> Option<Pid> {
        let tracer = &self.tracer;
        found(|pid| tracer.is_made(pid))
    }

    /// The process that the last event took away, if it did.
    pub fn gone(&self) -> Option<Pid> {
        let tracer = &self.tracer;
        found(|pid| tracer.is_gone(pid))
    }

    /// Whether the process's last call put it to sleep.
    pub fn is_asleep(&self, pid: Pid) -> bool {
        matches!(self.kernel().state(pid), State::Asleep(_))
    }

    /// Whether the process's last call is over, and was not refused.
    pub fn is_done(&self, pid: Pid) -> bool {
        if !matches!(self.kernel().state(pid), State::Runnable) {
            return false;
        }
        match self.kernel().reply(pid) {
            Some(reply) => !matches!(reply.kind(), ReplyKind::Refused),
            None => false,
        }
    }
}

// The machine is that of the slot from now on.
fn put<M: Machine>(machines: &mut Vec<Option<M>>, pid: Pid, machine: Option<M>) {
    if let Some(place) = machines.get_mut(pid.index()) {
        *place = machine;
    }
}
