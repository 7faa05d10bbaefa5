//! A kernel that is followed turn by turn, with what its pipes hold.

use crate::fault::PageFault;
use fd_table::Object;
use kernel_events::Kernel;
use proc_table::{PROCS, Pid, State};
use std::alloc::{AllocError, Global};
use step_answers::{Narrator, Scene};
use user_calls::{CallKind, CallSlot, Machine};

// How many bytes a pipe holds at most.
const PIPE_SIZE: usize = 512;

// A pipe, by the number of the event that made it, and its bytes.
#[derive(Drop)]
pub struct Held {
    pub name: u64,
    pub bytes: Vec<u8>,
}

// A kernel that is followed.
#[derive(Drop)]
pub struct Follow<'t, M: Machine> {
    alloc: Global,
    pub narrator: Narrator<'t, M>,
    // The pipes that were made, in order.
    pub pipes: Vec<Held>,
    // Of each process, how many bytes of its write were put so far, where it sleeps in the middle of it.
    put: Vec<usize>,
}

// How many bytes the pipe of that name holds.
pub fn held_in<M: Machine>(kernel: &Kernel<M, Global>, name: u64) -> usize {
    match kernel.pipe(name) {
        Some(status) => status.held,
        None => 0,
    }
}

// The bytes without the first ones, of which there may be fewer.
fn without_first(alloc: Global, bytes: &[u8], count: usize) -> Result<Vec<u8>, AllocError> {
    match bytes.get(count..) {
        Some(rest) => Vec::from_slice(alloc, rest),
        None => Ok(Vec::new(alloc)),
    }
}

// Nothing is put of any process's write.
fn none_put(alloc: Global) -> Result<Vec<usize>, AllocError> {
    let mut put = Vec::new(alloc);
    for _ in 0..PROCS {
        put.push(0)?;
    }
    Ok(put)
}

impl<'t, M: Machine> Follow<'t, M> {
    // At the start.
    pub fn start(alloc: Global, scene: &Scene<'t, M>) -> Result<Self, AllocError> {
        let put = none_put(alloc)?;
        let narrator = Narrator::new(alloc, scene)?;
        Ok(Follow {
            alloc,
            narrator,
            pipes: Vec::new(alloc),
            put,
        })
    }

    pub fn kernel(&self) -> &Kernel<M, Global> {
        self.narrator.kernel()
    }

    // The process is given to hart 0.
    pub fn dispatch(&mut self, pid: Pid) -> Result<(), PageFault> {
        match self.narrator.dispatch(pid, Vec::new(self.alloc))? {
            Some(_) => Ok(()),
            None => Err(PageFault::Memory),
        }
    }

    // The call that the process on hart 0 makes next.
    pub fn call_of(&self, pid: Pid) -> CallSlot {
        let mut call = CallSlot::new();
        self.kernel().ask(0, pid.index(), &mut call);
        call
    }

    // Whether there is a file of that name.
    pub fn has_file(&self, name: &[u8]) -> bool {
        self.kernel().files().get(name).is_some()
    }

    // The process on hart 0 makes its call, which is this one.
    pub fn trap(&mut self, pid: Pid, call: &CallSlot) -> Result<(), PageFault> {
        let pipe = self.pipe_of(pid, call);
        let before = match pipe {
            Some(name) => held_in(self.kernel(), name),
            None => 0,
        };
        self.make_call(pid)?;
        self.note(pid, call, pipe, before)?;
        Ok(())
    }

    fn make_call(&mut self, pid: Pid) -> Result<(), PageFault> {
        match self.narrator.trap(pid, Vec::new(self.alloc))? {
            Some(_) => Ok(()),
            None => Err(PageFault::Memory),
        }
    }

    // Keeps what the call did to pipes: it may be of this one, which held so many bytes before.
    fn note(
        &mut self,
        pid: Pid,
        call: &CallSlot,
        pipe: Option<u64>,
        before: usize,
    ) -> Result<(), AllocError> {
        match (call.kind(), pipe) {
            (CallKind::MakePipe, _) => self.note_made(pid),
            (CallKind::Write(_), Some(name)) => self.note_put(pid, call.bytes(), name, before),
            (CallKind::Read(_, _), Some(name)) => self.note_taken(pid, name),
            _ => Ok(()),
        }
    }

    // The process takes a turn.
    pub fn turn(&mut self, pid: Pid) -> Result<(), PageFault> {
        self.dispatch(pid)?;
        let call = self.call_of(pid);
        self.trap(pid, &call)
    }

    // The pipe that a read or a write is of.
    fn pipe_of(&self, pid: Pid, call: &CallSlot) -> Option<u64> {
        let (CallKind::Read(fd, _) | CallKind::Write(fd)) = call.kind() else {
            return None;
        };
        match self.kernel().object(pid, fd) {
            Some(Object::PipeRead(name) | Object::PipeWrite(name)) => Some(*name),
            _ => None,
        }
    }

    fn note_made(&mut self, pid: Pid) -> Result<(), AllocError> {
        if self.narrator.is_done(pid) {
            let name = self.kernel().schedule().len() as u64;
            self.pipes.push(Held {
                name,
                bytes: Vec::new(self.alloc),
            })?;
        }
        Ok(())
    }

    fn note_put(
        &mut self,
        pid: Pid,
        bytes: &[u8],
        name: u64,
        before: usize,
    ) -> Result<(), AllocError> {
        let begin = self.put.get(pid.index()).copied().unwrap_or(0);
        let more = held_in(self.kernel(), name).saturating_sub(before);
        let end = begin.saturating_add(more);
        if let (Some(part), Some(pipe)) = (bytes.get(begin..end), find(&mut self.pipes, name)) {
            pipe.bytes.extend_from_slice(part)?;
        }
        let is_asleep = self.narrator.is_asleep(pid);
        if let Some(put) = self.put.get_mut(pid.index()) {
            *put = if is_asleep { end } else { 0 };
        }
        Ok(())
    }

    // How many bytes the process's call took.
    fn taken_by(&self, pid: Pid) -> usize {
        if !self.narrator.is_done(pid) {
            return 0;
        }
        match self.kernel().reply(pid) {
            Some(reply) => reply.bytes().len(),
            None => 0,
        }
    }

    fn note_taken(&mut self, pid: Pid, name: u64) -> Result<(), AllocError> {
        let taken = self.taken_by(pid);
        let alloc = self.alloc;
        if let Some(pipe) = find(&mut self.pipes, name) {
            let rest = without_first(alloc, pipe.bytes.as_slice(), taken)?;
            pipe.bytes = rest;
        }
        Ok(())
    }

    fn is_child(&self, child: Pid, pid: Pid) -> bool {
        child != pid && self.kernel().parent(child) == Some(pid)
    }

    fn is_zombie(&self, pid: Pid) -> bool {
        matches!(self.kernel().state(pid), State::Zombie)
    }

    // Whether the process has a child, and none of its children is a zombie.
    fn waits(&self, pid: Pid) -> bool {
        let mut has_child = false;
        for index in 0..PROCS {
            if let Some(child) = Pid::new(index) {
                if self.is_child(child, pid) {
                    if self.is_zombie(child) {
                        return false;
                    }
                    has_child = true;
                }
            }
        }
        has_child
    }

    // Whether the call of the process would do nothing but put it to sleep.
    fn would_sleep_by(&self, pid: Pid, call: &CallSlot) -> bool {
        let status = match self.pipe_of(pid, call) {
            Some(name) => self.kernel().pipe(name),
            None => None,
        };
        match (call.kind(), status) {
            (CallKind::Wait, _) => self.waits(pid),
            (CallKind::Read(_, size), Some(pipe)) => {
                size > 0 && pipe.held == 0 && pipe.writer_open
            }
            (CallKind::Write(_), Some(pipe)) => {
                !call.bytes().is_empty() && pipe.held >= PIPE_SIZE && pipe.reader_open
            }
            _ => false,
        }
    }

    // Whether the process is Runnable, and its next turn would do nothing but put it to sleep.
    pub fn would_sleep(&self, pid: Pid) -> bool {
        if !matches!(self.kernel().state(pid), State::Runnable) {
            return false;
        }
        let mut call = CallSlot::new();
        self.narrator.next_call(pid, &mut call) && self.would_sleep_by(pid, &call)
    }
}

// The pipe of that name.
fn find(pipes: &mut Vec<Held>, name: u64) -> Option<&mut Held> {
    let place = pipes.iter().position(|pipe| pipe.name == name)?;
    pipes.get_mut(place)
}
