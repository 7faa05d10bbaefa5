//! Pipes in a line: how full they are, and who holds their ends.

use crate::line::Line;
use fd_table::DESCRIPTORS;
use proc_table::{PROCS, Pid};
use run_trace::{End, Kernel, pipe_end};
use std::alloc::{AllocError, Global};
use user_calls::Machine;

// How many bytes a pipe holds, and which processes hold a descriptor of each end, a bit each.
#[derive(Clone, Copy, PartialEq, Eq)]
struct Fill {
    held: usize,
    readers: u64,
    writers: u64,
}

// A pipe, by the event that made it, after the last event and before it.
#[derive(Clone, Copy)]
struct Known {
    name: u64,
    now: Fill,
    was: Fill,
}

// The pipes of which an end is held, in the order in which they were made.
#[derive(Drop)]
pub struct Pipes {
    known: Vec<Known>,
}

impl Pipes {
    pub(crate) fn new(alloc: Global) -> Self {
        Pipes {
            known: Vec::new(alloc),
        }
    }

    // A pipe was made by this event.
    pub(crate) fn make(&mut self, name: u64) -> Result<(), AllocError> {
        let none = Fill {
            held: 0,
            readers: 0,
            writers: 0,
        };
        self.known.push(Known {
            name,
            now: none,
            was: none,
        })?;
        Ok(())
    }

    // How many bytes the pipe held after the last event.
    pub(crate) fn held(&self, name: u64) -> usize {
        for pipe in &self.known {
            if pipe.name == name {
                return pipe.now.held;
            }
        }
        0
    }

    // Bytes were put into the pipe, or taken: it holds so many now.
    pub(crate) fn fill(&mut self, name: u64, held: usize) {
        for pipe in self.known.iter_mut() {
            if pipe.name == name {
                pipe.now.held = held;
            }
        }
    }

    // Finds out anew who holds the ends.
    pub(crate) fn count_holders<M: Machine>(&mut self, kernel: &Kernel<M, Global>) {
        for pipe in self.known.iter_mut() {
            pipe.now.readers = 0;
            pipe.now.writers = 0;
        }
        for index in 0..PROCS {
            if let Some(pid) = Pid::new(index) {
                self.count_process(kernel, pid);
            }
        }
        self.empty_freed();
    }

    // A pipe of which no end is held is gone, with its bytes.
    fn empty_freed(&mut self) {
        for pipe in self.known.iter_mut() {
            if pipe.now.readers == 0 && pipe.now.writers == 0 {
                pipe.now.held = 0;
            }
        }
    }

    fn count_process<M: Machine>(&mut self, kernel: &Kernel<M, Global>, pid: Pid) {
        if kernel.parent(pid).is_none() {
            return;
        }
        for fd in 0..DESCRIPTORS {
            if let Some((name, end)) = pipe_end(kernel, pid, fd) {
                self.hold(name, end, pid);
            }
        }
    }

    // The process holds this end of the pipe.
    fn hold(&mut self, name: u64, end: End, pid: Pid) {
        let bit = 1u64 << pid.index();
        for pipe in self.known.iter_mut() {
            if pipe.name == name {
                match end {
                    End::Read => pipe.now.readers |= bit,
                    End::Write => pipe.now.writers |= bit,
                }
            }
        }
    }

    // Writes the pipes that have changed since the last event, and then forgets the change, and those that are gone.
    pub(crate) fn write_changed(&mut self, line: &mut Line) -> Result<(), AllocError> {
        if self.known.iter().any(|pipe| pipe.now != pipe.was) {
            line.begin_list("pipes")?;
            for pipe in &self.known {
                if pipe.now != pipe.was {
                    write_pipe(line, pipe)?;
                }
            }
            line.end_list()?;
            self.settle();
        }
        Ok(())
    }

    fn settle(&mut self) {
        for pipe in self.known.iter_mut() {
            pipe.was = pipe.now;
        }
        self.known
            .retain(|pipe| pipe.now.readers != 0 || pipe.now.writers != 0);
    }
}

fn write_pipe(line: &mut Line, pipe: &Known) -> Result<(), AllocError> {
    line.begin_raw_object()?;
    line.count("pipe", pipe.name)?;
    line.count("held", pipe.now.held as u64)?;
    write_holders(line, "readers", pipe.now.readers)?;
    write_holders(line, "writers", pipe.now.writers)?;
    let is_read_closed = pipe.now.readers == 0 && pipe.was.readers != 0;
    let is_write_closed = pipe.now.writers == 0 && pipe.was.writers != 0;
    if is_read_closed || is_write_closed {
        line.begin_list("closed")?;
        if is_read_closed {
            line.raw_word("read")?;
        }
        if is_write_closed {
            line.raw_word("write")?;
        }
        line.end_list()?;
    }
    line.end_object()
}

fn write_holders(line: &mut Line, key: &str, holders: u64) -> Result<(), AllocError> {
    line.begin_list(key)?;
    for pid in 0..64u32 {
        if holders >> pid & 1 == 1 {
            line.raw_count(u64::from(pid))?;
        }
    }
    line.end_list()
}
