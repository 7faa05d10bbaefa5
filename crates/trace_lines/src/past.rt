//! What a trace remembers of events before.

use proc_table::{PROCS, Pid};

// What a trace remembers of each process. Events are counted from 1.
#[derive(Drop)]
pub struct Past {
    // The fork that made the process; 0 for init and the first shell.
    born: [u64; PROCS],
    // The last dispatch.
    from: [u64; PROCS],
    // Whether its last call put it to sleep, and is made once more.
    slept: [bool; PROCS],
    // The parent after the last event.
    parent: [usize; PROCS],
}

impl Past {
    pub(crate) fn new() -> Self {
        Past {
            born: [0; PROCS],
            from: [0; PROCS],
            slept: [false; PROCS],
            parent: [0; PROCS],
        }
    }

    pub(crate) fn born(&self, pid: Pid) -> u64 {
        self.born[pid.index()]
    }

    pub(crate) fn from(&self, pid: Pid) -> u64 {
        self.from[pid.index()]
    }

    pub(crate) fn slept(&self, pid: Pid) -> bool {
        self.slept[pid.index()]
    }

    pub(crate) fn parent(&self, pid: Pid) -> usize {
        self.parent[pid.index()]
    }

    pub(crate) fn dispatch(&mut self, pid: Pid, event: u64) {
        self.from[pid.index()] = event;
    }

    pub(crate) fn trap(&mut self, pid: Pid, slept: bool) {
        self.slept[pid.index()] = slept;
    }

    pub(crate) fn fork(&mut self, parent: Pid, child: Pid, event: u64) {
        self.born[child.index()] = event;
        self.slept[child.index()] = false;
        self.parent[child.index()] = parent.index();
    }

    pub(crate) fn adopt(&mut self, pid: Pid) {
        self.parent[pid.index()] = 0;
    }
}
