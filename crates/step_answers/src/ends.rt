//! The pipes of a kernel, and the processes that hold their ends.

use fd_table::DESCRIPTORS;
use kernel_events::Kernel;
use proc_table::{PROCS, Pid};
use run_trace::{End, pipe_end};
use std::alloc::{AllocError, Global};
use user_calls::Machine;

// All slots, in order.
pub(crate) fn all_pids(alloc: Global) -> Result<Vec<Pid>, AllocError> {
    let mut pids = Vec::new(alloc);
    for index in 0..PROCS {
        if let Some(pid) = Pid::new(index) {
            pids.push(pid)?;
        }
    }
    Ok(pids)
}

// The slots with a process, in order.
pub(crate) fn live_pids<M: Machine>(
    alloc: Global,
    kernel: &Kernel<M, Global>,
) -> Result<Vec<Pid>, AllocError> {
    let mut pids = Vec::new(alloc);
    for index in 0..PROCS {
        if let Some(pid) = Pid::new(index) {
            if kernel.parent(pid).is_some() {
                pids.push(pid)?;
            }
        }
    }
    Ok(pids)
}

// Whether the process holds this end of the pipe.
pub(crate) fn holds<M: Machine>(kernel: &Kernel<M, Global>, pid: Pid, name: u64, end: End) -> bool {
    for fd in 0..DESCRIPTORS {
        if pipe_end(kernel, pid, fd) == Some((name, end)) {
            return true;
        }
    }
    false
}

// The processes that hold this end of the pipe.
pub(crate) fn holders<M: Machine>(
    alloc: Global,
    kernel: &Kernel<M, Global>,
    name: u64,
    end: End,
) -> Result<Vec<Pid>, AllocError> {
    let mut pids = Vec::new(alloc);
    for index in 0..PROCS {
        if let Some(pid) = Pid::new(index) {
            if holds(kernel, pid, name, end) {
                pids.push(pid)?;
            }
        }
    }
    Ok(pids)
}

// The names of the pipes of which the process holds an end are added, where they aren't there.
fn add_names<M: Machine>(
    kernel: &Kernel<M, Global>,
    pid: Pid,
    names: &mut Vec<u64>,
) -> Result<(), AllocError> {
    for fd in 0..DESCRIPTORS {
        if let Some((name, _)) = pipe_end(kernel, pid, fd) {
            if !names.contains(&name) {
                names.push(name)?;
            }
        }
    }
    Ok(())
}

// The names of the pipes of which an end is held, in the order in which they were made.
pub(crate) fn names_of<M: Machine>(
    alloc: Global,
    kernel: &Kernel<M, Global>,
) -> Result<Vec<u64>, AllocError> {
    let mut names = Vec::new(alloc);
    for pid in &all_pids(alloc)? {
        add_names(kernel, *pid, &mut names)?;
    }
    names.sort_unstable();
    Ok(names)
}

// Whether the process is a child of the parent.
pub(crate) fn is_child<M: Machine>(kernel: &Kernel<M, Global>, pid: Pid, parent: Pid) -> bool {
    pid != parent && kernel.parent(pid) == Some(parent)
}
