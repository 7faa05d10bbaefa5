//! What is kept of a kernel until the next event has happened.

ghost use Rattle.std.specs.Prelude.{◌≡◌, length};
ghost use Rattle.proc_table.specs.declared.pid.TheConstants.{PROCS};
ghost use Rattle.run_trace.specs.Before.{AreStates, Recalls};

use kernel_events::{Full, Kernel};
use proc_table::{PROCS, Pid, State};
use std::alloc::Allocator;
use user_calls::Machine;

// What is kept of a kernel until the next event has happened.
#[derive(Drop)]
pub struct Before {
    pub(crate) states: [State; PROCS],
    // How many bytes were written to the standard output, and as diagnostics.
    pub(crate) out: usize,
    pub(crate) diag: usize,
    pub(crate) full: Option<Full>,
}

impl Before {
    // Nothing.
    pub(crate) fn new() -> Self {
        Before {
            states: [State::Free; PROCS],
            out: 0,
            diag: 0,
            full: None,
        }
    }

    // Keeps what is to be known of this kernel, and forgets what was kept before.
    pub(crate) fn see<M: Machine, A: Allocator>(&mut self, kernel: &Kernel<M, A>)
        ensures { Recalls kernel.now.now self.new }
    {
        see_states(kernel, &mut self.states);
        self.out = kernel.out().len();
        self.diag = kernel.diag().len();
        self.full = kernel.full();
    }
}

// Writes the states of all slots.
fn see_states<M: Machine, A: Allocator>(kernel: &Kernel<M, A>, states: &mut [State; PROCS])
    ensures { AreStates kernel.now.now.table states.new }
{
    for index in 0..PROCS {
        if let Some(pid) = Pid::new(index) {
            states[index] = kernel.state(pid);
        }
    }
}
