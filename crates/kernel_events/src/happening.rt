//! Events that are given from outside.

ghost use Rattle.std.specs.Prelude.{◌≡◌, ◌↔◌, IsTrue, IfOk, OnErr, IsErr, Ok, false, true};
ghost use Rattle.kernel_model.specs.History.{GoesOn};
ghost use Rattle.kernel_events.specs.Possible.{CanHappen};

use crate::kernel::Kernel;
use kernel_model::Event;
use std::alloc::{AllocError, Allocator};
use user_calls::Machine;

impl<M: Machine, A: Allocator + Copy> Kernel<M, A> {
    /// The event takes place, and the result is `true`, if it is one that can: nothing is handed out, and the call of a
    /// trap is the one that the process's own machine makes. Where it can't, nothing changes.
    ///
    /// `AllocError`, with nothing changed, where the schedule gets no room, and only where the event could take place.
    pub fn happen(&mut self, event: Event) -> Result<bool, AllocError>
        ensures can { IfOk result (λ happened. IsTrue happened ↔ CanHappen self.old.now.table event) }
        ensures event { result ≡ Ok true → GoesOn M.call_of M.next_of self.old event self.new }
        ensures same { result ≡ Ok false → self.new ≡ self.old }
        ensures err { OnErr result (self.new ≡ self.old) }
        ensures could { IsErr result → CanHappen self.old.now.table event }
    {
        match event {
            Event::Dispatch(hart, pid) => Ok(self.begin(hart, pid as usize)?.is_some()),
            Event::Trap(hart, pid) => Ok(self.trap_pid(hart, pid as usize)),
        }
    }
}
