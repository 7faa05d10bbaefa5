//! A kernel that is followed event by event.

ghost use Rattle.std.specs.Prelude.{◌≡◌, ◌↔◌, IfOk, IsTrue, OnErr, Ok, drop, false, true};
ghost use Rattle.kernel_model.specs.History.{GoesOn};
ghost use Rattle.kernel_events.specs.Possible.{CanHappen};
ghost use Rattle.run_trace.specs.Changes.{IsCallOf, added, is_gone, is_made, is_woken, newly_full};

use crate::before::Before;
use crate::states::{is_asleep, is_free, is_runnable};
use kernel_events::{Event, Full, Kernel};
use proc_table::Pid;
use std::alloc::{AllocError, Allocator};
use std::marker::Model;
use std::snapshot::Snapshot;
use user_calls::{CallSlot, Machine};

/// A kernel, and what the last event did in it.
///
/// Contracts see the kernel's state before the last event, the call that this event carried out, and the kernel.
#[derive(Drop)]
pub struct Tracer<M: Machine, A: Allocator> {
    kernel: Kernel<M, A>,
    past: Snapshot<Kernel<M, A>>,
    before: Before,
    call: CallSlot,
}

impl<M: Machine, A: Allocator> Model for Tracer<M, A> {
    ghost use Rattle.run_trace.specs.Before.{Recalls};
    ghost use Rattle.run_trace.specs.Traced.{Traced};

    ghost Value = { Traced M.State };

    ghost view = { λ t. record { before = t.past.value.now; call = t.call; kernel = t.kernel } };

    ghost invariant = { λ t. Recalls t.past.value.now t.before };
}

impl<M: Machine, A: Allocator> Tracer<M, A> {
    /// A tracer of this kernel, in which no event was followed yet.
    pub fn new(kernel: Kernel<M, A>) -> Self
        ensures kernel { result.kernel ≡ kernel }
        ensures before { result.before ≡ kernel.now }
    {
        let mut before = Before::new();
        before.see(&kernel);
        let past = Snapshot::of(&kernel);
        Tracer {
            kernel,
            past,
            before,
            call: CallSlot::new(),
        }
    }

    /// The kernel after the last event.
    pub fn kernel(&self) -> &Kernel<M, A>
        ensures { result.now ≡ self.now.kernel }
    {
        &self.kernel
    }

    /// The call that the last event carried out, if it was a trap.
    pub fn call(&self) -> &CallSlot
        ensures { result.now ≡ self.now.call }
    {
        &self.call
    }

    /// Whether the last event woke the process: it slept before, and is Runnable after.
    pub fn is_woken(&self, pid: Pid) -> bool
        ensures { result ≡ is_woken self.now.before self.now.kernel.now pid }
    {
        is_asleep(self.before.states[pid.index()]) && is_runnable(self.kernel.state(pid))
    }

    /// Whether the last event made the process: its slot was free before. A fork makes one.
    pub fn is_made(&self, pid: Pid) -> bool
        ensures { result ≡ is_made self.now.before self.now.kernel.now pid }
    {
        is_free(self.before.states[pid.index()]) && !is_free(self.kernel.state(pid))
    }

    /// Whether the process is gone since the last event: its slot is free after. A wait takes one away.
    pub fn is_gone(&self, pid: Pid) -> bool
        ensures { result ≡ is_gone self.now.before self.now.kernel.now pid }
    {
        !is_free(self.before.states[pid.index()]) && is_free(self.kernel.state(pid))
    }

    /// What the last event added to the standard output.
    pub fn out(&self) -> &[u8]
        ensures { result.now ≡ added self.now.before.out self.now.kernel.now.out }
    {
        after(self.kernel.out(), self.before.out)
    }

    /// What the last event added to the diagnostics.
    pub fn diag(&self) -> &[u8]
        ensures { result.now ≡ added self.now.before.diag self.now.kernel.now.diag }
    {
        after(self.kernel.diag(), self.before.diag)
    }

    /// What the last event found full, if nothing was full before.
    pub fn full(&self) -> Option<Full>
        ensures { result ≡ newly_full self.now.before.full self.now.kernel.now.full }
    {
        match self.before.full {
            Some(_) => None,
            None => self.kernel.full(),
        }
    }
}

impl<M: Machine, A: Allocator + Copy> Tracer<M, A> {
    /// The event takes place, and the result is `true`, if it is one that can; else nothing changes in the kernel.
    ///
    /// `AllocError`, with nothing changed in the kernel, as with the kernel's `happen`.
    pub fn happen(&mut self, event: Event) -> Result<bool, AllocError>
        ensures can { IfOk result (λ happened. IsTrue happened ↔ CanHappen self.old.kernel.now.table event) }
        ensures event { result ≡ Ok true → GoesOn M.call_of M.next_of self.old.kernel event self.new.kernel }
        ensures before { self.new.before ≡ self.old.kernel.now }
        ensures call { result ≡ Ok true → IsCallOf M.call_of self.old.kernel.now event self.new.call }
        ensures same { result ≡ Ok false → self.new.kernel ≡ self.old.kernel }
        ensures err { OnErr result (self.new.kernel ≡ self.old.kernel) }
    {
        self.past = Snapshot::of(&self.kernel);
        self.before.see(&self.kernel);
        write_call(&self.kernel, event, &mut self.call);
        self.kernel.happen(event)
    }
}

// Writes the call that the event carries out, if it can happen.
fn write_call<M: Machine, A: Allocator>(kernel: &Kernel<M, A>, event: Event, call: &mut CallSlot)
    ensures { CanHappen kernel.now.now.table event → IsCallOf M.call_of kernel.now.now event call.new }
{
    if let Event::Trap(hart, pid) = event {
        kernel.ask(hart, pid as usize, call);
    }
}

// The bytes after so many.
fn after(bytes: &[u8], count: usize) -> &[u8]
    ensures { result.now ≡ drop count bytes.now }
{
    &bytes[count.min(bytes.len())..]
}
