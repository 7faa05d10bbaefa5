//! A session.

ghost use Rattle.std.specs.Prelude.{◌≡◌, ◌<◌, ◌≤◌, ◌-◌, ◌*◌, ◌↔◌, IfNone, IfOk, IfSome, IsErr, OnErr, OnOk, Err, Ok, None, Some, All, false, length, take};
ghost use Rattle.proc_table.specs.Slots.{at, is_runnable};
ghost use Rattle.kernel_model.specs.Events.{run};
ghost use Rattle.kernel_model.specs.History.{booted};
ghost use Rattle.kernel_model.specs.Turns.{callers, quiet_turns, turn_events};
ghost use Rattle.step_session.specs.Sessions.{IsBack, IsDetermined, Takes, first_kernel};

use crate::fault::{BackFault, ChooseFault};
use crate::turning::{carry_out, take_next, take_turn};
use kernel_events::{Event, Kernel};
use mem_files::Files;
use proc_table::Pid;
use std::alloc::{AllocError, Allocator, Global};
use std::marker::Model;
use user_calls::Machine;

/// What a kernel is booted with.
#[derive(Drop)]
pub struct Beginning<'t, M: Machine, C: Allocator> {
    pub init: M,
    /// The top shell.
    pub shell: M,
    /// The standard input.
    pub stdin: &'t [u8],
    pub files: &'t Files<C>,
}

/// A kernel, of which whoever holds the session says who takes the next turn.
///
/// Contracts see the kernel at its start, the kernel as it is, and the schedule between the two, with a note beside each
/// event: whether memory was refused.
#[derive(Drop)]
pub struct Session<'t, M: Machine, C: Allocator> {
    kernel: Kernel<M, Global>,
    // What the kernel is made of again.
    init: M,
    shell: M,
    stdin: &'t [u8],
    files: &'t Files<C>,
}

impl<'t, M: Machine, C: Allocator> Model for Session<'t, M, C> {
    ghost use Rattle.kernel_model.specs.History.{History};
    ghost use Rattle.step_session.specs.Sessions.{IsSession, first_kernel};

    ghost Value = { History M.State };

    ghost view = { λ s. s.kernel };

    ghost invariant = { λ s. IsSession (first_kernel (M.view s.init) (M.view s.shell) s.stdin.now s.files.now) s.kernel };
}

// The kernel at its start.
fn boot<M: Machine, C: Allocator>(
    alloc: Global,
    init: M,
    shell: M,
    stdin: &[u8],
    files: &Files<C>,
) -> Result<Kernel<M, Global>, AllocError>
    ensures { IfOk result (λ kernel. kernel ≡ booted (first_kernel (M.view init) (M.view shell) stdin.now files.now)) }
{
    Kernel::boot(alloc, init, shell, stdin, files)
}

// The events without those of the last turns, so many; `None` where there are fewer.
fn without_last(events: &[Event], turns: usize) -> Option<&[Event]>
    ensures within { IfSome result (λ kept. 2 * turns ≤ length events.now) }
    ensures kept { IfSome result (λ kept. kept.now ≡ take (length events.now - 2 * turns) events.now) }
    ensures none { IfNone result (length events.now < 2 * turns) }
{
    if events.len() / 2 < turns {
        return None;
    }
    Some(&events[..events.len() - turns * 2])
}

impl<'t, M: Machine, C: Allocator> Session<'t, M, C> {
    /// A session with the kernel at its start: init and the top shell, with this standard input and these files.
    ///
    /// `AllocError` where memory for the kernel is refused.
    pub fn start(
        alloc: Global,
        init: M,
        shell: M,
        stdin: &'t [u8],
        files: &'t Files<C>,
    ) -> Result<Self, AllocError>
        ensures { IfOk result (λ session. session ≡ booted (first_kernel (M.view init) (M.view shell) stdin.now files.now)) }
    {
        let kernel = boot(alloc, init.twin(), shell.twin(), stdin, files)?;
        Ok(Session {
            kernel,
            init,
            shell,
            stdin,
            files,
        })
    }

    /// The kernel as it is, to look at.
    pub fn kernel(&self) -> &Kernel<M, Global>
        ensures { result.now ≡ self.now }
    {
        &self.kernel
    }

    /// What the session began with.
    pub fn beginning(&self) -> Beginning<'t, M, C>
        ensures { self.now.boot ≡ first_kernel (M.view result.init) (M.view result.shell) result.stdin.now result.files.now }
    {
        Beginning {
            init: self.init.twin(),
            shell: self.shell.twin(),
            stdin: self.stdin,
            files: self.files,
        }
    }

    /// How many turns were taken.
    pub fn turns(&self) -> usize
        ensures { result ≡ length (callers self.now.schedule) }
    {
        self.kernel.schedule().len() / 2
    }

    /// The process in slot `pid` takes a turn.
    ///
    /// `NotRunnable` exactly where it isn't Runnable, or there is no such process; `Memory` only where it is. Nothing changes
    /// then.
    pub fn choose(&mut self, pid: usize) -> Result<(), ChooseFault>
        ensures turn { OnOk result (Takes M.call_of M.next_of self.old pid self.new) }
        ensures refused { (result ≡ Err ChooseFault.NotRunnable) ↔ (is_runnable (at self.old.now.table pid) ≡ false) }
        ensures err { OnErr result (self.new ≡ self.old) }
    {
        if take_turn(&mut self.kernel, pid)? {
            Ok(())
        } else {
            Err(ChooseFault::NotRunnable)
        }
    }

    /// The process that the kernel itself would choose takes a turn; `None`, with nothing changed, where none is Runnable.
    ///
    /// `AllocError`, with nothing changed, where memory for the schedule is refused.
    pub fn choose_next(&mut self) -> Result<Option<Pid>, AllocError>
        ensures turn { IfOk result (λ found. IfSome found (λ pid. Takes M.call_of M.next_of self.old pid self.new)) }
        ensures none { result ≡ Ok None → All (λ slot. is_runnable slot ≡ false) self.old.now.table }
        ensures same { result ≡ Ok None → self.new ≡ self.old }
        ensures err { OnErr result (self.new ≡ self.old) }
    {
        take_next(&mut self.kernel)
    }

    /// Takes the last turns back: the kernel is made again by the schedule without them.
    ///
    /// `TooFar` exactly where there were fewer turns. `Memory` where memory is refused, also to a call of a turn that is
    /// taken again. Nothing changes then.
    pub fn back(&mut self, alloc: Global, turns: usize) -> Result<(), BackFault>
        ensures back { OnOk result (IsBack turns self.old self.new) }
        ensures state { OnOk result (IsDetermined M.call_of M.next_of self.new) }
        ensures too_far { (result ≡ Err BackFault.TooFar) ↔ (length (callers self.old.schedule) < turns) }
        ensures err { OnErr result (self.new ≡ self.old) }
    {
        let Some(events) = without_last(self.kernel.schedule(), turns) else {
            return Err(BackFault::TooFar);
        };
        let kernel = self.remake(alloc, events)?;
        kernel.replays();
        kernel.is_paired();
        self.kernel = kernel;
        Ok(())
    }

    // The kernel after these events, made again from its start.
    fn remake(&self, alloc: Global, events: &[Event]) -> Result<Kernel<M, Global>, BackFault>
        ensures boot { IfOk result (λ kernel. kernel.boot ≡ self.now.boot) }
        ensures schedule { IfOk result (λ kernel. kernel.schedule ≡ events.now) }
        ensures fault { IsErr result → result ≡ Err BackFault.Memory }
    {
        let (init, shell) = (self.init.twin(), self.shell.twin());
        let mut kernel = boot(alloc, init, shell, self.stdin, self.files)?;
        carry_out(&mut kernel, events)?;
        Ok(kernel)
    }

    /// The kernel's state is the one that the schedule leads to from its start.
    pub fn replays(&self)
        ensures { run M.call_of M.next_of (Some self.now.boot) self.now.schedule self.now.notes ≡ Some self.now.now }
    {
        self.kernel.replays();
    }

    /// The schedule is one of turns: a dispatch by hart 0 and, as the next event, the trap of the same process.
    pub fn is_by_turns(&self)
        ensures { self.now.schedule ≡ turn_events (quiet_turns (callers self.now.schedule)) }
    {
        let _ = &self.kernel;
    }
}
