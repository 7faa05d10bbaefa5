//! Dispatches, and what a kernel reads of its state (xv6's `scheduler` and `myproc`).

ghost use Rattle.std.specs.Prelude.{◌≡◌, ◌<◌, ◌≤◌, ◌+◌, ◌^◌, IsTrue, ◌↔◌, true, false, IfSome, None, All, position, count_by};
ghost use Rattle.std.specs.Bool.{OnFalse, OnTrue};
ghost use Rattle.proc_table.specs.Slots.{at, is_running, is_running_on, is_runnable};
ghost use Rattle.proc_table.specs.Calls.{CanDispatch, dispatched};
ghost use Rattle.proc_table.specs.declared.pid.TheConstants.{PROCS};
ghost use Rattle.proc_table.specs.declared.table.TheConstants.{HARTS};
ghost use Rattle.kernel_model.specs.Events.{IsFinished, counted};
ghost use Rattle.kernel_model.specs.History.{IsOwed, IsTask};
ghost use Rattle.kernel_model.specs.Sound.{IsSound};
ghost use Rattle.kernel_calls.specs.Runnable.{is_runnable_state};

use crate::State;
use kernel_model::Full;
use mem_files::Files;
use proc_table::{HARTS, Pid, State as SlotState};
use std::alloc::Allocator;
use user_calls::{CallSlot, Machine, Ran, Reply};

/// A process to run on a hart: its slot, a copy of its machine, and the reply that the machine takes next (own).
#[derive(Drop)]
pub struct Task<M: Machine> {
    pub pid: Pid,
    pub machine: M,
    pub reply: Reply,
}

impl<M: Machine, A: Allocator> State<M, A> {
    /// Makes some Runnable process run on the hart, which runs nothing, as one more event, and returns it; `None` where
    /// none is Runnable, and then there is no event (`scheduler`).
    pub fn dispatch(&mut self, hart: u8) -> Option<Pid>
        requires hart { hart < HARTS }
        requires idle { All (λ slot. is_running_on hart slot ≡ false) self.old.table }
        requires fits { self.old.events + 1 < 2 ^ 64 }
        ensures none { result ≡ None → All (λ slot. is_runnable slot ≡ false) self.old.table }
        ensures same { result ≡ None → self.new ≡ self.old }
        ensures was { IfSome result (λ pid. is_runnable (at self.old.table pid) ≡ true) }
        ensures after { IfSome result (λ pid. self.new ≡ record (counted self.old) { table = dispatched self.old.table pid hart }) }
    {
        let Some(pid) = self.procs.dispatch(hart) else {
            return None;
        };
        self.events += 1;
        Some(pid)
    }

    /// Makes the process in slot `pid` run on the hart, as one more event, and returns `true`; `false` where that can't be,
    /// and then nothing changes (own).
    pub fn dispatch_pid(&mut self, hart: u8, pid: usize) -> bool
        requires fits { self.old.events + 1 < 2 ^ 64 }
        ensures can { IsTrue result ↔ CanDispatch self.old.table hart pid }
        ensures after { OnTrue result (self.new ≡ record (counted self.old) { table = dispatched self.old.table pid hart }) }
        ensures same { OnFalse result (self.new ≡ self.old) }
    {
        if !self.procs.dispatch_pid(hart, pid) {
            return false;
        }
        self.events += 1;
        true
    }

    /// Whether `dispatch_pid` can make the process in slot `pid` run on the hart: there is such a hart, it runs nothing, and
    /// the process is Runnable (own).
    pub fn can_dispatch(&self, hart: u8, pid: usize) -> bool
        requires { IsSound self.now.table self.now.entries }
        ensures { IsTrue result ↔ CanDispatch self.now.table hart pid }
    {
        hart < HARTS && self.is_idle(hart) && self.has_runnable(pid)
    }

    // Whether the process in the slot of this number is Runnable; there is none past the last slot.
    fn has_runnable(&self, pid: usize) -> bool
        requires { IsSound self.now.table self.now.entries }
        ensures { result ≡ is_runnable (at self.now.table pid) }
    {
        match Pid::new(pid) {
            Some(pid) => is_runnable_state(self.procs.state(pid)),
            None => false,
        }
    }

    /// The task of a process: what a hart needs to run it (own).
    pub fn task(&self, pid: Pid) -> Task<M>
        requires { is_running (at self.now.table pid) ≡ true }
        ensures pid { result.pid ≡ pid }
        ensures task { IsTask (at self.now.table pid) (M.view result.machine) result.reply }
    {
        Task {
            pid,
            machine: self.procs.machine(pid).twin(),
            reply: self.procs.reply(pid).to_reply(),
        }
    }

    /// Writes the call that the process makes (own).
    pub fn ask(&self, pid: Pid, call: &mut CallSlot)
        requires { is_running (at self.now.table pid) ≡ true }
        ensures { IfSome (at self.now.table pid) (λ p. call.new ≡ M.call_of p.machine p.reply) }
    {
        self.procs.ask(pid, call);
    }

    /// Whether the process runs on the hart, with this machine and this reply (own).
    pub fn has_given(&self, hart: u8, pid: Pid, machine: &M, reply: &Reply) -> bool
        ensures { IsTrue result ↔ IsOwed hart (at self.now.table pid) (record { before = M.view machine.now; reply = reply.now }) }
    {
        self.procs.runs_on(hart, pid)
            && self.procs.machine(pid).same(machine)
            && self.procs.reply(pid).same(reply)
    }

    /// Whether the run is one that the kernel waits for: of the machine of a process that runs on the hart, with the reply
    /// to its last call (own).
    pub fn is_owed(&self, hart: u8, pid: Pid, ran: &Ran<M>) -> bool
        ensures { IsTrue result ↔ IsOwed hart (at self.now.table pid) ran.now }
    {
        self.has_given(hart, pid, ran.before(), ran.reply())
    }

    /// The process that runs on the hart; `None` where none does (`myproc`).
    pub fn running_on(&self, hart: u8) -> Option<Pid>
        ensures { result ≡ position (is_running_on hart) self.now.table }
    {
        self.procs.running_on(hart)
    }

    /// The process in the slot of this number, if it runs on the hart (own).
    pub fn found_on(&self, hart: u8, pid: usize) -> Option<Pid>
        requires { IsSound self.now.table self.now.entries }
        ensures some { IfSome result (λ found. (found ≡ pid) × (is_running_on hart (at self.now.table pid) ≡ true)) }
        ensures none { result ≡ None → is_running_on hart (at self.now.table pid) ≡ false }
    {
        let found = Pid::new(pid)?;
        if self.procs.runs_on(hart, found) {
            Some(found)
        } else {
            None
        }
    }

    /// Whether the hart runs nothing (own).
    pub fn is_idle(&self, hart: u8) -> bool
        ensures { IsTrue result ↔ All (λ slot. is_running_on hart slot ≡ false) self.now.table }
    {
        self.procs.is_idle(hart)
    }

    /// How many processes are running (own).
    pub fn running(&self) -> usize
        ensures count { result ≡ count_by is_running self.now.table }
        ensures within { result ≤ PROCS }
    {
        self.procs.running()
    }

    /// How many processes are Runnable (own).
    pub fn runnable(&self) -> usize
        ensures count { result ≡ count_by is_runnable self.now.table }
        ensures within { result ≤ PROCS }
    {
        self.procs.runnable()
    }

    /// Whether every slot but init's is free (own).
    pub fn is_finished(&self) -> bool
        ensures { IsTrue result ↔ IsFinished self.now }
    {
        self.procs.is_alone()
    }

    /// What had no room at the first call that was refused because something was full; `None` where none was (own).
    pub fn full(&self) -> Option<Full>
        ensures { result ≡ self.now.full }
    {
        self.full
    }

    /// The bytes of the standard output, those of the diagnostics, and the files (own).
    pub fn into_parts(self) -> (Vec<u8, A>, Vec<u8, A>, Files<A>)
        ensures out { result.0.items ≡ self.out }
        ensures diag { result.1.items ≡ self.diag }
        ensures files { result.2 ≡ self.files }
    {
        (self.out, self.diag, self.files)
    }
}

// Whether a slot in this state has a Runnable process.
fn is_runnable_state(state: SlotState) -> bool
    ensures { result ≡ is_runnable_state state }
{
    matches!(state, SlotState::Runnable)
}
