//! The table.

use crate::heads::Heads;
use crate::process::{copy_slot, fds_of, head_of, is_runnable, is_running, is_running_on};
use crate::{Answer, Channel, PROCS, Pid, Process, State, Status};
use fd_table::Fds;
use std::alloc::{AllocError, Allocator};
use std::marker::Model;
use thiserror::Error;
use user_calls::{CallSlot, Machine, ReplySlot};

/// How many harts there are at most (xv6's `NCPU`).
pub const HARTS: u8 = 8;

/// No slot is free (xv6's `allocproc` returns 0).
#[derive(Clone, Copy, Debug, PartialEq, Eq, Error)]
#[error("no free slot")]
pub struct FullProcs;

/// The result of a wait (`kwait`).
#[derive(Clone, Copy, Debug, PartialEq, Eq)]
pub enum Waited {
    /// The slot of this child, which was a zombie, is free now.
    Reaped(Pid),
    /// The process has no children.
    NoChildren,
    /// No child has exited yet.
    MustSleep,
}

/// The table of all processes, each run by a machine `M` (xv6's `proc`).
///
/// Contracts see the list of the 64 slots, in which a free one is `None`.
#[derive(Drop)]
pub struct Procs<M: Machine, A: Allocator> {
    slots: Vec<Option<Process<M>>, A>,
    // What is searched of them.
    heads: Heads,
}

impl<M: Machine, A: Allocator> Model for Procs<M, A> {
    ghost use Rattle.proc_table.specs.Heads.{AreHeads};
    ghost use Rattle.proc_table.specs.Slots.{Table};

    ghost Value = { Table M.State };

    ghost view = { λ p. p.slots.items };

    ghost invariant = { λ p. AreHeads p.slots.items p.heads };
}

impl<M: Machine, A: Allocator> Procs<M, A> {
    ghost use Rattle.std.specs.Borrow.{Lends, sem};
    ghost use Rattle.fd_table.specs.contracts.descriptors.Fds.{the_row as fds_row};
    ghost use Rattle.proc_table.specs.contracts.table.Procs.{the_row as procs_row};
    ghost use Rattle.std.specs.Prelude.{◌≡◌, ◌≢◌, ◌+◌, ◌++◌, ◌≤◌, ◌<◌, ℕ, All, IfNone, IfOk, IfSome, IsSome, IsTrue, ◌↔◌, OnErr, None, Some, true, false, count_by, length, map, position, slice_set};
    ghost use Rattle.std.specs.Bool.{OnFalse, OnTrue};
    ghost use Rattle.user_calls.specs.Limits.{block_size};
    ghost use Rattle.user_calls.specs.declared.calls.Reply.TheVariants.{Bytes, Done};
    ghost use Rattle.proc_table.specs.declared.pid.TheConstants.{PROCS};
    ghost use Rattle.proc_table.specs.declared.table.TheConstants.{HARTS};
    ghost use Rattle.proc_table.specs.Answers.{reply_of};
    ghost use Rattle.proc_table.specs.Slots.{IsAlone, at, is_asleep_on, is_child_of, is_runnable, is_running, is_running_on, parent_of, put_of, state_of};
    ghost use Rattle.proc_table.specs.Heads.{IsOnHart, hart_by, head_of, to_init};
    ghost use Rattle.proc_table.specs.Calls.{CanDispatch, all_woken, boot_table, dispatched, exited, fds_set, forked, given, lowest_free, readied, reaped, slept, some_child, status_set, wait_answer, zombie_child};

    /// The table with init in slot 0 and the top shell, its child, in slot 1, and room for 62 processes more
    /// (`procinit` and `userinit`; that there are two processes from the start is own).
    ///
    /// `AllocError` where the allocator refuses that room; no other call takes memory.
    pub fn new(alloc: A, init: M, shell: M) -> Result<Self, AllocError>
        ensures { IfOk result (λ procs. procs ≡ boot_table (M.view init) (M.view shell)) }
    {
        let mut slots = Vec::with_capacity(alloc, PROCS)?;
        slots.push(Some(Process::boot(None, init)))?;
        slots.push(Some(Process::boot(Some(Pid::init()), shell)))?;
        for _free in 0..PROCS - 2 {
            slots.push(None)?;
        }
        Ok(Procs {
            slots,
            heads: Heads::new(),
        })
    }

    /// Becomes equal to the other table. The machines of processes are twins; a slot that is free in both tables costs no
    /// more than a look (own).
    pub fn copy_from(&mut self, other: &Self)
        ensures { self.new ≡ other.now }
    {
        self.heads.copy_from(&other.heads);
        for index in 0..PROCS {
            copy_slot(&mut self.slots[index], &other.slots[index]);
        }
    }

    /// The lowest free slot, if there is one (`allocproc`).
    pub fn lowest_free(&self) -> Option<Pid>
        ensures { result ≡ lowest_free self.now }
    {
        Pid::named(self.free_index())
    }

    /// Carries out the call of the running process `parent`, which forks: a child with these descriptors and with the
    /// machine after the call is put into the lowest free slot, and `parent` becomes Runnable with the reply `Done`
    /// (`kfork`).
    ///
    /// `FullProcs` where no slot is free; nothing changes then, and the descriptors are dropped.
    pub fn fork(&mut self, parent: Pid, fds: Fds) -> Result<Pid, FullProcs>
        requires { is_running (at self.old parent) ≡ true }
        ensures slot { IfOk result (λ child. lowest_free self.old ≡ Some child) }
        ensures after { IfOk result (λ child. IfSome (at self.old parent) (λ p. self.new ≡ readied (forked self.old child parent (M.next_of p.machine p.reply) fds) parent (M.next_of p.machine p.reply) Done)) }
        ensures full { OnErr result (lowest_free self.old ≡ None) }
        ensures same { OnErr result (self.new ≡ self.old) }
    {
        let Some(index) = self.free_index() else {
            return Err(FullProcs);
        };
        let mut twin = self.machine(parent).twin();
        twin.advance(self.reply(parent));
        self.set(index, Some(Process::child(parent, twin, fds)));
        self.answer(parent, Answer::Done);
        Ok(Pid::at(index))
    }

    /// The running process `pid` exits: its children go to init, it becomes a zombie, and its parent is woken where it
    /// sleeps for its children, and init where it got a zombie (`kexit`; that init isn't woken for each child that
    /// it gets is own). Its descriptors don't change: the kernel closes them first.
    pub fn exit(&mut self, pid: Pid)
        requires runs { is_running (at self.old pid) ≡ true }
        requires not_init { pid ≢ 0 }
        ensures { self.new ≡ exited self.old pid }
    {
        let orphan = self.zombie_child(pid).is_some();
        let parent = self.parent(pid);
        self.give_all(pid);
        self.set_status(pid, Status::Zombie);
        self.wakeup(Channel::Children(parent));
        if orphan {
            self.wakeup(Channel::Children(Pid::init()));
        }
    }

    /// The running process `pid` waits for a child that has exited: the slot of the lowest such child becomes free
    /// (`kwait`).
    pub fn wait(&mut self, pid: Pid) -> Waited
        requires { is_running (at self.old pid) ≡ true }
        ensures answer { result ≡ wait_answer self.old pid }
        ensures after { self.new ≡ reaped self.old pid }
    {
        match self.zombie_child(pid) {
            Some(child) => {
                self.set(child, None);
                Waited::Reaped(Pid::at(child))
            }
            None => {
                if self.some_child(pid).is_some() {
                    Waited::MustSleep
                } else {
                    Waited::NoChildren
                }
            }
        }
    }

    /// The state of a slot (`state`).
    pub fn state(&self, pid: Pid) -> State
        ensures { result ≡ state_of (at self.now pid) }
    {
        match &self.slots[pid.index()] {
            Some(process) => process.status.state(),
            None => State::Free,
        }
    }

    /// Whether there is a process in the slot, as `parent`, `machine`, `reply`, `ask`, `fds`, `fds_mut` and `put`
    /// require (own).
    pub fn is_used(&self, pid: Pid) -> bool
        ensures { IsTrue result ↔ IsSome (at self.now pid) }
    {
        self.slots[pid.index()].is_some()
    }

    /// Whether the process in the slot runs on any hart, as `fork`, `exit`, `wait`, `sleep` and the
    /// calls by which it is answered require (own).
    pub fn is_running(&self, pid: Pid) -> bool
        ensures { result ≡ is_running (at self.now pid) }
    {
        is_running(&self.slots[pid.index()])
    }

    /// Whether the process in the slot runs on this hart (own).
    pub fn runs_on(&self, hart: u8, pid: Pid) -> bool
        ensures { result ≡ is_running_on hart (at self.now pid) }
    {
        is_running_on(&self.slots[pid.index()], hart)
    }

    /// Whether the hart runs nothing, as `dispatch` requires (own).
    pub fn is_idle(&self, hart: u8) -> bool
        ensures { IsTrue result ↔ All (λ slot. is_running_on hart slot ≡ false) self.now }
    {
        self.heads.is_idle(hart)
    }

    /// The parent of a process (`parent`). For init this is init itself, which is not its own child (own).
    pub fn parent(&self, pid: Pid) -> Pid
        requires { IsSome (at self.now pid) }
        ensures { result ≡ parent_of (at self.now pid) }
    {
        match &self.slots[pid.index()] {
            Some(process) => process.parent.unwrap_or(Pid::init()),
            None => unreachable!(),
        }
    }

    /// The machine of a process; where it sleeps, the one before the call in which it sleeps (own).
    pub fn machine(&self, pid: Pid) -> &M
        requires { IsSome (at self.now pid) }
        ensures { IfSome (at self.now pid) (λ process. M.view result.now ≡ process.machine) }
    {
        match &self.slots[pid.index()] {
            Some(process) => &process.machine,
            None => unreachable!(),
        }
    }

    /// The reply that a process takes when it runs next (own).
    pub fn reply(&self, pid: Pid) -> &ReplySlot
        requires { IsSome (at self.now pid) }
        ensures { IfSome (at self.now pid) (λ process. result.now ≡ process.reply) }
    {
        match &self.slots[pid.index()] {
            Some(process) => &process.reply,
            None => unreachable!(),
        }
    }

    /// Writes the call that the machine of a process makes of its reply (own).
    pub fn ask(&self, pid: Pid, call: &mut CallSlot)
        requires { IsSome (at self.now pid) }
        ensures { IfSome (at self.now pid) (λ process. call.new ≡ M.call_of process.machine process.reply) }
    {
        match &self.slots[pid.index()] {
            Some(process) => process.machine.ask(&process.reply, call),
            None => unreachable!(),
        }
    }

    /// The descriptors of a process (`ofile`).
    pub fn fds(&self, pid: Pid) -> &Fds
        requires { IsSome (at self.now pid) }
        ensures { IfSome (at self.now pid) (λ process. result.now ≡ process.fds) }
    {
        match &self.slots[pid.index()] {
            Some(process) => &process.fds,
            None => unreachable!(),
        }
    }

    /// The descriptors of a process, to be changed (`ofile`).
    pub fn fds_mut(&mut self, pid: Pid) -> &mut Fds
        requires { IsSome (at self.old pid) }
        ensures* lends { sem 𝓛 (Lends (procs_row M.row A.row M.State.row M.Machine A.Allocator) fds_row self.entry result (fds_set self.old pid)) }
        ensures value { IfSome (at self.old pid) (λ process. result.now ≡ process.fds) }
    {
        fds_of(&mut self.slots[pid.index()])
    }

    /// How many bytes the write of a process has put so far, while it sleeps or until it is tried again; 0 for any other
    /// process (`i` of `pipewrite`).
    pub fn put(&self, pid: Pid) -> usize
        requires { IsSome (at self.now pid) }
        ensures { result ≡ put_of (at self.now pid) }
    {
        match &self.slots[pid.index()] {
            Some(process) => process.put,
            None => unreachable!(),
        }
    }

    /// The machine of the running process `pid` goes on past its call where it lies, and the process becomes Runnable with
    /// this reply, and has put no bytes (`yield`, after a call that doesn't sleep).
    pub fn answer(&mut self, pid: Pid, answer: Answer)
        requires { is_running (at self.old pid) ≡ true }
        ensures { IfSome (at self.old pid) (λ p. self.new ≡ readied self.old pid (M.next_of p.machine p.reply) (reply_of answer)) }
    {
        if let Some(process) = &mut self.slots[pid.index()] {
            process.answer(answer);
            let head = process.head();
            self.heads.put(pid.index(), Some(head));
        }
    }

    /// Likewise after a call that read these bytes.
    pub fn answer_bytes(&mut self, pid: Pid, bytes: &[u8])
        requires runs { is_running (at self.old pid) ≡ true }
        requires few { length bytes.now ≤ block_size }
        ensures { IfSome (at self.old pid) (λ p. self.new ≡ readied self.old pid (M.next_of p.machine p.reply) (Bytes bytes.now)) }
    {
        if let Some(process) = &mut self.slots[pid.index()] {
            process.answer_bytes(bytes);
            let head = process.head();
            self.heads.put(pid.index(), Some(head));
        }
    }

    /// Likewise after a call that read bytes which lay in two parts.
    pub fn answer_parts(&mut self, pid: Pid, first: &[u8], second: &[u8])
        requires runs { is_running (at self.old pid) ≡ true }
        requires few { length first.now + length second.now ≤ block_size }
        ensures { IfSome (at self.old pid) (λ p. self.new ≡ readied self.old pid (M.next_of p.machine p.reply) (Bytes (first.now ++ second.now))) }
    {
        if let Some(process) = &mut self.slots[pid.index()] {
            process.answer_parts(first, second);
            let head = process.head();
            self.heads.put(pid.index(), Some(head));
        }
    }

    /// The running process `pid` sleeps on the channel, and has put this many bytes so far (`sleep`).
    pub fn sleep(&mut self, pid: Pid, channel: Channel, put: usize)
        requires { is_running (at self.old pid) ≡ true }
        ensures { self.new ≡ slept self.old pid channel put }
    {
        if let Some(process) = &mut self.slots[pid.index()] {
            process.status = Status::Asleep(channel);
            process.put = put;
            let head = process.head();
            self.heads.put(pid.index(), Some(head));
        }
    }

    /// Makes all that sleep on the channel Runnable, and returns how many (`wakeup`; that it returns the number is own).
    pub fn wakeup(&mut self, channel: Channel) -> usize
        ensures woken { self.new ≡ all_woken channel self.old }
        ensures count { result ≡ count_by (is_asleep_on channel) self.old }
    {
        self.wake_all(&channel)
    }

    /// Makes some Runnable process Running on the hart, which runs nothing, and returns it; `None` where none is
    /// Runnable (`scheduler`). The contract leaves open which one.
    pub fn dispatch(&mut self, hart: u8) -> Option<Pid>
        requires within { hart < HARTS }
        requires idle { All (λ slot. is_running_on hart slot ≡ false) self.old }
        ensures none { result ≡ None → All (λ slot. is_runnable slot ≡ false) self.old }
        ensures same { result ≡ None → self.new ≡ self.old }
        ensures was { IfSome result (λ pid. is_runnable (at self.old pid) ≡ true) }
        ensures after { IfSome result (λ pid. self.new ≡ dispatched self.old pid hart) }
    {
        let Some(index) = self.heads.next(hart) else {
            return None;
        };
        let pid = Pid::at(index);
        self.set_status(pid, Status::Running(hart));
        Some(pid)
    }

    /// Makes the process in slot `pid` Running on the hart, and returns `true`; `false` where there is no such hart, where
    /// it runs something, or where `pid` isn't the number of a Runnable process's slot, and then nothing changes (own).
    pub fn dispatch_pid(&mut self, hart: u8, pid: usize) -> bool
        ensures can { IsTrue result ↔ CanDispatch self.old hart pid }
        ensures after { OnTrue result (self.new ≡ dispatched self.old pid hart) }
        ensures same { OnFalse result (self.new ≡ self.old) }
    {
        if hart >= HARTS || !self.is_idle(hart) || !self.has_runnable(pid) {
            return false;
        }
        self.set_status(Pid::at(pid), Status::Running(hart));
        true
    }

    /// The process that runs on the hart, the lowest if there are several; `None` where none runs there (`myproc`).
    pub fn running_on(&self, hart: u8) -> Option<Pid>
        ensures { result ≡ position (is_running_on hart) self.now }
    {
        Pid::named(self.running_index(hart))
    }

    /// How many processes are running (own).
    pub fn running(&self) -> usize
        ensures count { result ≡ count_by is_running self.now }
        ensures within { result ≤ PROCS }
    {
        self.heads.running()
    }

    /// How many processes are Runnable (own).
    pub fn runnable(&self) -> usize
        ensures count { result ≡ count_by is_runnable self.now }
        ensures within { result ≤ PROCS }
    {
        self.heads.runnable()
    }

    /// Whether every slot but init's is free (own).
    pub fn is_alone(&self) -> bool
        ensures { IsTrue result ↔ IsAlone self.now }
    {
        let free = self.heads.free_slots();
        match &self.slots[0] {
            Some(_init) => free == PROCS - 1,
            None => free == PROCS,
        }
    }

    // The number of the lowest free slot.
    fn free_index(&self) -> Option<usize>
        ensures value { result ≡ lowest_free self.now }
        ensures within { IfSome result (λ index. index < PROCS) }
    {
        self.heads.free()
    }

    // Whether the process in the slot of this number is Runnable; there is none past the last slot.
    fn has_runnable(&self, index: usize) -> bool
        ensures value { result ≡ is_runnable (at self.now index) }
        ensures within { IsTrue result → index < PROCS }
    {
        index < PROCS && is_runnable(&self.slots[index])
    }

    // The number of the slot that runs on the hart.
    fn running_index(&self, hart: u8) -> Option<usize>
        ensures value { result ≡ position (is_running_on hart) self.now }
        ensures within { IfSome result (λ index. index < PROCS) }
    {
        self.heads.running_on(hart)
    }

    // The number of the lowest child that is a zombie.
    fn zombie_child(&self, pid: Pid) -> Option<usize>
        ensures value { result ≡ zombie_child self.now pid }
        ensures within { IfSome result (λ index. index < PROCS) }
    {
        self.heads.zombie_child(pid)
    }

    // The number of the lowest child.
    fn some_child(&self, pid: Pid) -> Option<usize>
        ensures value { result ≡ some_child self.now pid }
        ensures within { IfSome result (λ index. index < PROCS) }
    {
        self.heads.child(pid)
    }

    // A process that sleeps on the channel.
    fn sleeper(&self, channel: &Channel) -> Option<Pid>
        ensures some { IfSome result (λ pid. is_asleep_on channel.now (at self.now pid) ≡ true) }
        ensures none { IfNone result ((pid : ℕ) → is_asleep_on channel.now (at self.now pid) ≡ false) }
    {
        match self.heads.sleeper(channel) {
            Some(index) => Some(Pid::at(index)),
            None => None,
        }
    }

    // Wakes all that sleep on the channel, and returns how many did.
    fn wake_all(&mut self, channel: &Channel) -> usize
        ensures woken { self.new ≡ all_woken channel.now self.old }
        ensures count { result ≡ count_by (is_asleep_on channel.now) self.old }
    {
        // All slots are 64, and so many fit a number.
        let _slots = &self.slots;
        let mut woken = 0;
        while let Some(pid) = self.sleeper(channel) {
            self.set_status(pid, Status::Runnable);
            woken += 1;
        }
        woken
    }

    // What is in the slot of this number.
    fn set(&mut self, index: usize, slot: Option<Process<M>>)
        requires within { index < PROCS }
        requires on_hart { IsOnHart (head_of slot) }
        ensures { self.new ≡ slice_set self.old index slot }
    {
        self.heads.put(index, head_of(&slot));
        self.slots[index] = slot;
    }

    fn set_status(&mut self, pid: Pid, status: Status)
        requires { (hart : ℕ) → hart_by status ≡ Some hart → hart < HARTS }
        ensures { self.new ≡ status_set self.old pid status }
    {
        if let Some(process) = &mut self.slots[pid.index()] {
            process.set_status(status);
            let head = process.head();
            self.heads.put(pid.index(), Some(head));
        }
    }

    // Gives the children of a process to init (xv6's `reparent`).
    fn give_all(&mut self, pid: Pid)
        requires { pid ≢ 0 }
        ensures { self.new ≡ map (given pid) self.old }
    {
        while let Some(child) = self.some_child(pid) {
            self.give(child);
        }
    }

    // Gives the process in the slot of this number to init.
    fn give(&mut self, index: usize)
        requires { index < PROCS }
        ensures { self.new ≡ slice_set self.old index (to_init (at self.old index)) }
    {
        if let Some(process) = &mut self.slots[index] {
            process.set_parent(Pid::init());
            self.heads.give(index, Pid::init());
        }
    }
}
