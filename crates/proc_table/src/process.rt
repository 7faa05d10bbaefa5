//! One process, and the slot that it is in.

ghost use Rattle.std.specs.Borrow.{Lends, sem};
ghost use Rattle.std.specs.Prelude.{◌≡◌, IfSome, IsSome, None, Some};
ghost use Rattle.std.specs.contracts.option.Option.{the_row as option_row};
ghost use Rattle.fd_table.specs.contracts.descriptors.Fds.{the_row as fds_row};
ghost use Rattle.proc_table.specs.contracts.process.Process.{the_row as process_row};
ghost use Rattle.proc_table.specs.Slots.{is_runnable, is_running, is_running_on};
ghost use Rattle.proc_table.specs.Calls.{with_fds};
ghost use Rattle.proc_table.specs.Heads.{head_of};

use crate::answers::{copy_reply, write_reply};
use crate::heads::Head;
use crate::{Answer, Pid, Status};
use fd_table::Fds;
use std::marker::Model;
use user_calls::{Machine, ReplySlot};

// A process (xv6's `struct proc`).
#[derive(Drop)]
pub struct Process<M: Machine> {
    pub(crate) status: Status,
    // `None` for init alone.
    pub(crate) parent: Option<Pid>,
    pub(crate) machine: M,
    pub(crate) reply: ReplySlot,
    pub(crate) fds: Fds,
    pub(crate) put: usize,
}

impl<M: Machine> Model for Process<M> {
    ghost use Rattle.proc_table.specs.Slots.{Process as Shown};

    ghost Value = { Shown M.State };

    ghost view = { λ p. record { status = p.status; parent = p.parent; machine = M.view p.machine; reply = p.reply; fds = p.fds; put = p.put } };
}

impl<M: Machine> Process<M> {
    ghost use Rattle.std.specs.Borrow.{Lends, sem};
    ghost use Rattle.std.specs.Prelude.{◌≡◌, ◌+◌, ◌++◌, ◌≤◌, length};
    ghost use Rattle.fd_table.specs.contracts.descriptors.Fds.{the_row as fds_row};
    ghost use Rattle.user_calls.specs.Limits.{block_size};
    ghost use Rattle.user_calls.specs.declared.calls.Reply.TheVariants.{Bytes};
    ghost use Rattle.proc_table.specs.contracts.process.Process.{the_row as process_row};
    ghost use Rattle.proc_table.specs.Answers.{gone_on, reply_of};
    ghost use Rattle.proc_table.specs.Calls.{booted, newborn};

    // A process that is there from the start.
    pub(crate) fn boot(parent: Option<Pid>, machine: M) -> Self
        ensures { result ≡ booted parent (M.view machine) }
    {
        Process {
            status: Status::Runnable,
            parent,
            machine,
            reply: ReplySlot::new(),
            fds: Fds::new(),
            put: 0,
        }
    }

    // A new child.
    pub(crate) fn child(parent: Pid, machine: M, fds: Fds) -> Self
        ensures { result ≡ newborn parent (M.view machine) fds }
    {
        Process {
            status: Status::Runnable,
            parent: Some(parent),
            machine,
            reply: ReplySlot::child(),
            fds,
            put: 0,
        }
    }

    // An equal process.
    fn twin(&self) -> Self
        ensures { result ≡ self.now }
    {
        let mut twin = Process::boot(self.parent, self.machine.twin());
        twin.copy_rest(self);
        twin
    }

    // Becomes equal to the other. A machine in the same state stays: that is looked at sooner than a twin is made.
    fn copy_from(&mut self, other: &Process<M>)
        ensures { self.new ≡ other.now }
    {
        if !self.machine.same(&other.machine) {
            self.machine = other.machine.twin();
        }
        self.copy_rest(other);
    }

    // Becomes equal to the other, but for the machine.
    fn copy_rest(&mut self, other: &Process<M>)
        ensures { self.new ≡ record other.now { machine = self.old.machine } }
    {
        self.status = other.status;
        self.parent = other.parent;
        copy_reply(&mut self.reply, &other.reply);
        self.fds.copy_from(&other.fds);
        self.put = other.put;
    }

    // The machine goes on past its call, and takes this reply next.
    pub(crate) fn answer(&mut self, answer: Answer)
        ensures { self.new ≡ gone_on M.next_of (reply_of answer) self.old }
    {
        self.go_on();
        write_reply(&mut self.reply, answer);
    }

    // Likewise, with the bytes that were read.
    pub(crate) fn answer_bytes(&mut self, bytes: &[u8])
        requires { length bytes.now ≤ block_size }
        ensures { self.new ≡ gone_on M.next_of (Bytes bytes.now) self.old }
    {
        self.go_on();
        self.reply.read(bytes);
    }

    // Likewise, with bytes that lay in two parts.
    pub(crate) fn answer_parts(&mut self, first: &[u8], second: &[u8])
        requires { length first.now + length second.now ≤ block_size }
        ensures { self.new ≡ gone_on M.next_of (Bytes (first.now ++ second.now)) self.old }
    {
        self.go_on();
        self.reply.read(first);
        self.reply.append(second);
    }

    // The machine goes on past its call; the reply stays.
    fn go_on(&mut self)
        ensures { self.new ≡ gone_on M.next_of self.old.reply self.old }
    {
        self.machine.advance(&self.reply);
        self.status = Status::Runnable;
        self.put = 0;
    }

    pub(crate) fn set_status(&mut self, status: Status)
        ensures { self.new ≡ record self.old { status = status } }
    {
        self.status = status;
    }

    pub(crate) fn set_parent(&mut self, parent: Pid)
        ensures { self.new ≡ record self.old { parent = Some parent } }
    {
        self.parent = Some(parent);
    }

    // The descriptors, to be changed.
    fn fds_mut(&mut self) -> &mut Fds
        ensures* lends { sem 𝓛 (Lends (process_row M.row M.State.row M.Machine) fds_row self.entry result (λ fds. record self.old { fds = fds })) }
        ensures value { result.now ≡ self.old.fds }
    {
        &mut self.fds
    }

    pub(crate) fn head(&self) -> Head
        ensures { result ≡ record { status = self.now.status; parent = self.now.parent } }
    {
        Head {
            status: self.status,
            parent: self.parent,
        }
    }
}

// The slot becomes equal to the other.
pub(crate) fn copy_slot<M: Machine>(slot: &mut Option<Process<M>>, other: &Option<Process<M>>)
    ensures { slot.new ≡ other.now }
{
    match other {
        Some(process) => copy_into(slot, process),
        None => empty(slot),
    }
}

// The slot has a process that is equal to this one.
fn copy_into<M: Machine>(slot: &mut Option<Process<M>>, process: &Process<M>)
    ensures { slot.new ≡ Some process.now }
{
    match slot {
        Some(old) => old.copy_from(process),
        None => fill(slot, process),
    }
}

// The slot, which is free, gets a process that is equal to this one. It is apart from `copy_into`, so that its large
// values cost nothing there.
fn fill<M: Machine>(slot: &mut Option<Process<M>>, process: &Process<M>)
    ensures { slot.new ≡ Some process.now }
{
    *slot = Some(process.twin());
}

// The slot becomes free; one that is free isn't written.
fn empty<M: Machine>(slot: &mut Option<Process<M>>)
    ensures { slot.new ≡ None }
{
    if slot.is_some() {
        *slot = None;
    }
}

// The descriptors of the slot's process, to be changed.
pub(crate) fn fds_of<M: Machine>(slot: &mut Option<Process<M>>) -> &mut Fds
    requires { IsSome slot.old }
    ensures* lends { sem 𝓛 (Lends (option_row (process_row M.row M.State.row M.Machine)) fds_row slot.entry result (λ fds. with_fds fds slot.old)) }
    ensures value { IfSome slot.old (λ process. result.now ≡ process.fds) }
{
    match slot {
        Some(process) => process.fds_mut(),
        None => unreachable!(),
    }
}

// The head of the slot's process.
pub(crate) fn head_of<M: Machine>(slot: &Option<Process<M>>) -> Option<Head>
    ensures { result ≡ head_of slot.now }
{
    match slot {
        Some(process) => Some(process.head()),
        None => None,
    }
}

pub(crate) fn is_runnable<M: Machine>(slot: &Option<Process<M>>) -> bool
    ensures { result ≡ is_runnable slot.now }
{
    match slot {
        Some(process) => matches!(process.status, Status::Runnable),
        None => false,
    }
}

pub(crate) fn is_running<M: Machine>(slot: &Option<Process<M>>) -> bool
    ensures { result ≡ is_running slot.now }
{
    match slot {
        Some(process) => matches!(process.status, Status::Running(_)),
        None => false,
    }
}

pub(crate) fn is_running_on<M: Machine>(slot: &Option<Process<M>>, hart: u8) -> bool
    ensures { result ≡ is_running_on hart slot.now }
{
    match slot {
        Some(process) => match process.status {
            Status::Running(other) => hart == other,
            _ => false,
        },
        None => false,
    }
}
