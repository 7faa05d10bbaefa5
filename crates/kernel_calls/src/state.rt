//! The state, and how a call ends.

ghost use Rattle.std.specs.Prelude.{◌≡◌, IfSome, true};
ghost use Rattle.proc_table.specs.Answers.{reply_of};
ghost use Rattle.proc_table.specs.Slots.{at, is_running};

use crate::pipes::Pipes;
use crate::unread::Unread;
use fd_table::OpenFiles;
use kernel_model::Full;
use mem_files::Files;
use proc_table::{Answer, Pid, Procs};
use std::alloc::Allocator;
use std::marker::Model;
use user_calls::Machine;

/// The state of a kernel whose programs are machines `M`.
///
/// Contracts see it as plain data. Its fields are public, so that the crate of the calls may change them; the type has no
/// invariant, and each call requires what it needs (own).
#[derive(Drop)]
pub struct State<M: Machine, A: Allocator> {
    pub procs: Procs<M, A>,
    pub entries: OpenFiles,
    pub pipes: Pipes<A>,
    pub files: Files<A>,
    pub input: Unread<A>,
    pub out: Vec<u8, A>,
    pub diag: Vec<u8, A>,
    pub events: u64,
    pub full: Option<Full>,
}

impl<M: Machine, A: Allocator> Model for State<M, A> {
    ghost use Rattle.kernel_model.specs.KernelState.{KernelState};

    ghost Value = { KernelState M.State };

    ghost view = { λ s. record {
      table = s.procs;
      entries = s.entries;
      pipes = s.pipes;
      files = s.files;
      input = s.input;
      out = s.out.items;
      diag = s.diag.items;
      events = s.events;
      full = s.full;
    } };
}

impl<M: Machine, A: Allocator> State<M, A> {
    ghost use Rattle.kernel_model.specs.Replies.{answered, refused_for};

    /// Ends a call of the running process with this reply: its machine goes on past the call where it lies, and it is
    /// Runnable (`yield`).
    pub fn answer(&mut self, pid: Pid, answer: Answer)
        requires { is_running (at self.old.table pid) ≡ true }
        ensures { IfSome (at self.old.table pid) (λ p. self.new ≡ answered self.old pid (M.next_of p.machine p.reply) (reply_of answer)) }
    {
        self.procs.answer(pid, answer);
    }

    /// Ends a call with `Refused`, because `full` has no room; it is kept if this is the first such refusal (own).
    pub fn refuse(&mut self, pid: Pid, full: Full)
        requires { is_running (at self.old.table pid) ≡ true }
        ensures { IfSome (at self.old.table pid) (λ p. self.new ≡ refused_for self.old pid (M.next_of p.machine p.reply) full) }
    {
        if self.full.is_none() {
            self.full = Some(full);
        }
        self.procs.answer(pid, Answer::Refused);
    }
}
