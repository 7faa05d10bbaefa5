//! The kernel that harts share, as it is under its lock.

ghost use Rattle.std.specs.Prelude.{◌≡◌, ◌≢◌, ◌<◌, ◌≤◌, ◌+◌, ◌*◌, ◌↔◌, IsTrue, IfOk, IfErr, IfSome, OnErr, None, Some, Ok, [], ℕ, false, All, is_some, is_ok, true, if◌then◌else◌, length, count_by, vec_len};
ghost use Rattle.std.specs.Bool.{OnFalse, OnTrue};
ghost use Rattle.proc_table.specs.Slots.{at, is_running, is_running_on, is_runnable};
ghost use Rattle.kernel_model.specs.Events.{IsFinished, run};
ghost use Rattle.kernel_events.specs.Harts.{AreCounts};
ghost use Rattle.kernel_model.specs.History.{IsOwed, IsTask};
ghost use Rattle.kernel_model.specs.Events.{is_dispatch};
ghost use Rattle.kernel_threads.specs.Boots.{number_of};
ghost use Rattle.kernel_threads.specs.Events.{AreOfHarts};
ghost use Rattle.kernel_threads.specs.Reports.{IsFinishedFrom, IsSoFarFrom};
ghost use Rattle.kernel_threads.specs.Seats.{all_events, events_of};
ghost use Rattle.kernel_threads.specs.Turns.{Says};

use crate::naming::Run;
use crate::seats::Seat;
use crate::sharing::Turn;
use kernel_events::{Kernel, Report, Task};
use proc_table::Pid;
use std::alloc::{AllocError, Allocator, Global};
use std::marker::Model;
use std::sync::ledger::{Book, Share};
use user_calls::{Call, Machine};

/// The kernel of a run, with the count of its events and the number of its turns. There is a turn for each event, and for
/// the trap of each process that runs.
///
/// Contracts see the kernel.
#[derive(Drop)]
pub struct Locked<N: Run, M: Machine> {
    kernel: Kernel<M, Global>,
    turns: u64,
    counts: Book<N>,
    rest: Share<N>,
}

impl<N: Run, M: Machine> Model for Locked<N, M> {
    ghost use Rattle.std.specs.Prelude.{◌≡◌, ◌≤◌, ◌*◌, length, count_by};
    ghost use Rattle.kernel_model.specs.History.{History};
    ghost use Rattle.kernel_model.specs.Events.{is_dispatch};
    ghost use Rattle.kernel_threads.specs.Boots.{number_of};
    ghost use Rattle.kernel_threads.specs.Events.{AreOfHarts};

    ghost Value = { History M.State };

    ghost view = { λ l. l.kernel };

    ghost invariant = { λ l. (number_of M.code l.kernel.boot ≡ N.boot) × (l.turns ≡ N.turns) × (2 * count_by is_dispatch l.kernel.schedule ≤ N.turns) × AreOfHarts N.harts l.kernel.schedule
        × (length l.kernel.schedule ≡ l.counts.total) × (l.rest.parts ≡ 0) × (l.rest.amount ≡ 0) };
}

// How a run stands when no hart takes a turn.
#[derive(Clone, Copy)]
pub(crate) enum Verdict {
    // Only init is left.
    Finished,
    // The run isn't finished, no process runs, and fewer than two turns are left.
    Spent,
    // Memory was refused to a hart.
    Starved,
    // The harts have to go on.
    GoesOn,
}

impl<N: Run, M: Machine> Locked<N, M> {
    ghost use Rattle.run_model.specs.Turns.{IsSpent};
    ghost use Rattle.kernel_model.specs.History.{GoesOn};
    ghost use Rattle.kernel_model.specs.declared.events.Event.TheVariants.{Dispatch, Trap};
    ghost use Rattle.kernel_threads.specs.declared.sharing.Turn.TheVariants.{Finished, Lost, Spent};

    // A kernel in which nothing has happened.
    pub(crate) fn new(
        kernel: Kernel<M, Global>,
        turns: u64,
        counts: Book<N>,
        rest: Share<N>,
    ) -> Self
        requires boot { number_of M.code kernel.boot ≡ N.boot }
        requires turns { turns ≡ N.turns }
        requires fresh { kernel.schedule ≡ [] }
        requires counts { counts.total ≡ 0 }
        requires rest { (rest.parts ≡ 0) × (rest.amount ≡ 0) }
        ensures { result ≡ kernel }
    {
        Locked {
            kernel,
            turns,
            counts,
            rest,
        }
    }

    // How many turns are left beside those of the traps that are owed.
    fn left(&self) -> u64
        ensures { result + length self.now.schedule + count_by is_running self.now.now.table ≡ N.turns }
    {
        self.kernel.is_paired();
        let taken = self.kernel.schedule().len() as u64;
        let owed = self.kernel.running() as u64;
        self.turns - taken - owed
    }

    // Why no hart takes a turn any more, if so.
    pub(crate) fn over(&self) -> Option<Turn>
        ensures finished { (result ≡ Some Finished) ↔ IsFinished self.now.now }
        ensures spent { result ≡ Some Spent → (IsFinished self.now.now → ⊥) × (N.turns < length self.now.schedule + count_by is_running self.now.now.table + 2) }
        ensures left { result ≡ None → length self.now.schedule + count_by is_running self.now.now.table + 2 ≤ N.turns }
        ensures no_event { IfSome result (λ turn. events_of turn ≡ 0) }
        ensures says { IfSome result (λ turn. (h : ℕ) → Says N.turns h turn self.now.now self.now.schedule) }
    {
        if self.kernel.is_finished() {
            return Some(Turn::Finished);
        }
        if self.left() < 2 {
            return Some(Turn::Spent);
        }
        None
    }

    // A process begins to run on the hart of the seat, if one is Runnable and the hart runs nothing.
    pub(crate) fn dispatch(&mut self, seat: &mut Seat<N>) -> Result<Option<Pid>, AllocError>
        requires { length self.old.schedule + count_by is_running self.old.now.table + 2 ≤ N.turns }
        ensures hart { seat.new.hart ≡ seat.old.hart }
        ensures events { IfOk result (λ found. seat.new.events ≡ seat.old.events + (if is_some found then 1 else 0)) }
        ensures event { IfOk result (λ found. IfSome found (λ pid. GoesOn M.call_of M.next_of self.old (Dispatch seat.old.hart pid) self.new)) }
        ensures runs { IfOk result (λ found. IfSome found (λ pid. is_running_on seat.old.hart (at self.new.now.table pid) ≡ true)) }
        ensures idle { result ≡ Ok None → self.new ≡ self.old }
        ensures none { result ≡ Ok None → All (λ slot. is_running_on seat.old.hart slot ≡ false) self.old.now.table → All (λ slot. is_runnable slot ≡ false) self.old.now.table }
        ensures err { OnErr result ((seat.new ≡ seat.old) × (self.new ≡ self.old)) }
    {
        self.kernel.is_paired();
        if !self.kernel.is_idle(seat.hart()) {
            return Ok(None);
        }
        let found = self.kernel.dispatch_next(seat.hart())?;
        if found.is_some() {
            seat.count(&mut self.counts);
        }
        Ok(found)
    }

    // The next process begins to run on the hart of the seat; or why none does.
    pub(crate) fn begin(&mut self, seat: &mut Seat<N>) -> Result<Result<Pid, Turn>, AllocError>
        ensures hart { seat.new.hart ≡ seat.old.hart }
        ensures events { IfOk result (λ next. seat.new.events ≡ seat.old.events + (if is_ok next then 1 else 0)) }
        ensures event { IfOk result (λ next. IfOk next (λ pid. GoesOn M.call_of M.next_of self.old (Dispatch seat.old.hart pid) self.new)) }
        ensures runs { IfOk result (λ next. IfOk next (λ pid. is_running_on seat.old.hart (at self.new.now.table pid) ≡ true)) }
        ensures no_event { IfOk result (λ next. IfErr next (λ turn. events_of turn ≡ 0)) }
        ensures found { IfOk result (λ next. IfErr next (λ turn. turn ≢ Lost)) }
        ensures says { IfOk result (λ next. IfErr next (λ turn. Says N.turns seat.old.hart turn self.old.now self.old.schedule)) }
        ensures err { OnErr result ((seat.new ≡ seat.old) × (self.new ≡ self.old)) }
    {
        if let Some(turn) = self.over() {
            return Ok(Err(turn));
        }
        match self.dispatch(seat)? {
            Some(pid) => Ok(Ok(pid)),
            None => Ok(Err(Turn::Idle)),
        }
    }

    // What the hart of the seat needs to run the process, which runs there.
    pub(crate) fn task(&self, seat: &Seat<N>, pid: Pid) -> Task<M>
        requires { is_running_on seat.now.hart (at self.now.now.table pid) ≡ true }
        ensures pid { result.pid ≡ pid }
        ensures task { IsTask (at self.now.now.table pid) (M.view result.machine) result.reply }
    {
        self.kernel.task(pid)
    }

    // The call that the machine of a task made, and the machine after it, come back to the kernel. It returns whether the call
    // was carried out; where the process doesn't run on the hart of the seat, or the task isn't its own, nothing changes.
    pub(crate) fn trap(&mut self, seat: &mut Seat<N>, task: &Task<M>, call: &Call, after: M) -> bool
        requires call { call.now ≡ M.call_of (M.view task.now.machine) task.now.reply }
        requires after { M.view after ≡ M.next_of (M.view task.now.machine) task.now.reply }
        ensures hart { seat.new.hart ≡ seat.old.hart }
        ensures events { seat.new.events ≡ seat.old.events + (if result then 1 else 0) }
        ensures owed { IsTrue result ↔ IsOwed seat.old.hart (at self.old.now.table task.now.pid) (record { before = M.view task.now.machine; reply = task.now.reply }) }
        ensures event { OnTrue result (GoesOn M.call_of M.next_of self.old (Trap seat.old.hart task.now.pid) self.new) }
        ensures same { OnFalse result (self.new ≡ self.old) }
    {
        let done = self
            .kernel
            .trap_task(seat.hart(), task, call, after)
            .is_ok();
        if done {
            seat.count(&mut self.counts);
        }
        done
    }

    // The process, which runs on the hart of the seat, makes its call in the kernel's hands, and the call is carried out. It
    // returns whether it was; where it wasn't, nothing changes.
    fn make_call(&mut self, seat: &mut Seat<N>, pid: Pid) -> bool
        ensures hart { seat.new.hart ≡ seat.old.hart }
        ensures events { seat.new.events ≡ seat.old.events + (if result then 1 else 0) }
        ensures event { OnTrue result (GoesOn M.call_of M.next_of self.old (Trap seat.old.hart pid) self.new) }
        ensures same { OnFalse result (self.new ≡ self.old) }
    {
        let done = self.kernel.trap_pid(seat.hart(), pid.index());
        if done {
            seat.count(&mut self.counts);
        }
        done
    }

    // A whole turn of the hart of the seat with the kernel in its hands: the next process begins to run there, and its call is
    // carried out.
    pub(crate) fn step(&mut self, seat: &mut Seat<N>) -> Result<Turn, AllocError>
        ensures hart { seat.new.hart ≡ seat.old.hart }
        ensures events { IfOk result (λ turn. seat.new.events ≡ seat.old.events + events_of turn) }
        ensures says { IfOk result (λ turn. Says N.turns seat.old.hart turn self.old.now self.old.schedule) }
        ensures err { OnErr result ((seat.new ≡ seat.old) × (self.new ≡ self.old)) }
    {
        let pid = match self.begin(seat)? {
            Ok(pid) => pid,
            Err(turn) => return Ok(turn),
        };
        if self.make_call(seat, pid) {
            Ok(Turn::Stepped)
        } else {
            Ok(Turn::Lost)
        }
    }

    // So many such turns, or fewer where one comes to something else: what the last came to.
    pub(crate) fn steps(&mut self, seat: &mut Seat<N>, most: u32) -> Result<Turn, AllocError>
        ensures hart { seat.new.hart ≡ seat.old.hart }
    {
        for _ in 0..most {
            match self.step(seat)? {
                Turn::Stepped => {}
                turn => return Ok(turn),
            }
        }
        Ok(Turn::Stepped)
    }

    // The seats, which are all, have made the events.
    pub(crate) fn audit(&mut self, seats: Vec<Seat<N>>)
        requires { vec_len seats ≡ N.parts }
        ensures same { self.new ≡ self.old }
        ensures events { length self.new.schedule ≡ all_events seats.items }
    {
        let mut all = self.rest.empty();
        let mut seats = seats;
        while let Some(seat) = seats.pop() {
            all.merge(seat.into_share());
        }
        self.counts.audit(&mut all);
    }

    // How the run stands now that no hart takes a turn; memory was refused to one of them if `starved`.
    pub(crate) fn verdict(&self, starved: bool) -> Verdict
        ensures finished { result ≡ Verdict.Finished → IsFinished self.now.now }
        ensures starved { result ≡ Verdict.Starved → starved ≡ true }
        ensures goes_on { result ≡ Verdict.GoesOn → starved ≡ false }
        ensures spent { result ≡ Verdict.Spent → IsSpent N.turns self.now.now self.now.schedule × (N.turns < length self.now.schedule + 2) }
    {
        self.kernel.is_paired();
        match self.over() {
            Some(Turn::Finished) => Verdict::Finished,
            Some(Turn::Spent) if self.kernel.running() == 0 => Verdict::Spent,
            _ if starved => Verdict::Starved,
            _ => Verdict::GoesOn,
        }
    }

    // The state is the one that the schedule leads to from the start of the run.
    pub(crate) fn is_run(&self)
        ensures boot { number_of M.code self.now.boot ≡ N.boot }
        ensures run { run M.call_of M.next_of (Some self.now.boot) self.now.schedule self.now.notes ≡ Some self.now.now }
    {
        self.kernel.replays();
    }

    // What the run leaves.
    pub(crate) fn into_report(self) -> Report<Global>
        ensures run { IsSoFarFrom M.code M.call_of M.next_of N.boot result }
        ensures finished { IsFinished self.now → IsFinishedFrom M.code M.call_of M.next_of N.boot result }
        ensures told { IsTrue result.finished ↔ IsFinished self.now }
        ensures schedule { result.schedule ≡ self.schedule }
        ensures by_hart { AreCounts result.by_hart result.schedule }
        ensures harts { AreOfHarts N.harts result.schedule }
        ensures turns { length result.schedule ≤ N.turns }
    {
        self.kernel.is_paired();
        self.kernel.replays();
        self.kernel.into_report()
    }
}
