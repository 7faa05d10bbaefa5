//! A kernel that harts share.

ghost use Rattle.std.specs.Prelude.{◌≡◌, ◌≢◌, ◌<◌, ◌≤◌, ◌+◌, ◌↔◌, IsTrue, IfOk, OnErr, Ok, Err, Some, None, [], length, vec_len};
ghost use Rattle.kernel_events.specs.Harts.{AreCounts};
ghost use Rattle.kernel_threads.specs.Boots.{number_of};
ghost use Rattle.kernel_threads.specs.Events.{AreOfHarts};
ghost use Rattle.kernel_threads.specs.Reports.{IsFinishedFrom, IsSoFarFrom};
ghost use Rattle.kernel_threads.specs.Seats.{all_events, events_of, first_seats};
ghost use Rattle.kernel_threads.specs.Turns.{IsSaid};

use crate::faults::{RunFault, range_fault};
use crate::gates::Gate;
use crate::locked::Locked;
use crate::naming::Run;
use crate::pace::{BATCH, Pace, Tick};
use crate::passing::run_task;
use crate::seats::Seat;
use kernel_events::{Kernel, Report};
use std::alloc::{AllocError, Global};
use std::sync::ledger::Blank;
use std::sync::{Mutex, Wait};
use std::time::Clock;
use user_calls::Machine;

/// What a turn came to.
#[derive(Clone, Copy, Debug, PartialEq, Eq)]
pub enum Turn {
    /// The run is finished.
    Finished,
    /// Fewer than two turns are left beside those of the traps that running processes owe.
    Spent,
    /// Two such turns are left, and no process is Runnable or the hart still runs one.
    Idle,
    /// A process ran on the hart from one call to the next, and the call was carried out.
    Stepped,
    /// A process ran, and its call was not one that the kernel waits for. No turn is known that ends so.
    Lost,
}

/// A kernel that the harts of the run `N` share, under a lock.
#[derive(Drop)]
pub struct Shared<N: Run, M: Machine> {
    lock: Mutex<Locked<N, M>>,
}

impl<N: Run, M: Machine> Shared<N, M> {
    ghost use Rattle.kernel_threads.specs.Ranges.{AreBadHarts, AreBadTurns};
    ghost use Rattle.kernel_threads.specs.declared.faults.RunFault.TheVariants.{BadHarts, BadTurns, Spent};
    ghost use Rattle.kernel_threads.specs.declared.sharing.Turn.TheVariants.{Lost};

    /// Shares a kernel in which nothing has happened, and gives a seat for each of so many harts. `blank` is a new ledger
    /// with a part for each seat.
    ///
    /// A refused call drops the kernel. The faults are `BadHarts`, `BadTurns` and `Memory`, and come in this order.
    pub fn start(
        alloc: Global,
        blank: Blank,
        kernel: Kernel<M, Global>,
        harts: u8,
        turns: u64,
    ) -> Result<(Shared<N, M>, Vec<Seat<N>>), RunFault>
        requires name { blank.name ≡ N.name }
        requires parts { (blank.parts ≡ N.parts) × (N.parts ≡ harts) }
        requires harts { harts ≡ N.harts }
        requires turns { turns ≡ N.turns }
        requires boot { number_of M.code kernel.boot ≡ N.boot }
        requires fresh { kernel.schedule ≡ [] }
        ensures seats { IfOk result (λ started. started.1.items ≡ first_seats harts) }
        ensures count { IfOk result (λ started. vec_len started.1 ≡ harts) }
        ensures events { IfOk result (λ started. all_events started.1.items ≡ 0) }
        ensures bad_harts { (result ≡ Err BadHarts) ↔ AreBadHarts harts }
        ensures bad_turns { (result ≡ Err BadTurns) ↔ ((AreBadHarts harts → ⊥) × AreBadTurns turns) }
        ensures not_spent { result ≡ Err Spent → ⊥ }
    {
        if let Some(fault) = range_fault(harts, turns) {
            return Err(fault);
        }
        let (counts, mut all) = blank.open::<N>();
        let Ok(seats) = Seat::take_all(alloc, &mut all, harts) else {
            return Err(RunFault::Memory);
        };
        let shared = Shared::of(Locked::new(kernel, turns, counts, all));
        Ok((shared, seats))
    }

    /// One turn of a seat: a process begins to run on its hart, runs its user code outside the lock, and its call is
    /// carried out.
    ///
    /// `AllocError`, with nothing changed, where the schedule gets no room. May wait for the lock.
    pub fn turn<R: Wait, G: Gate>(
        &self,
        rt: &R,
        seat: &mut Seat<N>,
        gate: &G,
    ) -> Result<Turn, AllocError>
        ensures hart { seat.new.hart ≡ seat.old.hart }
        ensures events { IfOk result (λ turn. seat.new.events ≡ seat.old.events + events_of turn) }
        ensures said { IfOk result (IsSaid M.code M.call_of M.next_of N.boot N.turns seat.old.hart) }
        ensures err { OnErr result (seat.new ≡ seat.old) }
    {
        let mut guard = self.lock.lock(rt);
        guard.is_run();
        let pid = match guard.begin(seat)? {
            Ok(pid) => pid,
            Err(turn) => return Ok(turn),
        };
        let task = guard.task(seat, pid);
        drop(guard);
        let mut twin = task.machine.twin();
        let call = run_task(rt, seat, &task, gate, &mut twin);
        if self.lock.lock(rt).trap(seat, &task, &call, twin) {
            Ok(Turn::Stepped)
        } else {
            Ok(Turn::Lost)
        }
    }

    // Turns of the hart of the seat, one after the other, the kernel being locked once for all: until its tick is over, or one
    // comes to something else than a call. It returns what the last came to.
    pub(crate) fn tick<R: Wait + Clock>(
        &self,
        rt: &R,
        seat: &mut Seat<N>,
        pace: &mut Pace,
    ) -> Result<Turn, AllocError>
        ensures { seat.new.hart ≡ seat.old.hart }
    {
        let mut guard = self.lock.lock(rt);
        let mut tick = Tick::begin(rt);
        for _ in rt.forever() {
            match guard.steps(seat, BATCH)? {
                Turn::Stepped => {}
                turn => return Ok(turn),
            }
            if !tick.goes_on(rt, pace) {
                return Ok(Turn::Stepped);
            }
        }
        unreachable!()
    }

    /// What the run leaves, when all seats come back. Takes no memory, and never waits.
    pub fn close(self, seats: Vec<Seat<N>>) -> Report<Global>
        requires { vec_len seats ≡ N.parts }
        ensures run { IsSoFarFrom M.code M.call_of M.next_of N.boot result }
        ensures finished { IsTrue result.finished → IsFinishedFrom M.code M.call_of M.next_of N.boot result }
        ensures events { length result.schedule ≡ all_events seats.items }
        ensures by_hart { AreCounts result.by_hart result.schedule }
        ensures harts { AreOfHarts N.harts result.schedule }
        ensures turns { length result.schedule ≤ N.turns }
    {
        let mut locked = self.into_locked();
        locked.audit(seats);
        locked.into_report()
    }

    // The kernel without its lock.
    pub(crate) fn into_locked(self) -> Locked<N, M> {
        self.lock.into_inner()
    }

    // The kernel under a lock.
    pub(crate) fn of(locked: Locked<N, M>) -> Self {
        Shared {
            lock: Mutex::new(locked),
        }
    }
}
