//! Kernels on the way to the one that is looked at, so that few turns lead from one of them to the next one.

ghost use Rattle.std.specs.Prelude.{◌≡◌, ◌++◌, ◌∷◌, [], IfOk, OnOk};

use crate::fault::ExploreFault;
use crate::origin::{Origin, remake, turn_by};
use kernel_calls::State;
use std::alloc::{AllocError, Allocator, Global};
use std::boxed::Box;
use std::marker::Model;
use user_calls::{CallSlot, Machine};

// How many stops are made at most on the way to a kernel: each is half the way from the one before, or more.
const MAX_STOPS: usize = 64;

// With how many stops it is looked whether some stand close together.
const MANY_STOPS: usize = 32;

// The most events of a run, two a turn.
const MAX_EVENTS: u64 = 2_000_000_000;

// A kernel to which turns of these processes lead. While it is written it is not whole.
#[derive(Drop)]
pub struct Stop<'t, M: Machine, C: Allocator> {
    origin: &'t Origin<'t, M, C>,
    pids: Vec<u8>,
    kernel: Box<State<M, Global>>,
    whole: bool,
}

impl<'t, M: Machine, C: Allocator> Model for Stop<'t, M, C> {
    ghost use Rattle.std.specs.Prelude.{◌≡◌, true};
    ghost use Rattle.order_search.specs.Led.{start_kernel, IsStop, Led};

    ghost Value = { Led M.State };

    ghost view = { λ s. record {
      start = start_kernel (M.view s.origin.now.init) (M.view s.origin.now.shell) s.origin.now.stdin.now s.origin.now.files.now;
      pids = s.pids.items;
      now = s.kernel.value;
    } };

    ghost invariant = { λ s. s.whole ≡ true → IsStop M.call_of M.next_of (start_kernel (M.view s.origin.now.init) (M.view s.origin.now.shell) s.origin.now.stdin.now s.origin.now.files.now) s.pids.items s.kernel.value };
}

impl<'t, M: Machine, C: Allocator> Stop<'t, M, C> {
    ghost use Rattle.std.specs.Prelude.{◌≡◌, true};
    ghost use Rattle.order_search.specs.Led.{start_kernel, IsStop};

    // The kernel at its start.
    fn start(alloc: Global, origin: &'t Origin<'t, M, C>) -> Result<Self, ExploreFault> {
        let kernel = boxed(alloc, remake(alloc, origin, &[])?)?;
        Ok(Stop {
            origin,
            pids: Vec::new(alloc),
            kernel,
            whole: true,
        })
    }

    // Becomes equal to the other.
    fn copy_from(&mut self, other: &Self) -> Result<(), AllocError> {
        self.whole = false;
        self.origin = other.origin;
        self.pids.clear();
        self.pids.extend_from_slice(&other.pids)?;
        self.kernel.copy_from(&other.kernel)?;
        self.whole = other.whole;
        Ok(())
    }

    // The process in the slot of this number takes a turn.
    fn turn(&mut self, pid: u8, call: &mut CallSlot) -> Result<(), ExploreFault> {
        if !self.whole || self.kernel.events >= MAX_EVENTS {
            return Err(ExploreFault::TooLong);
        }
        self.whole = false;
        turn_by(&mut *self.kernel, pid, call)?;
        push_pid(&mut self.pids, pid)?;
        self.whole = true;
        Ok(())
    }

    // Whether it is where turns of these processes lead from this origin.
    fn is_at(&self, origin: &Origin<'_, M, C>, pids: &[u8]) -> bool
        ensures { result ≡ true → IsStop M.call_of M.next_of (start_kernel (M.view origin.now.init) (M.view origin.now.shell) origin.now.stdin.now origin.now.files.now) pids.now self.now.now }
    {
        self.whole && self.pids.as_slice() == pids && self.origin.same(origin)
    }

    // The kernel.
    pub fn kernel(&self) -> &State<M, Global>
        ensures { result.now ≡ self.now.now }
    {
        &self.kernel
    }
}

fn push_pid(pids: &mut Vec<u8>, pid: u8) -> Result<(), AllocError>
    ensures { OnOk result (pids.new.items ≡ pids.old.items ++ pid ∷ []) }
{
    pids.push(pid)?;
    Ok(())
}

// The state, where it doesn't move.
fn boxed<M: Machine>(
    alloc: Global,
    state: State<M, Global>,
) -> Result<Box<State<M, Global>>, AllocError>
    ensures { IfOk result (λ kernel. kernel.value ≡ state) }
{
    Ok(Box::new(alloc, state)?)
}

// The stops that were made last, each on the way to the next one, the first at the start; and stops to be written over.
#[derive(Drop)]
pub struct Trail<'t, M: Machine, C: Allocator> {
    stops: Vec<Stop<'t, M, C>>,
    spare: Vec<Stop<'t, M, C>>,
}

impl<'t, M: Machine, C: Allocator> Trail<'t, M, C> {
    ghost use Rattle.std.specs.Prelude.{IfOk};
    ghost use Rattle.order_search.specs.Led.{start_kernel, IsStop};

    // A trail without stops.
    pub fn new(alloc: Global) -> Self {
        Trail {
            stops: Vec::new(alloc),
            spare: Vec::new(alloc),
        }
    }

    // Makes the stop where turns of these processes lead the last one. Where they are one more than those of the last one, it goes on there:
    // who asks for them has just come from it, and mostly won't come back.
    pub fn lead(
        &mut self,
        alloc: Global,
        origin: &'t Origin<'t, M, C>,
        pids: &[u8],
        call: &mut CallSlot,
    ) -> Result<(), ExploreFault> {
        if self.stops.is_empty() {
            let start = Stop::start(alloc, origin)?;
            self.push(start)?;
        }
        if self.is_one_turn_away(pids) {
            return self.go_one_turn(pids, call);
        }
        self.turn_back(pids)?;
        if self.stops.len() > MANY_STOPS {
            self.thin_out(pids.len())?;
        }
        for _stop in 0..MAX_STOPS {
            let done = self.done();
            if done >= pids.len() {
                break;
            }
            let rest = (pids.len() - done).div_ceil(2);
            self.go_on(alloc, origin, &pids[done..done + rest], call)?;
        }
        Ok(())
    }

    // The last stop, where turns of these processes lead; `TooLong` where it isn't there.
    pub fn stop_at(
        &self,
        origin: &Origin<'_, M, C>,
        pids: &[u8],
    ) -> Result<&Stop<'t, M, C>, ExploreFault>
        ensures { IfOk result (λ stop. IsStop M.call_of M.next_of (start_kernel (M.view origin.now.init) (M.view origin.now.shell) origin.now.stdin.now origin.now.files.now) pids.now stop.now.now) }
    {
        match self.stops.last() {
            Some(stop) if stop.is_at(origin, pids) => Ok(stop),
            _ => Err(ExploreFault::TooLong),
        }
    }

    // Whether one more turn leads from the last stop, not the first, to where turns of these processes lead.
    fn is_one_turn_away(&self, pids: &[u8]) -> bool {
        match self.stops.last() {
            Some(stop) => {
                self.stops.len() > 1
                    && pids.len() > stop.pids.len()
                    && pids.len() - stop.pids.len() == 1
                    && pids.starts_with(stop.pids.as_slice())
            }
            None => false,
        }
    }

    // The last stop goes on by the last one of these turns.
    fn go_one_turn(&mut self, pids: &[u8], call: &mut CallSlot) -> Result<(), ExploreFault> {
        if let Some(pid) = pids.last() {
            if let Some(mut stop) = self.stops.pop() {
                stop.turn(*pid, call)?;
                self.push(stop)?;
            }
        }
        Ok(())
    }

    // How many turns lead to the last stop.
    fn done(&self) -> usize {
        match self.stops.last() {
            Some(stop) => stop.pids.len(),
            None => 0,
        }
    }

    // Gives up the last stops that aren't on the way to where turns of these processes lead.
    fn turn_back(&mut self, pids: &[u8]) -> Result<(), AllocError> {
        for _stop in 0..self.stops.len() {
            if self.is_on_the_way(pids) {
                break;
            }
            if let Some(stop) = self.stops.pop() {
                self.spare.push(stop)?;
            }
        }
        Ok(())
    }

    // Gives up stops that stand close together, as seen from where so many turns lead, so that few are left: some two for each half of
    // the way, of the rest of it, and so on.
    fn thin_out(&mut self, end: usize) -> Result<(), AllocError> {
        let mut before: usize = 0;
        while before.saturating_add(2) < self.stops.len() {
            if self.stands_close(before, end) {
                let stop = self.stops.remove(before + 1);
                self.spare.push(stop)?;
            } else {
                before += 1;
            }
        }
        Ok(())
    }

    // Whether the stop at the place and the second one after it are nearer to one another than that one is to where so many turns lead.
    fn stands_close(&self, before: usize, end: usize) -> bool {
        match (
            self.stops.get(before),
            self.stops.get(before.saturating_add(2)),
        ) {
            (Some(before), Some(after)) => {
                let between = after.pids.len().saturating_sub(before.pids.len());
                between < end.saturating_sub(after.pids.len())
            }
            _ => false,
        }
    }

    // Whether the last stop is on the way to where turns of these processes lead.
    fn is_on_the_way(&self, pids: &[u8]) -> bool {
        match self.stops.last() {
            Some(stop) => pids.starts_with(stop.pids.as_slice()),
            None => true,
        }
    }

    // Goes on from the last stop to the next one, by turns of these processes.
    fn go_on(
        &mut self,
        alloc: Global,
        origin: &'t Origin<'t, M, C>,
        pids: &[u8],
        call: &mut CallSlot,
    ) -> Result<(), ExploreFault> {
        let mut stop = match self.spare.pop() {
            Some(stop) => stop,
            None => Stop::start(alloc, origin)?,
        };
        if let Some(last) = self.stops.last() {
            stop.copy_from(last)?;
        }
        for pid in pids {
            stop.turn(*pid, call)?;
        }
        self.push(stop)?;
        Ok(())
    }

    // The stop is the last one.
    fn push(&mut self, stop: Stop<'t, M, C>) -> Result<(), AllocError> {
        self.stops.push(stop)?;
        Ok(())
    }
}
