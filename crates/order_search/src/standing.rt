//! Nodes of the search: each stands for a kernel, and knows how it came there.

ghost use Rattle.std.specs.Prelude.{◌≡◌, ◌++◌, ◌∷◌, [], IfOk};

use crate::fault::ExploreFault;
use crate::looks::Look;
use crate::origin::{Origin, remake};
use crate::reading::Reader;
use crate::trail::Trail;
use closed_search::Node;
use kernel_calls::State;
use proc_table::PROCS;
use std::alloc::{AllocError, Allocator, Global};
use std::marker::Model;
use std::snapshot::Snapshot;
use user_calls::{CallSlot, Machine};

// What nodes are made with: what was kept so far, the way to the last kernel, and a call that is written over.
#[derive(Drop)]
pub struct Tools<'t, M: Machine, C: Allocator> {
    alloc: Global,
    reader: Reader<M>,
    trail: Trail<'t, M, C>,
    call: CallSlot,
}

impl<'t, M: Machine, C: Allocator> Tools<'t, M, C> {
    // Tools that were not used yet.
    pub fn new(alloc: Global) -> Result<Self, ExploreFault> {
        Ok(Tools {
            alloc,
            reader: Reader::new(alloc)?,
            trail: Trail::new(alloc),
            call: CallSlot::new(),
        })
    }

    // Makes the stop where turns of these processes lead.
    fn lead(&mut self, origin: &'t Origin<'t, M, C>, pids: &[u8]) -> Result<(), ExploreFault> {
        self.trail.lead(self.alloc, origin, pids, &mut self.call)
    }
}

// A kernel that turns of these processes lead to.
#[derive(Drop)]
pub struct Standing<'t, M: Machine, C: Allocator> {
    origin: &'t Origin<'t, M, C>,
    pub pids: Vec<u8>,
    pub look: Look<M>,
    kernel: Snapshot<State<M, Global>>,
    // Whether a turn was taken that led to other slots.
    is_busy: bool,
}

impl<'t, M: Machine, C: Allocator> Model for Standing<'t, M, C> {
    ghost use Rattle.order_search.specs.Led.{start_kernel};
    ghost use Rattle.order_search.specs.Led.{Led, IsLed};

    ghost Value = { Led M.State };

    ghost view = { λ n. record {
      start = start_kernel (M.view n.origin.now.init) (M.view n.origin.now.shell) n.origin.now.stdin.now n.origin.now.files.now;
      pids = n.pids.items;
      now = n.kernel.value;
    } };

    ghost invariant = { λ n. IsLed M.call_of M.next_of (start_kernel (M.view n.origin.now.init) (M.view n.origin.now.shell) n.origin.now.stdin.now n.origin.now.files.now) n.origin.now.ahead n.pids.items n.kernel.value n.look n.is_busy };
}

impl<'t, M: Machine, C: Allocator> Standing<'t, M, C> {
    ghost use Rattle.std.specs.Prelude.{◌≡◌, Some, IfOk};
    ghost use Rattle.order_search.specs.Led.{start_kernel};
    ghost use Rattle.order_search.specs.Room.{HasAhead};
    ghost use Rattle.kernel_model.specs.Turns.{after_turns};

    // The kernel after turns of these processes.
    pub fn begin(
        tools: &mut Tools<'t, M, C>,
        origin: &'t Origin<'t, M, C>,
        pids: &[u8],
    ) -> Result<Self, ExploreFault>
        requires { HasAhead M.call_of M.next_of origin.now.ahead (start_kernel (M.view origin.now.init) (M.view origin.now.shell) origin.now.stdin.now origin.now.files.now) }
        ensures { IfOk result (λ node. after_turns M.call_of M.next_of (start_kernel (M.view origin.now.init) (M.view origin.now.shell) origin.now.stdin.now origin.now.files.now) pids.now ≡ Some node.now) }
    {
        let state = remake(tools.alloc, origin, pids)?;
        let blank = Look::blank(tools.alloc)?;
        let look = tools.reader.read(&state, &blank)?;
        let taken = Vec::from_slice(tools.alloc, pids)?;
        Ok(Standing {
            origin,
            pids: taken,
            look,
            kernel: Snapshot::of(&state),
            is_busy: false,
        })
    }
}

impl<'t, M: Machine, C: Allocator> Standing<'t, M, C> {
    ghost use Rattle.std.specs.Prelude.{◌≡◌, Ok, true, false};
    ghost use Rattle.kernel_model.specs.Explored.{IsBusy, IsFinishedOrBusy};

    // Whether it isn't finished, and each turn leaves the slots as they are, but for who sleeps and for what descriptors hold.
    pub fn is_stuck(&self, tools: &mut Tools<'t, M, C>) -> Result<bool, ExploreFault>
        ensures { result ≡ Ok false → IsFinishedOrBusy M.call_of M.next_of self.now.now }
    {
        if self.look.is_finished() {
            return Ok(false);
        }
        if self.is_busy {
            return Ok(false);
        }
        for number in 0..PROCS {
            if self.is_moved(tools, number)? {
                return Ok(false);
            }
        }
        Ok(true)
    }

    // Whether a turn of the process in the slot of this number leads to other slots.
    fn is_moved(&self, tools: &mut Tools<'t, M, C>, number: usize) -> Result<bool, ExploreFault>
        ensures { result ≡ Ok true → IsBusy M.call_of M.next_of self.now.now }
    {
        match self.next(tools, number)? {
            None => Ok(false),
            Some(node) => Ok(!self.look.has_same_slots(&node.look)),
        }
    }

    // The processes of the turns that lead to it, and then each one that is Runnable there.
    pub fn with_ready(&self, alloc: Global) -> Result<Vec<u8>, AllocError> {
        let mut pids = Vec::from_slice(alloc, &self.pids)?;
        for number in 0..PROCS {
            if self.look.is_runnable(number) {
                pids.push(number as u8)?;
            }
        }
        Ok(pids)
    }
}

impl<'t, M: Machine, C: Allocator> Standing<'t, M, C> {
    ghost use Rattle.std.specs.Prelude.{◌≡◌, ℕ, Some, IfOk, option_map};
    ghost use Rattle.kernel_model.specs.Turns.{after_turn};
    ghost use Rattle.order_search.specs.Led.{kernel_of};

    // The node after a turn of the process in the slot of this number; `None` where it can't take one.
    fn next(&self, tools: &mut Tools<'t, M, C>, number: usize) -> Result<Option<Self>, ExploreFault>
        ensures { IfOk result (λ found. option_map kernel_of found ≡ after_turn M.call_of M.next_of self.now.now number) }
    {
        if !self.look.is_runnable(number) {
            return Ok(None);
        }
        let Ok(pid) = u8::try_from(number) else {
            return Err(ExploreFault::TooLong);
        };
        Ok(Some(self.turned(tools, pid)?))
    }

    // Notes whether the slots differ at the node after a turn of the process in the slot of this number.
    fn note(&mut self, number: usize, next: &Self)
        requires { after_turn M.call_of M.next_of self.old.now number ≡ Some next.now.now }
        ensures { self.new ≡ self.old }
    {
        if !self.is_busy && !self.look.has_same_slots(&next.look) {
            self.is_busy = true;
        }
    }

    // The node after a turn of this process.
    fn turned(&self, tools: &mut Tools<'t, M, C>, pid: u8) -> Result<Self, ExploreFault>
        ensures { IfOk result (λ node. after_turn M.call_of M.next_of self.now.now pid ≡ Some node.now) }
    {
        let pids = longer(tools.alloc, &self.pids, pid)?;
        tools.lead(self.origin, &pids)?;
        let stop = tools.trail.stop_at(self.origin, &pids)?;
        let state = stop.kernel();
        let look = tools.reader.read(state, &self.look)?;
        let kernel = Snapshot::of(state);
        Ok(Standing {
            origin: self.origin,
            pids,
            look,
            kernel,
            is_busy: false,
        })
    }
}

// These processes, and then this one.
fn longer(alloc: Global, pids: &[u8], pid: u8) -> Result<Vec<u8>, AllocError>
    ensures { IfOk result (λ longer. longer.items ≡ pids.now ++ pid ∷ []) }
{
    let mut longer = Vec::with_capacity(alloc, pids.len().saturating_add(1))?;
    longer.extend_from_slice(pids)?;
    longer.push(pid)?;
    Ok(longer)
}

impl<'t, M: Machine, C: Allocator> Node for Standing<'t, M, C> {
    ghost use Rattle.law_turns.proofs.entry_numbers.Numberings.{same_itself};
    ghost use Rattle.kernel_model.specs.Key.{key};
    ghost use Rattle.kernel_model.specs.KernelState.{KernelState};
    ghost use Rattle.kernel_model.specs.Woke.{woke};
    ghost use Rattle.kernel_model.specs.Anyhow.{SameKeyAnyhow};
    ghost use Rattle.kernel_model.specs.Giving.{GivesWay};
    ghost use Rattle.kernel_model.specs.Turns.{after_turn};

    ghost State = { KernelState M.State };

    ghost state = { λ n. n.now };

    ghost step = { after_turn M.call_of M.next_of };

    ghost stands = { SameKeyAnyhow };

    ghost private = { GivesWay M.call_of M.next_of };

    ghost itself = { λ k. same_itself (key (woke k)) };

    type Tools = Tools<'t, M, C>;

    type Fault = ExploreFault;

    fn leads_nowhere(&self, step_number: usize) -> bool {
        !self.look.is_runnable(step_number)
    }

    fn after(
        &mut self,
        tools: &mut Tools<'t, M, C>,
        step_number: usize,
    ) -> Result<Option<Self>, ExploreFault> {
        let found = self.next(tools, step_number)?;
        if let Some(next) = &found {
            self.note(step_number, next);
        }
        Ok(found)
    }

    fn private_move(&self) -> Option<usize> {
        if self.origin.is_full {
            None
        } else {
            self.look.giving_pid(self.origin.ahead)
        }
    }

    fn is_like(&self, other: &Self) -> bool {
        self.look.is_like(&other.look)
    }

    fn digest(&self) -> u64 {
        self.look.digest
    }
}
