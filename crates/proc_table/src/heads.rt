//! The states and the parents of the processes, apart from their machines: all that is searched, without a scan.

use crate::queues::Queues;
use crate::{Channel, HARTS, PROCS, Pid, Status};
use slot_lists::SlotGroups;
use std::marker::Model;

// A process but for its machine and what goes with that.
#[derive(Clone, Copy)]
pub struct Head {
    pub(crate) status: Status,
    // `None` for init alone.
    pub(crate) parent: Option<Pid>,
}

// The head of each slot, `None` where it is free, and by what they are searched: the slots by their states, by the harts
// that they run on and by their parents, and those that wait in their queues.
#[derive(Drop)]
pub(crate) struct Heads {
    heads: [Option<Head>; PROCS],
    states: SlotGroups<STATES>,
    harts: SlotGroups<8>,
    children: SlotGroups<PROCS>,
    queues: Queues,
}

// The numbers of the states as groups.
const FREE: usize = 0;

const RUNNABLE: usize = 1;

const RUNNING: usize = 2;

const ASLEEP: usize = 3;

const ZOMBIE: usize = 4;

const STATES: usize = 5;

impl Model for Heads {
    ghost use Rattle.std.specs.Prelude.{List, Option};
    ghost use Rattle.proc_table.specs.declared.heads.Head.{Head};
    ghost use Rattle.proc_table.specs.Searched.{AreSearched};

    ghost Value = { List (Option Head) };

    ghost view = { λ h. h.heads };

    ghost invariant = { λ h. AreSearched h.heads h.states h.harts h.children h.queues };
}

impl Heads {
    ghost use Rattle.std.specs.Prelude.{◌≡◌, ℕ, ◌<◌, ◌≤◌, ◌↔◌, All, IfNone, IfSome, IsTrue, None, count_by, position, replicate, slice_set, true, false};
    ghost use Rattle.proc_table.specs.declared.pid.TheConstants.{PROCS};
    ghost use Rattle.proc_table.specs.declared.table.TheConstants.{HARTS};
    ghost use Rattle.proc_table.specs.Slots.{is_asleep_on_status, is_runnable_status, is_running_on_status, is_running_status};
    ghost use Rattle.proc_table.specs.Heads.{IsOnHart, boot_heads, with_parent, head_at, head_has, head_is_child_of, head_is_free, head_is_zombie_child_of};

    // Init and the top shell, its child, are there, and both are Runnable, init first.
    pub(crate) fn new() -> Self
        ensures { result ≡ boot_heads }
    {
        let mut heads = Heads::empty();
        heads.put(
            0,
            Some(Head {
                status: Status::Runnable,
                parent: None,
            }),
        );
        heads.put(
            1,
            Some(Head {
                status: Status::Runnable,
                parent: Some(Pid::init()),
            }),
        );
        heads
    }

    // All slots are free.
    fn empty() -> Self
        ensures { result ≡ replicate PROCS None }
    {
        Heads {
            heads: no_heads(),
            states: SlotGroups::filled(FREE),
            harts: SlotGroups::new(),
            children: SlotGroups::new(),
            queues: Queues::new(),
        }
    }

    // Becomes equal to the others.
    pub(crate) fn copy_from(&mut self, other: &Heads)
        ensures { self.new ≡ other.now }
    {
        self.heads.copy_from_slice(&other.heads);
        self.states.copy_from(&other.states);
        self.harts.copy_from(&other.harts);
        self.children.copy_from(&other.children);
        self.queues.copy_from(&other.queues);
    }

    // Gives the slot this head, or makes it free.
    pub(crate) fn put(&mut self, index: usize, head: Option<Head>)
        requires within { index < PROCS }
        requires on_hart { IsOnHart head }
        ensures { self.new ≡ slice_set self.old index head }
    {
        let was = self.heads[index];
        self.states
            .put(index, Some(state_number(&was)), Some(state_number(&head)));
        self.harts.put(index, hart_of(&was), hart_of(&head));
        self.children.put(index, parent_of(&was), parent_of(&head));
        self.queues.put(index, &was, &head);
        self.heads[index] = head;
    }

    // Gives the slot's process, if there is one, this parent.
    pub(crate) fn give(&mut self, index: usize, parent: Pid)
        requires { index < PROCS }
        ensures { self.new ≡ slice_set self.old index (with_parent parent (head_at self.old index)) }
    {
        if let Some(head) = self.heads[index] {
            self.put(
                index,
                Some(Head {
                    status: head.status,
                    parent: Some(parent),
                }),
            );
        }
    }

    // The number of the lowest free slot.
    pub(crate) fn free(&self) -> Option<usize>
        ensures value { result ≡ position head_is_free self.now }
        ensures within { IfSome result (λ index. index < PROCS) }
    {
        self.states.first(FREE)
    }

    // The number of the lowest child of a process.
    pub(crate) fn child(&self, pid: Pid) -> Option<usize>
        ensures value { result ≡ position (head_is_child_of pid) self.now }
        ensures within { IfSome result (λ index. index < PROCS) }
    {
        self.children.first(pid.index())
    }

    // The number of the lowest child that is a zombie.
    pub(crate) fn zombie_child(&self, pid: Pid) -> Option<usize>
        ensures value { result ≡ position (head_is_zombie_child_of pid) self.now }
        ensures within { IfSome result (λ index. index < PROCS) }
    {
        self.children
            .set(pid.index())
            .and(self.states.set(ZOMBIE))
            .first()
    }

    // The number of the lowest slot that runs on the hart.
    pub(crate) fn running_on(&self, hart: u8) -> Option<usize>
        ensures value { result ≡ position (head_has (is_running_on_status hart)) self.now }
        ensures within { IfSome result (λ index. index < PROCS) }
    {
        if hart < HARTS {
            self.harts.first(hart as usize)
        } else {
            None
        }
    }

    // The number of the slot that has slept longest on the channel.
    pub(crate) fn sleeper(&self, channel: &Channel) -> Option<usize>
        ensures within { IfSome result (λ index. index < PROCS) }
        ensures some { IfSome result (λ index. head_has (is_asleep_on_status channel.now) (head_at self.now index) ≡ true) }
        ensures none { IfNone result ((index : ℕ) → head_has (is_asleep_on_status channel.now) (head_at self.now index) ≡ false) }
    {
        self.queues.sleeper(channel)
    }

    // The number of a Runnable slot, for this hart.
    pub(crate) fn next(&self, hart: u8) -> Option<usize>
        requires { hart < HARTS }
        ensures within { IfSome result (λ index. index < PROCS) }
        ensures some { IfSome result (λ index. head_has is_runnable_status (head_at self.now index) ≡ true) }
        ensures none { IfNone result ((index : ℕ) → head_has is_runnable_status (head_at self.now index) ≡ false) }
    {
        self.queues.next(hart)
    }

    pub(crate) fn is_idle(&self, hart: u8) -> bool
        ensures { IsTrue result ↔ All (λ head. head_has (is_running_on_status hart) head ≡ false) self.now }
    {
        self.running_on(hart).is_none()
    }

    pub(crate) fn running(&self) -> usize
        ensures count { result ≡ count_by (head_has is_running_status) self.now }
        ensures within { result ≤ PROCS }
    {
        self.states.count(RUNNING)
    }

    pub(crate) fn runnable(&self) -> usize
        ensures count { result ≡ count_by (head_has is_runnable_status) self.now }
        ensures within { result ≤ PROCS }
    {
        self.states.count(RUNNABLE)
    }

    // How many slots are free.
    pub(crate) fn free_slots(&self) -> usize
        ensures count { result ≡ count_by head_is_free self.now }
        ensures within { result ≤ PROCS }
    {
        self.states.count(FREE)
    }
}

ghost use Rattle.std.specs.Prelude.{◌≡◌, Some, None, replicate};
ghost use Rattle.proc_table.specs.declared.pid.TheConstants.{PROCS};
ghost use Rattle.proc_table.specs.Heads.{hart_key, parent_key, state_key};

// No processes.
fn no_heads() -> [Option<Head>; PROCS]
    ensures { result ≡ replicate PROCS None }
{
    [None; PROCS]
}

// The group of the slot's state.
fn state_number(head: &Option<Head>) -> usize
    ensures { Some result ≡ state_key head.now }
{
    match head {
        None => FREE,
        Some(head) => match head.status {
            Status::Runnable => RUNNABLE,
            Status::Running(_) => RUNNING,
            Status::Asleep(_) => ASLEEP,
            Status::Zombie => ZOMBIE,
        },
    }
}

// The hart that the slot's process runs on.
fn hart_of(head: &Option<Head>) -> Option<usize>
    ensures { result ≡ hart_key head.now }
{
    match head {
        Some(head) => match head.status {
            Status::Running(hart) => Some(hart as usize),
            _ => None,
        },
        None => None,
    }
}

// The slot of the parent of the slot's process.
fn parent_of(head: &Option<Head>) -> Option<usize>
    ensures { result ≡ parent_key head.now }
{
    match head {
        Some(head) => match head.parent {
            Some(parent) => Some(parent.index()),
            None => None,
        },
        None => None,
    }
}
