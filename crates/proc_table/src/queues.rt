//! The queues of the harts, and the lists of the sleepers.

use crate::channels::Channels;
use crate::heads::Head;
use crate::{Channel, HARTS, PROCS, Pid, Status};
use slot_lists::SlotLists;
use std::marker::Model;

// The first of the lists of sleepers; before it stand the queues of the eight harts.
const SLEEPERS: usize = 8;

// The Runnable processes, in the queues of the harts, and the sleeping ones, in the lists of their channels.
//
// A channel has a list while somebody sleeps on it. There are as many as slots, so there is one for each channel.
#[derive(Drop)]
pub(crate) struct Queues {
    lists: SlotLists,
    channels: Channels,
    // The hart on which a process ran last; of one that hasn't run yet, its parent's.
    last: [u8; PROCS],
}

impl Model for Queues {
    ghost use Rattle.std.specs.Prelude.{ℕ, List};
    ghost use Rattle.proc_table.specs.Queues.{AreHarts};
    ghost use Rattle.proc_table.specs.Queues.{Queues as Shown};

    ghost Value = { Shown };

    ghost view = { λ q. record { lists = q.lists; channels = q.channels; last = q.last } };

    ghost invariant = { λ q. AreHarts q.last };
}

impl Queues {
    ghost use Rattle.std.specs.Prelude.{◌≡◌, ◌≢◌, ℕ, ◌+◌, ◌<◌, List, Option, Some, None, IfNone, IfSome, length, replicate, slice_get, slice_index, slice_set, true, false};
    ghost use Rattle.slot_lists.specs.Links.{has, slots_of};
    ghost use Rattle.proc_table.specs.declared.heads.Head.{Head as ShownHead};
    ghost use Rattle.proc_table.specs.declared.states.Status.TheVariants.{Asleep};
    ghost use Rattle.proc_table.specs.declared.pid.TheConstants.{PROCS};
    ghost use Rattle.proc_table.specs.declared.table.TheConstants.{HARTS};
    ghost use Rattle.proc_table.specs.Slots.{is_asleep_on_status, is_runnable_status};
    ghost use Rattle.proc_table.specs.Heads.{IsOnHart, head_at, head_has};
    ghost use Rattle.proc_table.specs.Channels.{channel_of};
    ghost use Rattle.proc_table.specs.Queues.{AreQueued, sleepers_of};

    // Nothing stands in a list.
    pub(crate) fn new() -> Self
        ensures { AreQueued (replicate PROCS None) result }
    {
        Queues {
            lists: SlotLists::new(),
            channels: Channels::new(),
            last: all_on_the_first(),
        }
    }

    // Becomes equal to the others.
    pub(crate) fn copy_from(&mut self, other: &Queues)
        ensures { self.new ≡ other.now }
    {
        self.lists.copy_from(&other.lists);
        self.channels.copy_from(&other.channels);
        self.last.copy_from_slice(&other.last);
    }

    // The slot's process changes from `was` to `head`: the slot moves to the end of another list, or stays where it
    // stands.
    pub(crate) fn put(&mut self, slot: usize, was: &Option<Head>, head: &Option<Head>)
        requires within { slot < PROCS }
        requires on_hart { IsOnHart head.now }
        ensures { (heads : List (Option ShownHead)) → AreQueued heads self.old → head_at heads slot ≡ was.now → AreQueued (slice_set heads slot head.now) self.new }
    {
        if !waits_on(was, head) {
            self.take_out(slot);
            self.remember(slot, was, head);
            self.put_in(slot, head);
        }
    }

    // The Runnable slot that the hart takes: the first of its own queue, else of the first queue after it that isn't
    // empty.
    pub(crate) fn next(&self, hart: u8) -> Option<usize>
        requires { hart < HARTS }
        ensures within { IfSome result (λ slot. slot < PROCS) }
        ensures some { (heads : List (Option ShownHead)) → AreQueued heads self.now → IfSome result (λ slot. head_has is_runnable_status (head_at heads slot) ≡ true) }
        ensures none { (heads : List (Option ShownHead)) → AreQueued heads self.now → IfNone result ((slot : ℕ) → head_has is_runnable_status (head_at heads slot) ≡ false) }
    {
        for away in 0..HARTS {
            if let Some(slot) = self.lists.first(((hart + away) % HARTS) as usize) {
                return Some(slot);
            }
        }
        None
    }

    // The slot that has slept longest on the channel: the first of the channel's list.
    pub(crate) fn sleeper(&self, channel: &Channel) -> Option<usize>
        ensures within { IfSome result (λ slot. slot < PROCS) }
        ensures first { (heads : List (Option ShownHead)) (list : ℕ) → AreQueued heads self.now → channel_of self.now.channels list ≡ Some channel.now → result ≡ slice_get (sleepers_of self.now.lists list) 0 }
        ensures some { (heads : List (Option ShownHead)) → AreQueued heads self.now → IfSome result (λ slot. head_has (is_asleep_on_status channel.now) (head_at heads slot) ≡ true) }
        ensures none { (heads : List (Option ShownHead)) → AreQueued heads self.now → IfNone result ((slot : ℕ) → head_has (is_asleep_on_status channel.now) (head_at heads slot) ≡ false) }
    {
        let list = self.channels.find(channel)?;
        self.lists.first(SLEEPERS + list)
    }

    // Takes the slot out of the list that it stands in, if any. A channel's list that is then empty is nobody's.
    fn take_out(&mut self, slot: usize)
        requires { slot < PROCS }
        ensures out { (list : ℕ) → list < 72 → has (slots_of self.new.lists list) slot ≡ false }
        ensures after { (heads : List (Option ShownHead)) → AreQueued heads self.old → AreQueued (slice_set heads slot None) self.new }
    {
        let Some(list) = self.lists.list_with(slot) else {
            return;
        };
        self.lists.remove(slot);
        if list >= SLEEPERS && self.lists.first(list).is_none() {
            self.channels.release(list - SLEEPERS);
        }
    }

    // Puts the slot, which stands in no list, at the end of the one in which its process waits, if it does.
    fn put_in(&mut self, slot: usize, head: &Option<Head>)
        requires within { slot < PROCS }
        requires out { (list : ℕ) → list < 72 → has (slots_of self.old.lists list) slot ≡ false }
        ensures { (heads : List (Option ShownHead)) → AreQueued heads self.old → head_at heads slot ≡ None → AreQueued (slice_set heads slot head.now) self.new }
    {
        if let Some(head) = head {
            match &head.status {
                Status::Runnable => self.lists.push(self.last[slot] as usize, slot),
                Status::Asleep(channel) => self.put_asleep(slot, channel),
                _ => {}
            }
        }
    }

    // Puts the slot, which stands in no list, at the end of the channel's. Where 63 others sleep, at most 63 lists are in
    // use, so there is one for it.
    fn put_asleep(&mut self, slot: usize, channel: &Channel)
        requires within { slot < PROCS }
        requires out { (list : ℕ) → list < 72 → has (slots_of self.old.lists list) slot ≡ false }
        ensures { (heads : List (Option ShownHead)) (head : ShownHead) → AreQueued heads self.old → head_at heads slot ≡ None → head.status ≡ Asleep channel.now → AreQueued (slice_set heads slot (Some head)) self.new }
    {
        if let Some(list) = self.channels.claim(channel) {
            self.lists.push(SLEEPERS + list, slot);
        }
    }

    // Remembers the hart that the process runs on, or that a new one's parent ran on last.
    fn remember(&mut self, slot: usize, was: &Option<Head>, head: &Option<Head>)
        requires within { slot < PROCS }
        requires on_hart { IsOnHart head.now }
        ensures lists { self.new.lists ≡ self.old.lists }
        ensures channels { self.new.channels ≡ self.old.channels }
        ensures others { (other : ℕ) → other ≢ slot → slice_index self.new.last other ≡ slice_index self.old.last other }
    {
        if let Some(process) = head {
            if let Status::Running(hart) = process.status {
                self.last[slot] = hart;
            } else if was.is_none() {
                self.last[slot] = match process.parent {
                    Some(parent) => self.last[parent.index()],
                    None => 0,
                };
            }
        }
    }
}

ghost use Rattle.std.specs.Prelude.{◌≡◌, Bool, true};
ghost use Rattle.proc_table.specs.declared.states.Status.{Status as ShownStatus};
ghost use Rattle.proc_table.specs.Heads.{head_has};
ghost use Rattle.proc_table.specs.Queues.{AreHarts};

// Hart 0 for each slot.
fn all_on_the_first() -> [u8; PROCS]
    ensures { AreHarts result }
{
    [0; PROCS]
}

// Whether the process waits both times, and for the same: where it stands then is right.
fn waits_on(was: &Option<Head>, head: &Option<Head>) -> bool
    ensures { result ≡ true → (test : ShownStatus → Bool) → head_has test was.now ≡ head_has test head.now }
{
    match (was, head) {
        (Some(was), Some(head)) => match (was.status, head.status) {
            (Status::Runnable, Status::Runnable) => true,
            (Status::Asleep(channel), Status::Asleep(other)) => channel.is(other),
            _ => false,
        },
        _ => false,
    }
}
