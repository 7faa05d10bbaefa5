//! What of a kernel is kept and compared.

ghost use Rattle.std.specs.Prelude.{◌≡◌, ◌≢◌, ◌↔◌, IsTrue, IsSome, true, false, map};
ghost use Rattle.proc_table.specs.Slots.{at, is_runnable, is_zombie_child_of};
ghost use Rattle.kernel_model.specs.Anyhow.{bare_slot};
ghost use Rattle.kernel_model.specs.Woke.{woke_slot};
ghost use Rattle.kernel_model.specs.KernelState.{fds_of};
ghost use Rattle.order_search.specs.Shown.{slot_of, AreApart, HasNoWriteEnd, IsReadyCall};

use crate::kept::{AllFiles, Bytes, Entries, Held, Opened, Pipes};
use crate::origin::Ahead;
use crate::pools::{Digest, Same};
use crate::private::{CloseOf, NextCall};
use crate::ranks::{NUMBERS, Ranks};
use crate::renumbering::{Renumbering, are_entries_under, are_slots_under};
use kernel_model::Full;
use mem_files::Files;
use std::alloc::{AllocError, Global};
use std::marker::Model;
use std::rc::Rc;
use user_calls::Machine;

// A kernel as it would be if nobody ran, nothing had happened, and each pipe were called by its place. Slots past the last one of these
// are free.
#[derive(Drop)]
pub struct Look<M: Machine> {
    pub slots: Vec<Option<Rc<Held<M>>>>,
    pub entries: Rc<Entries>,
    pub pipes: Rc<Pipes>,
    pub files: Rc<AllFiles>,
    pub input: Rc<Bytes>,
    pub out: Rc<Bytes>,
    pub diag: Rc<Bytes>,
    pub full: Option<Full>,
    pub digest: u64,
}

impl<M: Machine> Model for Look<M> {
    ghost use Rattle.std.specs.Prelude.{map};
    ghost use Rattle.kernel_model.specs.KernelState.{KernelState};
    ghost use Rattle.order_search.specs.Shown.{filled, slot_of};

    ghost Value = { KernelState M.State };

    ghost view = { λ l. record {
      table = filled 64 (map slot_of l.slots.items);
      entries = l.entries.value;
      pipes = l.pipes.value;
      files = l.files.value;
      input = l.input.value;
      out = l.out.value;
      diag = l.diag.value;
      events = 0;
      full = l.full;
    } };
}

fn same_slot<M: Machine>(slot: &Option<Rc<Held<M>>>, other: &Option<Rc<Held<M>>>) -> bool
    ensures { IsTrue result ↔ (bare_slot (slot_of slot.now) ≡ bare_slot (slot_of other.now)) }
{
    match (slot, other) {
        (None, None) => true,
        (Some(held), Some(other)) => held.same_bare(other),
        _ => false,
    }
}

// Whether the slots of this number are equal, but for who sleeps or runs and for what descriptors hold.
fn same_at<M: Machine>(
    slots: &[Option<Rc<Held<M>>>],
    others: &[Option<Rc<Held<M>>>],
    number: usize,
) -> bool
    ensures { result ≡ false → bare_slot (at (map slot_of slots.now) number) ≢ bare_slot (at (map slot_of others.now) number) }
{
    match (slots.get(number), others.get(number)) {
        (Some(slot), Some(other)) => same_slot(slot, other),
        (Some(slot), None) => !is_used(slot),
        (None, Some(other)) => !is_used(other),
        (None, None) => true,
    }
}

// Whether slots of the same number are equal, but for who sleeps or runs and for what descriptors hold.
fn same_slots<M: Machine>(slots: &[Option<Rc<Held<M>>>], others: &[Option<Rc<Held<M>>>]) -> bool
    ensures { result ≡ false → AreApart (map slot_of slots.now) (map slot_of others.now) }
{
    for number in 0..slots.len().max(others.len()) {
        if !same_at(slots, others, number) {
            return false;
        }
    }
    true
}

fn is_slot_awake<M: Machine>(slot: &Option<Rc<Held<M>>>, other: &Option<Rc<Held<M>>>) -> bool
    ensures { result ≡ true → woke_slot (slot_of slot.now) ≡ woke_slot (slot_of other.now) }
{
    match (slot, other) {
        (None, None) => true,
        (Some(held), Some(other)) => held.same_awake(other),
        _ => false,
    }
}

// Whether the slots are equal, but for who sleeps.
fn are_slots_awake<M: Machine>(
    slots: &[Option<Rc<Held<M>>>],
    others: &[Option<Rc<Held<M>>>],
) -> bool
    ensures { result ≡ true → map woke_slot (map slot_of slots.now) ≡ map woke_slot (map slot_of others.now) }
{
    if slots.len() != others.len() {
        return false;
    }
    for i in 0..slots.len() {
        if !is_slot_awake(&slots[i], &others[i]) {
            return false;
        }
    }
    true
}

impl<M: Machine> Look<M> {
    ghost use Rattle.std.specs.Prelude.{◌≡◌, ◌≢◌, ◌↔◌, IsTrue, IfSome, true, false, map};
    ghost use Rattle.proc_table.specs.Slots.{at, is_runnable};
    ghost use Rattle.kernel_model.specs.Events.{IsFinished};
    ghost use Rattle.kernel_model.specs.Woke.{woke, woke_slot};
    ghost use Rattle.kernel_model.specs.Numbers.{SameButNumbers};
    ghost use Rattle.kernel_model.specs.Anyhow.{bare_table};
    ghost use Rattle.order_search.specs.Under.{AreRenumberedParts};
    ghost use Rattle.kernel_model.specs.Closes.{IsClosedAtOnce, NobodyElseWrites};
    ghost use Rattle.fd_table.specs.Entries.{entry_at, free_count};
    ghost use Rattle.kernel_model.specs.KernelState.{fds_at};
    ghost use Rattle.order_search.specs.Giving.{AreClosedAtOnce, HasZombieChild, IsGiving};
    ghost use Rattle.order_search.specs.Shown.{IsOpenAs};

    // A look at nothing.
    pub fn blank(alloc: Global) -> Result<Look<M>, AllocError> {
        Ok(Look {
            slots: Vec::new(alloc),
            entries: Rc::new(alloc, Entries::of(Vec::new(alloc)))?,
            pipes: Rc::new(alloc, Pipes::of(Vec::new(alloc)))?,
            files: Rc::new(alloc, AllFiles::of(Files::new(alloc)))?,
            input: Rc::new(alloc, Bytes::of(Vec::new(alloc)))?,
            out: Rc::new(alloc, Bytes::of(Vec::new(alloc)))?,
            diag: Rc::new(alloc, Bytes::of(Vec::new(alloc)))?,
            full: None,
            digest: 0,
        })
    }

    // What is kept of a slot, if there is anything.
    pub fn slot(&self, number: usize) -> Option<&Rc<Held<M>>> {
        match self.slots.get(number) {
            Some(Some(held)) => Some(held),
            _ => None,
        }
    }

    // Whether the two are equal, but for who sleeps and for the numbers of entries.
    pub fn is_like(&self, other: &Look<M>) -> bool
        ensures { result ≡ true → SameButNumbers (woke self.now) (woke other.now) }
    {
        if !self.same_rest(other) {
            return false;
        }
        if self.has_same_numbers(other) {
            return true;
        }
        self.is_renumbered(other)
    }

    // Whether the slots are equal, but for who sleeps, and so are the entries.
    fn has_same_numbers(&self, other: &Look<M>) -> bool
        ensures slots { result ≡ true → map woke_slot self.now.table ≡ map woke_slot other.now.table }
        ensures entries { result ≡ true → self.now.entries ≡ other.now.entries }
    {
        if self.entries.digest != other.entries.digest {
            return false;
        }
        if !are_slots_awake(&self.slots, &other.slots) {
            return false;
        }
        self.entries.same(&other.entries)
    }

    // Whether all but the slots and the entries is equal.
    fn same_rest(&self, other: &Look<M>) -> bool
        ensures { result ≡ true → record self.now { table = other.now.table; entries = other.now.entries } ≡ other.now }
    {
        self.full == other.full
            && self.pipes.same(&other.pipes)
            && self.input.same(&other.input)
            && self.out.same(&other.out)
            && self.diag.same(&other.diag)
            && self.files.same(&other.files)
    }

    // Whether the slots and the entries are equal, but for who sleeps and for the numbers of entries.
    fn is_renumbered(&self, other: &Look<M>) -> bool
        ensures { result ≡ true → AreRenumberedParts (map woke_slot self.now.table) (map woke_slot other.now.table) self.now.entries other.now.entries }
    {
        let numbers = Renumbering::between(&self.slots, &other.slots);
        if !numbers.is_one_to_one() {
            return false;
        }
        if !are_slots_under(&numbers.to, &self.slots, &other.slots) {
            return false;
        }
        if !are_entries_under(&numbers.to, &self.entries.slots, &other.entries.slots) {
            return false;
        }
        self.has_as_many_free(other)
    }

    // Whether as many entries are free.
    fn has_as_many_free(&self, other: &Look<M>) -> bool
        ensures { result ≡ true → free_count self.now.entries ≡ free_count other.now.entries }
    {
        match (self.entries.free_count(), other.entries.free_count()) {
            (Some(count), Some(others)) => count == others,
            _ => false,
        }
    }

    // Whether the slots are equal, but for who sleeps or runs and for what descriptors hold.
    pub fn has_same_slots(&self, other: &Look<M>) -> bool
        ensures { result ≡ false → bare_table self.now.table ≢ bare_table other.now.table }
    {
        same_slots(&self.slots, &other.slots)
    }

    // A number, the same for two that are equal but for who sleeps and for the numbers of entries.
    pub fn digest_of(&self) -> u64 {
        let ranks = Ranks::of(&self.slots);
        let mut digest = Digest::new();
        add_slots(&self.slots, &ranks, &mut digest);
        add_entries(&self.entries.slots, &ranks, &mut digest);
        digest.add(self.pipes.digest());
        digest.add(self.files.digest());
        digest.add(self.input.digest());
        digest.add(self.out.digest());
        digest.add(self.diag.digest());
        digest.so_far
    }

    // Whether every slot but init's is free.
    pub fn is_finished(&self) -> bool
        ensures { IsTrue result ↔ IsFinished self.now }
    {
        for i in 1..self.slots.len() {
            if is_used(&self.slots[i]) {
                return false;
            }
        }
        true
    }

    // Whether the process in the slot of this number is Runnable; there is none past the last slot.
    pub fn is_runnable(&self, pid: usize) -> bool
        ensures value { result ≡ is_runnable (at self.now.table pid) }
    {
        pid < self.slots.len() && is_ready(&self.slots[pid])
    }

    // A process that is Runnable and whose turn gives way to nobody's, where so much is free ahead.
    pub fn giving_pid(&self, ahead: Ahead) -> Option<usize>
        ensures { IfSome result (λ pid. IsGiving M.call_of M.next_of ahead self.now pid) }
    {
        for pid in 0..self.slots.len() {
            if self.gives_way(pid, ahead) {
                return Some(pid);
            }
        }
        None
    }

    // Whether that process is one. Of init only a wait is.
    fn gives_way(&self, pid: usize, ahead: Ahead) -> bool
        ensures { result ≡ true → IsGiving M.call_of M.next_of ahead self.now pid }
    {
        if pid >= self.slots.len() {
            return false;
        }
        match ready_call(&self.slots[pid]) {
            NextCall::Private => pid != 0,
            NextCall::Closes(entry) => {
                pid != 0 && ahead.entries && self.is_closed_at_once(pid, entry)
            }
            NextCall::Forks => pid != 0 && ahead.slots,
            NextCall::Waits => ahead.slots && self.has_zombie_child(pid),
            NextCall::Exits => pid != 0 && ahead.entries && self.lets_go_at_once(pid),
            NextCall::Unknown => false,
        }
    }

    // Whether some zombie's parent is that process.
    fn has_zombie_child(&self, pid: usize) -> bool
        ensures { result ≡ true → HasZombieChild self.now.table pid }
    {
        for number in 0..self.slots.len() {
            if is_zombie_child(&self.slots[number], pid) {
                return true;
            }
        }
        false
    }

    // Whether that process can close at once whatever descriptors it holds.
    fn lets_go_at_once(&self, pid: usize) -> bool
        ensures { result ≡ true → AreClosedAtOnce self.now pid (fds_at self.now pid) }
    {
        if pid >= self.slots.len() {
            return false;
        }
        match &self.slots[pid] {
            Some(held) => self.are_closed_at_once(pid, &held.places),
            None => false,
        }
    }

    // Whether that process can close descriptors that hold these entries at once.
    fn are_closed_at_once(&self, pid: usize, places: &[Option<u8>]) -> bool
        ensures { result ≡ true → AreClosedAtOnce self.now pid places.now }
    {
        for fd in 0..places.len() {
            if let Some(number) = places[fd] {
                if !self.is_closed_at_once(pid, number) {
                    return false;
                }
            }
        }
        true
    }

    // Whether that process can close a descriptor of the entry of this number at once.
    fn is_closed_at_once(&self, pid: usize, number: u8) -> bool
        ensures { result ≡ true → IsOpenAs (IsClosedAtOnce self.now pid) (entry_at self.now.entries number) }
    {
        match self.entries.close_of(number) {
            CloseOf::ReadEnd(pipe) => !self.others_write(pid, pipe),
            CloseOf::Other => true,
            CloseOf::Nothing => false,
        }
    }

    // Whether a process but that one has a descriptor of the write end of this pipe.
    fn others_write(&self, pid: usize, pipe: u64) -> bool
        ensures { result ≡ false → NobodyElseWrites self.now pipe pid }
    {
        for other in 0..self.slots.len() {
            if other != pid && writes_to(&self.slots[other], &self.entries, pipe) {
                return true;
            }
        }
        false
    }
}

fn is_used<M: Machine>(slot: &Option<Rc<Held<M>>>) -> bool
    ensures { IsTrue result ↔ IsSome (slot_of slot.now) }
{
    slot.is_some()
}

fn is_ready<M: Machine>(slot: &Option<Rc<Held<M>>>) -> bool
    ensures { result ≡ is_runnable (slot_of slot.now) }
{
    match slot {
        Some(held) => matches!(held.status, proc_table::Status::Runnable),
        None => false,
    }
}

// What is known of the next call of the slot's process, if it is Runnable.
fn ready_call<M: Machine>(slot: &Option<Rc<Held<M>>>) -> NextCall
    ensures { IsReadyCall M.call_of (slot_of slot.now) result }
{
    match slot {
        Some(held) => held.ready_call(),
        None => NextCall::Unknown,
    }
}

// Whether the slot's process is a zombie, whose parent has the slot of this number.
fn is_zombie_child<M: Machine>(slot: &Option<Rc<Held<M>>>, parent: usize) -> bool
    ensures { result ≡ true → is_zombie_child_of parent (slot_of slot.now) ≡ true }
{
    match slot {
        Some(held) => held.is_zombie_of(parent),
        None => false,
    }
}

// Whether the slot's process has a descriptor of the write end of this pipe.
fn writes_to<M: Machine>(slot: &Option<Rc<Held<M>>>, entries: &Entries, pipe: u64) -> bool
    ensures { result ≡ false → HasNoWriteEnd entries.now pipe (fds_of (slot_of slot.now)) }
{
    match slot {
        Some(held) => held.writes_to(entries, pipe),
        None => false,
    }
}

// The slots are added, entries by their ranks.
fn add_slots<M: Machine>(slots: &[Option<Rc<Held<M>>>], ranks: &Ranks, digest: &mut Digest) {
    for slot in slots {
        match slot {
            None => digest.add(0),
            Some(held) => {
                digest.add(held.digest);
                add_places(&held.places, ranks, digest);
            }
        }
    }
}

fn add_places(places: &[Option<u8>], ranks: &Ranks, digest: &mut Digest) {
    for place in places {
        if let Some(number) = place {
            digest.add(u64::from(ranks.rank(*number)));
        }
    }
}

// The entries that descriptors hold are added, in the order of their ranks.
fn add_entries(entries: &[Option<Opened>], ranks: &Ranks, digest: &mut Digest) {
    for rank in 0..NUMBERS.min(ranks.count) {
        if let Some(Some(opened)) = entries.get(usize::from(ranks.numbers[rank])) {
            opened.add_to(digest);
        }
    }
}
