//! Parts that were kept, found by a kernel before it is read: what is found is compared with the kernel.

ghost use Rattle.std.specs.Prelude.{◌≡◌, ◌⊎◌, ℕ, ◌<◌, None, IsSome, length};
ghost use Rattle.fd_table.specs.Entries.{entry_at, count_of};
ghost use Rattle.proc_table.specs.Slots.{at};

use crate::fault::ExploreFault;
use crate::kept::{Entries, Held};
use crate::parts::entry_of;
use crate::pools::Digest;
use crate::unchanged::{are_entries, is_held};
use closed_search::Index;
use fd_table::{Entry, Fds, OpenFiles};
use kernel_calls::State;
use proc_table::{Channel, Pid, State as SlotState};
use std::alloc::{AllocError, Allocator, Global};
use std::rc::Rc;
use user_calls::{Machine, ReplyKind, ReplySlot};

// Processes that were kept, each once, by their sketches.
#[derive(Drop)]
pub struct SeenSlots<M: Machine> {
    kept: Vec<Rc<Held<M>>>,
    index: Index,
}

impl<M: Machine> SeenSlots<M> {
    ghost use Rattle.std.specs.Prelude.{◌≡◌, IfOk, IfSome, Some};
    ghost use Rattle.proc_table.specs.Slots.{at};
    ghost use Rattle.kernel_model.specs.Sound.{IsSound};
    ghost use Rattle.kernel_model.specs.Idle.{idle_slot};
    ghost use Rattle.order_search.specs.Places.{IsOrderly, place_among};

    // Nothing was seen yet.
    pub fn new(alloc: Global) -> SeenSlots<M> {
        SeenSlots {
            kept: Vec::new(alloc),
            index: Index::new(alloc),
        }
    }

    // What was kept of the process, if anything was.
    pub fn find<A: Allocator>(
        &self,
        state: &State<M, A>,
        names: &[u64],
        pid: Pid,
        sketch: u64,
    ) -> Result<Option<Rc<Held<M>>>, ExploreFault>
        requires orderly { IsOrderly state.now }
        requires sound { IsSound state.now.table state.now.entries }
        ensures { IfOk result (λ found. IfSome found (λ held. Some held.value ≡ idle_slot (place_among names.now) (at state.now.table pid))) }
    {
        let mut found = self.index.last(sketch);
        while let Some(place) = found {
            if place < self.kept.len() && is_held(state, names, pid, &self.kept[place])? {
                return Ok(Some(self.kept[place].clone()?));
            }
            found = self.index.older(place);
        }
        Ok(None)
    }

    // The process, of which nothing was kept, is kept.
    pub fn keep(
        &mut self,
        alloc: Global,
        held: Held<M>,
        sketch: u64,
    ) -> Result<Rc<Held<M>>, AllocError>
        ensures { IfOk result (λ kept. kept.value ≡ held) }
    {
        let fresh = Rc::new(alloc, held)?;
        let kept = fresh.clone()?;
        self.index.write(sketch)?;
        self.kept.push(fresh)?;
        Ok(kept)
    }
}

// Entries that were kept, each once, by their sketches.
#[derive(Drop)]
pub struct SeenEntries {
    kept: Vec<Rc<Entries>>,
    index: Index,
}

impl SeenEntries {
    ghost use Rattle.std.specs.Prelude.{◌≡◌, ◌⊎◌, ℕ, ◌<◌, None, IfOk, IfSome, length, map};
    ghost use Rattle.fd_table.specs.Entries.{entry_at, count_of};
    ghost use Rattle.kernel_model.specs.Idle.{renamed_entry};
    ghost use Rattle.order_search.specs.Places.{AreNumbersOf, place_among};

    // Nothing was seen yet.
    pub fn new(alloc: Global) -> SeenEntries {
        SeenEntries {
            kept: Vec::new(alloc),
            index: Index::new(alloc),
        }
    }

    // What was kept of the entries, of which these are the numbers up to the last one that is in use, if anything was.
    pub fn find(
        &self,
        names: &[u64],
        numbers: &[Entry],
        entries: &OpenFiles,
        sketch: u64,
    ) -> Result<Option<Rc<Entries>>, ExploreFault>
        requires numbers { AreNumbersOf entries.now numbers.now }
        requires all { length entries.now ≡ 100 }
        requires counted { (e : ℕ) → (entry_at entries.now e ≡ None) ⊎ (0 < count_of (entry_at entries.now e)) }
        ensures { IfOk result (λ found. IfSome found (λ kept. kept.value ≡ map (renamed_entry (place_among names.now)) entries.now)) }
    {
        let mut found = self.index.last(sketch);
        while let Some(place) = found {
            if place < self.kept.len() && are_entries(names, numbers, entries, &self.kept[place])? {
                return Ok(Some(self.kept[place].clone()?));
            }
            found = self.index.older(place);
        }
        Ok(None)
    }

    // The entries, of which nothing was kept, are kept.
    pub fn keep(
        &mut self,
        alloc: Global,
        entries: Entries,
        sketch: u64,
    ) -> Result<Rc<Entries>, AllocError>
        ensures { IfOk result (λ kept. kept.value ≡ entries) }
    {
        let fresh = Rc::new(alloc, entries)?;
        let kept = fresh.clone()?;
        self.index.write(sketch)?;
        self.kept.push(fresh)?;
        Ok(kept)
    }
}

// A number, the same for processes of which the same is kept.
pub fn sketch_of<M: Machine, A: Allocator>(state: &State<M, A>, pid: Pid) -> u64
    requires { IsSome (at state.now.table pid) }
{
    let mut digest = Digest::new();
    digest.add(state.procs.parent(pid).index() as u64);
    digest.add(state.procs.put(pid) as u64);
    digest.add(state_number(state.procs.state(pid)));
    add_fds(state.procs.fds(pid), &mut digest);
    add_reply(state.procs.reply(pid), &mut digest);
    digest.so_far
}

fn state_number(state: SlotState) -> u64 {
    match state {
        SlotState::Free => 0,
        SlotState::Runnable | SlotState::Running(_) => 1,
        SlotState::Asleep(Channel::PipeBytes(_)) => 2,
        SlotState::Asleep(Channel::PipeRoom(_)) => 3,
        SlotState::Asleep(Channel::Children(_)) => 4,
        SlotState::Zombie => 5,
    }
}

fn add_fds(fds: &Fds, digest: &mut Digest) {
    for fd in 0..16usize {
        match entry_of(fds, fd) {
            None => digest.add(0),
            Some(number) => digest.add(u64::from(number) + 1),
        }
    }
}

fn add_reply(reply: &ReplySlot, digest: &mut Digest) {
    match reply.kind() {
        ReplyKind::Start => digest.add(0),
        ReplyKind::Child => digest.add(1),
        ReplyKind::Done => digest.add(2),
        ReplyKind::Bytes => digest.add_bytes(reply.bytes()),
        ReplyKind::Fd(fd) => digest.add(fd as u64),
        ReplyKind::Ends(reader, writer) => {
            digest.add(reader as u64);
            digest.add(writer as u64);
        }
        ReplyKind::Refused => digest.add(3),
    }
}

// A number, the same for entries of which the same is kept.
pub fn sketch_of_entries(numbers: &[Entry], entries: &OpenFiles) -> u64
    requires all { length entries.now ≡ 100 }
    requires counted { (e : ℕ) → (entry_at entries.now e ≡ None) ⊎ (0 < count_of (entry_at entries.now e)) }
{
    let mut digest = Digest::new();
    for number in numbers {
        let count = entries.count(*number);
        digest.add(u64::from(count));
        if count > 0 {
            digest.add(entries.offset(*number));
        }
    }
    digest.so_far
}
