//! A kernel is read.

ghost use Rattle.std.specs.Prelude.{◌≡◌, ℕ, ◌≤◌, ◌++◌, ◌∷◌, [], IfOk, IfSome, OnOk, Some, None, true, map};
ghost use Rattle.proc_table.specs.Slots.{at};
ghost use Rattle.kernel_model.specs.Sound.{IsSound};
ghost use Rattle.kernel_model.specs.Idle.{idle_slot};
ghost use Rattle.order_search.specs.Places.{IsOrderly, place_among};
ghost use Rattle.order_search.specs.Shown.{slot_of};

use crate::fault::ExploreFault;
use crate::kept::{AllFiles, Bytes, Entries, Held, Pipes};
use crate::looks::Look;
use crate::numbers::Numbers;
use crate::parts::{numbers_in_use, read_entries, read_pipes, read_slot};
use crate::places::names_of;
use crate::pools::Pool;
use crate::seen::{SeenEntries, SeenSlots, sketch_of, sketch_of_entries};
use crate::unchanged::{are_entries, is_held};
use fd_table::OpenFiles;
use kernel_calls::{State, Unread};
use mem_files::Files;
use proc_table::Pid;
use std::alloc::{AllocError, Allocator, Global};
use std::rc::Rc;
use user_calls::{CallSlot, Machine};

// What was kept so far, the numbers of the entries, and a call to be written over.
#[derive(Drop)]
pub struct Reader<M: Machine> {
    pub alloc: Global,
    numbers: Numbers,
    slots: SeenSlots<M>,
    entries: SeenEntries,
    pipes: Pool<Pipes>,
    files: Pool<AllFiles>,
    bytes: Pool<Bytes>,
    call: CallSlot,
}

impl<M: Machine> Reader<M> {
    ghost use Rattle.std.specs.Prelude.{◌≡◌, ◌⊎◌, ℕ, ◌<◌, IfOk, None, length, map};
    ghost use Rattle.fd_table.specs.Entries.{entry_at, count_of};
    ghost use Rattle.proc_table.specs.Slots.{at};
    ghost use Rattle.kernel_model.specs.Sound.{IsSound};
    ghost use Rattle.kernel_model.specs.Idle.{idle_slot, renamed_entry};
    ghost use Rattle.kernel_model.specs.Key.{key};
    ghost use Rattle.order_search.specs.Shown.{filled, slot_of};
    ghost use Rattle.order_search.specs.Places.{IsOrderly, names_in, place_among};

    // A reader that has read nothing.
    pub fn new(alloc: Global) -> Result<Reader<M>, AllocError> {
        Ok(Reader {
            alloc,
            numbers: Numbers::new(alloc)?,
            slots: SeenSlots::new(alloc),
            entries: SeenEntries::new(alloc),
            pipes: Pool::new(alloc),
            files: Pool::new(alloc),
            bytes: Pool::new(alloc),
            call: CallSlot::new(),
        })
    }

    fn read_bytes(&mut self, bytes: &[u8], before: &Rc<Bytes>) -> Result<Rc<Bytes>, AllocError>
        ensures { IfOk result (λ kept. kept.value ≡ bytes.now) }
    {
        if before.bytes.as_slice() == bytes {
            return before.clone();
        }
        let bytes = Vec::from_slice(self.alloc, bytes)?;
        self.bytes.keep(self.alloc, Bytes::of(bytes))
    }

    fn read_input<A: Allocator>(
        &mut self,
        input: &Unread<A>,
        before: &Rc<Bytes>,
    ) -> Result<Rc<Bytes>, ExploreFault>
        ensures { IfOk result (λ kept. kept.value ≡ input.now) }
    {
        let bytes = input.first(usize::MAX);
        if bytes.len() == usize::MAX {
            return Err(ExploreFault::TooLong);
        }
        Ok(self.read_bytes(bytes, before)?)
    }

    fn read_files<A: Allocator>(
        &mut self,
        files: &Files<A>,
        before: &Rc<AllFiles>,
    ) -> Result<Rc<AllFiles>, AllocError>
        ensures { IfOk result (λ kept. kept.value ≡ files.now) }
    {
        if before.files.same(files) {
            return before.clone();
        }
        let Ok(files) = files.copy(self.alloc) else {
            return Err(AllocError);
        };
        self.files.keep(self.alloc, AllFiles::of(files))
    }

    fn read_slot<A: Allocator>(
        &mut self,
        state: &State<M, A>,
        names: &[u64],
        number: usize,
        before: &Look<M>,
    ) -> Result<Option<Rc<Held<M>>>, ExploreFault>
        requires orderly { IsOrderly state.now }
        requires sound { IsSound state.now.table state.now.entries }
        requires within { number < 64 }
        ensures { IfOk result (λ slot. slot_of slot ≡ idle_slot (place_among names.now) (at state.now.table number)) }
    {
        let Some(pid) = Pid::new(number) else {
            return Ok(None);
        };
        if !state.procs.is_used(pid) {
            return Ok(None);
        }
        if let Some(held) = unchanged(state, names, pid, before)? {
            return Ok(Some(held));
        }
        let sketch = sketch_of(state, pid);
        if let Some(held) = self.slots.find(state, names, pid, sketch)? {
            return Ok(Some(held));
        }
        self.read_anew(state, names, pid, sketch)
    }

    // Reads a slot of which nothing was kept. (Apart, since what is read is a large value, for which a function makes room when it begins.)
    fn read_anew<A: Allocator>(
        &mut self,
        state: &State<M, A>,
        names: &[u64],
        pid: Pid,
        sketch: u64,
    ) -> Result<Option<Rc<Held<M>>>, ExploreFault>
        requires orderly { IsOrderly state.now }
        requires sound { IsSound state.now.table state.now.entries }
        ensures { IfOk result (λ slot. slot_of slot ≡ idle_slot (place_among names.now) (at state.now.table pid)) }
    {
        match read_slot(self.alloc, state, names, pid, &mut self.call)? {
            None => Ok(None),
            Some(held) => Ok(Some(self.slots.keep(self.alloc, held, sketch)?)),
        }
    }

    fn read_slots<A: Allocator>(
        &mut self,
        state: &State<M, A>,
        names: &[u64],
        before: &Look<M>,
    ) -> Result<Vec<Option<Rc<Held<M>>>>, ExploreFault>
        requires orderly { IsOrderly state.now }
        requires sound { IsSound state.now.table state.now.entries }
        ensures { IfOk result (λ slots. filled 64 (map slot_of slots.items) ≡ map (idle_slot (place_among names.now)) state.now.table) }
    {
        let count = slots_in_use(state);
        let mut slots = Vec::with_capacity(self.alloc, count)?;
        for number in 0..count {
            let slot = self.read_slot(state, names, number, before)?;
            push_slot(&mut slots, slot)?;
        }
        Ok(slots)
    }

    fn read_entries(
        &mut self,
        names: &[u64],
        entries: &OpenFiles,
        before: &Rc<Entries>,
    ) -> Result<Rc<Entries>, ExploreFault>
        requires all { length entries.now ≡ 100 }
        requires counted { (e : ℕ) → (entry_at entries.now e ≡ None) ⊎ (0 < count_of (entry_at entries.now e)) }
        ensures { IfOk result (λ kept. kept.value ≡ map (renamed_entry (place_among names.now)) entries.now) }
    {
        let numbers = numbers_in_use(self.numbers.as_slice(), entries);
        if are_entries(names, numbers, entries, before)? {
            return Ok(before.clone()?);
        }
        let sketch = sketch_of_entries(numbers, entries);
        if let Some(kept) = self.entries.find(names, numbers, entries, sketch)? {
            return Ok(kept);
        }
        let entries = read_entries(self.alloc, names, numbers, entries)?;
        Ok(self.entries.keep(self.alloc, entries, sketch)?)
    }

    // Reads a kernel between turns. What is as it was before, in another one, is kept as it was.
    pub fn read<A: Allocator>(
        &mut self,
        state: &State<M, A>,
        before: &Look<M>,
    ) -> Result<Look<M>, ExploreFault>
        requires orderly { IsOrderly state.now }
        requires sound { IsSound state.now.table state.now.entries }
        requires all { length state.now.entries ≡ 100 }
        ensures { IfOk result (λ look. look ≡ key state.now) }
    {
        let kept = names_of(self.alloc, state)?;
        let names = kept.as_slice();
        let slots = self.read_slots(state, names, before)?;
        let entries = self.read_entries(names, &state.entries, &before.entries)?;
        let pipes = read_pipes(self.alloc, names, state)?;
        let pipes = self.pipes.keep(self.alloc, pipes)?;
        let input = self.read_input(&state.input, &before.input)?;
        let out = self.read_bytes(&state.out, &before.out)?;
        let diag = self.read_bytes(&state.diag, &before.diag)?;
        let files = self.read_files(&state.files, &before.files)?;
        let mut look = Look {
            slots,
            entries,
            pipes,
            files,
            input,
            out,
            diag,
            full: state.full,
            digest: 0,
        };
        look.digest = look.digest_of();
        Ok(look)
    }
}

// How many slots there are up to the last one that is in use.
fn slots_in_use<M: Machine, A: Allocator>(state: &State<M, A>) -> usize
    requires { IsSound state.now.table state.now.entries }
    ensures within { result ≤ 64 }
    ensures free { (pid : ℕ) → result ≤ pid → at state.now.table pid ≡ None }
{
    let mut count: usize = 64;
    while count > 0 && is_free(state, count - 1) {
        count -= 1;
    }
    count
}

// Whether the slot of this number is free.
fn is_free<M: Machine, A: Allocator>(state: &State<M, A>, number: usize) -> bool
    ensures { result ≡ true → at state.now.table number ≡ None }
{
    match Pid::new(number) {
        Some(pid) => !state.procs.is_used(pid),
        None => false,
    }
}

// What was kept of the slot, if it is as it was.
fn unchanged<M: Machine, A: Allocator>(
    state: &State<M, A>,
    names: &[u64],
    pid: Pid,
    before: &Look<M>,
) -> Result<Option<Rc<Held<M>>>, ExploreFault>
    requires orderly { IsOrderly state.now }
    requires sound { IsSound state.now.table state.now.entries }
    ensures { IfOk result (λ kept. IfSome kept (λ held. Some held.value ≡ idle_slot (place_among names.now) (at state.now.table pid))) }
{
    let Some(held) = before.slot(pid.index()) else {
        return Ok(None);
    };
    if !is_held(state, names, pid, held)? {
        return Ok(None);
    }
    Ok(Some(held.clone()?))
}

fn push_slot<M: Machine>(
    slots: &mut Vec<Option<Rc<Held<M>>>>,
    slot: Option<Rc<Held<M>>>,
) -> Result<(), AllocError>
    ensures { OnOk result (slots.new.items ≡ slots.old.items ++ slot ∷ []) }
{
    slots.push(slot)?;
    Ok(())
}
