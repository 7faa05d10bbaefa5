//! What of a kernel is read, part by part.

ghost use Rattle.std.specs.Prelude.{◌≡◌, ◌⊎◌, ℕ, ◌<◌, ◌≤◌, ◌++◌, ◌∷◌, [], None, Some, IfOk, IfSome, IsSome, OnOk, length, map, take};
ghost use Rattle.byte_pipe.specs.PipeState.{PipeState};
ghost use Rattle.fd_table.specs.Descriptors.{entry_of};
ghost use Rattle.fd_table.specs.Entries.{entry_at, count_of};
ghost use Rattle.kernel_model.specs.Pipes.{pipe_of};
ghost use Rattle.proc_table.specs.declared.states.Status.{Status as ShownStatus};
ghost use Rattle.proc_table.specs.Slots.{at, state_by};
ghost use Rattle.kernel_model.specs.KernelState.{fds_of};
ghost use Rattle.kernel_model.specs.Sound.{IsSound};
ghost use Rattle.kernel_model.specs.Idle.{idle_status, idle_slot, renamed_object, renamed_entry, renamed_pipe};
ghost use Rattle.order_search.specs.Places.{place_among, names_in, IsOrderly, AreNumbers, AreNumbersOf, IsNextNumber};

use crate::fault::ExploreFault;
use crate::kept::{Entries, Held, Opened, Piped, Pipes};
use crate::places::{place_of, placed_channel};
use crate::private::next_call;
use fd_table::{Entry, Fds, Name, Object, OpenFiles};
use kernel_calls::State;
use proc_table::{Pid, State as SlotState, Status};
use std::alloc::{AllocError, Allocator, Global};
use user_calls::{CallSlot, Machine};

// The status of a slot in use, as if nobody ran.
pub fn idle_status(names: &[u64], state: SlotState) -> Result<Status, ExploreFault>
    ensures { IfOk result (λ read. (status : ShownStatus) → state ≡ state_by status → read ≡ idle_status (place_among names.now) status) }
{
    match state {
        SlotState::Free | SlotState::Runnable | SlotState::Running(_) => Ok(Status::Runnable),
        SlotState::Asleep(channel) => Ok(Status::Asleep(placed_channel(names, channel)?)),
        SlotState::Zombie => Ok(Status::Zombie),
    }
}

fn read_places(alloc: Global, fds: &Fds) -> Result<Vec<Option<u8>>, AllocError>
    requires { length fds.now ≡ 16 }
    ensures { IfOk result (λ places. places.items ≡ fds.now) }
{
    let mut places = Vec::with_capacity(alloc, 16)?;
    for fd in 0..16usize {
        places.push(entry_of(fds, fd))?;
    }
    Ok(places)
}

// The number of the entry that a descriptor holds.
pub fn entry_of(fds: &Fds, fd: usize) -> Option<u8>
    ensures { result ≡ entry_of fds.now fd }
{
    match fds.get(fd) {
        Ok(entry) => Some(entry.index() as u8),
        Err(_) => None,
    }
}

// The parent of a process; `None` of init.
pub fn parent_of<M: Machine, A: Allocator>(state: &State<M, A>, pid: Pid) -> Option<u8>
    requires orderly { IsOrderly state.now }
    requires used { IsSome (at state.now.table pid) }
    ensures { IfSome (at state.now.table pid) (λ p. result ≡ p.parent) }
{
    if pid.index() == 0 {
        None
    } else {
        Some(state.procs.parent(pid).index() as u8)
    }
}

// The process in a slot; `None` where it is free. Its next call is written to `call`.
pub fn read_slot<M: Machine, A: Allocator>(
    alloc: Global,
    state: &State<M, A>,
    names: &[u64],
    pid: Pid,
    call: &mut CallSlot,
) -> Result<Option<Held<M>>, ExploreFault>
    requires orderly { IsOrderly state.now }
    requires sound { IsSound state.now.table state.now.entries }
    ensures { IfOk result (λ slot. slot ≡ idle_slot (place_among names.now) (at state.now.table pid)) }
{
    if !state.procs.is_used(pid) {
        return Ok(None);
    }
    let places = read_places(alloc, state.procs.fds(pid))?;
    let machine = state.procs.machine(pid);
    let reply = state.procs.reply(pid);
    let next = next_call(machine, reply, &places, call);
    let mut held = Held {
        status: idle_status(names, state.procs.state(pid))?,
        parent: parent_of(state, pid),
        machine: machine.twin(),
        reply: reply.to_reply(),
        places,
        put: state.procs.put(pid),
        next,
        digest: 0,
    };
    held.digest = held.digest_of();
    Ok(Some(held))
}

// The object, its pipe named by its place.
fn placed_object(names: &[u64], object: &Object) -> Result<Object, ExploreFault>
    ensures { IfOk result (λ placed. placed ≡ renamed_object (place_among names.now) object.now) }
{
    match object {
        Object::Input => Ok(Object::Input),
        Object::Out => Ok(Object::Out),
        Object::Diag => Ok(Object::Diag),
        Object::File(name, mode) => match Name::new(name.as_slice()) {
            Some(name) => Ok(Object::File(name, *mode)),
            None => Ok(Object::Input),
        },
        Object::PipeRead(pipe) => Ok(Object::PipeRead(place_of(names, *pipe)?)),
        Object::PipeWrite(pipe) => Ok(Object::PipeWrite(place_of(names, *pipe)?)),
    }
}

// What an entry has open; `None` where it is free.
fn read_entry(
    names: &[u64],
    entries: &OpenFiles,
    entry: Entry,
) -> Result<Option<Opened>, ExploreFault>
    requires { entry_at entries.now entry ≡ None ⊎ 0 < count_of (entry_at entries.now entry) }
    ensures { IfOk result (λ read. read ≡ renamed_entry (place_among names.now) (entry_at entries.now entry)) }
{
    let count = entries.count(entry);
    if count == 0 {
        return Ok(None);
    }
    Ok(Some(Opened {
        object: placed_object(names, entries.object(entry))?,
        count,
        offset: entries.offset(entry),
    }))
}

// The entries by their numbers.
pub fn entry_numbers(alloc: Global) -> Result<Vec<Entry>, AllocError>
    ensures { IfOk result (λ numbers. AreNumbers numbers.items) }
{
    let mut scratch = OpenFiles::new();
    let mut numbers = Vec::new(alloc);
    for _number in 0..100usize {
        open_next(&mut scratch, &mut numbers)?;
    }
    Ok(numbers)
}

// The lowest free entry is opened, and its number is added.
fn open_next(entries: &mut OpenFiles, numbers: &mut Vec<Entry>) -> Result<(), AllocError>
    ensures { OnOk result (IsNextNumber entries.old entries.new numbers.old.items numbers.new.items) }
{
    match entries.add(Object::Input) {
        Ok(entry) => {
            numbers.push(entry)?;
            Ok(())
        }
        Err(_) => Err(AllocError),
    }
}

// How many entries there are up to the last one that is in use.
fn entries_in_use(numbers: &[Entry], entries: &OpenFiles) -> usize
    requires numbers { AreNumbers numbers.now }
    requires all { length entries.now ≡ 100 }
    requires counted { (e : ℕ) → (entry_at entries.now e ≡ None) ⊎ (0 < count_of (entry_at entries.now e)) }
    ensures within { result ≤ 100 }
    ensures free { (e : ℕ) → result ≤ e → entry_at entries.now e ≡ None }
{
    let mut count: usize = 100;
    while count > 0 && entries.count(numbers[count - 1]) == 0 {
        count -= 1;
    }
    count
}

// The numbers of the entries up to the last one that is in use, of the numbers of all.
pub fn numbers_in_use<'n>(numbers: &'n [Entry], entries: &OpenFiles) -> &'n [Entry]
    requires numbers { AreNumbers numbers.now }
    requires all { length entries.now ≡ 100 }
    requires counted { (e : ℕ) → (entry_at entries.now e ≡ None) ⊎ (0 < count_of (entry_at entries.now e)) }
    ensures { AreNumbersOf entries.now result.now }
{
    &numbers[..entries_in_use(numbers, entries)]
}

// All entries, of which these are the numbers up to the last one that is in use.
pub fn read_entries(
    alloc: Global,
    names: &[u64],
    numbers: &[Entry],
    entries: &OpenFiles,
) -> Result<Entries, ExploreFault>
    requires numbers { AreNumbersOf entries.now numbers.now }
    requires all { length entries.now ≡ 100 }
    requires counted { (e : ℕ) → (entry_at entries.now e ≡ None) ⊎ (0 < count_of (entry_at entries.now e)) }
    ensures { IfOk result (λ read. read ≡ map (renamed_entry (place_among names.now)) entries.now) }
{
    let mut slots = Vec::with_capacity(alloc, numbers.len())?;
    for number in 0..numbers.len() {
        let entry = read_entry(names, entries, numbers[number])?;
        push_entry(&mut slots, entry)?;
    }
    Ok(Entries::of(slots))
}

fn push_entry(slots: &mut Vec<Option<Opened>>, entry: Option<Opened>) -> Result<(), AllocError>
    ensures { OnOk result (slots.new.items ≡ slots.old.items ++ entry ∷ []) }
{
    slots.push(entry)?;
    Ok(())
}

// All pipes.
pub fn read_pipes<M: Machine, A: Allocator>(
    alloc: Global,
    names: &[u64],
    state: &State<M, A>,
) -> Result<Pipes, ExploreFault>
    requires orderly { IsOrderly state.now }
    requires names { names.now ≡ names_in state.now.pipes }
    ensures { IfOk result (λ pipes. pipes ≡ map (renamed_pipe (place_among names.now)) state.now.pipes) }
{
    let mut pipes = Vec::new(alloc);
    for name in names {
        let place = place_of(names, *name)?;
        push_pipe(alloc, &mut pipes, state, *name, place)?;
    }
    Ok(Pipes::of(pipes))
}

fn push_pipe<M: Machine, A: Allocator>(
    alloc: Global,
    pipes: &mut Vec<Piped>,
    state: &State<M, A>,
    name: u64,
    place: u64,
) -> Result<(), AllocError>
    ensures { (p : PipeState) → pipe_of state.now.pipes name ≡ Some p → OnOk result (pipes.new.items ≡ pipes.old.items ++ (place, p) ∷ []) }
{
    let Some(status) = state.pipes.status(name) else {
        return Ok(());
    };
    let bytes = bytes_of(alloc, state, name, status.held)?;
    pipes.push(Piped {
        name: place,
        bytes,
        reader: status.reader_open,
        writer: status.writer_open,
    })?;
    Ok(())
}

// The first bytes of a pipe.
fn bytes_of<M: Machine, A: Allocator>(
    alloc: Global,
    state: &State<M, A>,
    name: u64,
    count: usize,
) -> Result<Vec<u8>, AllocError>
    ensures { (p : PipeState) → pipe_of state.now.pipes name ≡ Some p → IfOk result (λ bytes. bytes.items ≡ take count p.bytes) }
{
    let mut bytes = Vec::new(alloc);
    if let Some((_, first, second)) = state.pipes.peek(name, count) {
        bytes.extend_from_slice(first)?;
        bytes.extend_from_slice(second)?;
    }
    Ok(bytes)
}
