//! Whether parts of a kernel are as they were kept of another one: what is as it was isn't read again.

ghost use Rattle.std.specs.Prelude.{◌≡◌, ◌⊎◌, ℕ, ◌<◌, None, Some, Ok, length, map, true};
ghost use Rattle.fd_table.specs.Entries.{entry_at, count_of};
ghost use Rattle.proc_table.specs.Slots.{at};
ghost use Rattle.kernel_model.specs.Sound.{IsSound};
ghost use Rattle.kernel_model.specs.Idle.{idle_slot, renamed_entry, renamed_object};
ghost use Rattle.order_search.specs.Places.{place_among, IsOrderly, AreNumbersOf};

use crate::fault::ExploreFault;
use crate::kept::{Entries, Held, Opened};
use crate::parts::{entry_of, idle_status, parent_of};
use crate::places::place_of;
use fd_table::{Entry, Fds, Object, OpenFiles};
use kernel_calls::State;
use proc_table::Pid;
use std::alloc::Allocator;
use user_calls::Machine;

// Whether the process in a slot was kept as this one.
pub fn is_held<M: Machine, A: Allocator>(
    state: &State<M, A>,
    names: &[u64],
    pid: Pid,
    held: &Held<M>,
) -> Result<bool, ExploreFault>
    requires orderly { IsOrderly state.now }
    requires sound { IsSound state.now.table state.now.entries }
    ensures { result ≡ Ok true → Some held.now ≡ idle_slot (place_among names.now) (at state.now.table pid) }
{
    if !state.procs.is_used(pid) || state.procs.put(pid) != held.put {
        return Ok(false);
    }
    if parent_of(state, pid) != held.parent {
        return Ok(false);
    }
    if idle_status(names, state.procs.state(pid))? != held.status {
        return Ok(false);
    }
    if !holds(state.procs.fds(pid), &held.places) {
        return Ok(false);
    }
    Ok(state.procs.reply(pid).same(&held.reply) && state.procs.machine(pid).same(&held.machine))
}

// Whether these are the entries that the descriptors hold.
fn holds(fds: &Fds, places: &[Option<u8>]) -> bool
    requires { length fds.now ≡ 16 }
    ensures { result ≡ true → places.now ≡ fds.now }
{
    if places.len() != 16 {
        return false;
    }
    for fd in 0..16usize {
        if entry_of(fds, fd) != places[fd] {
            return false;
        }
    }
    true
}

// Whether the object, its pipe named by its place, is this one.
fn is_object(names: &[u64], object: &Object, kept: &Object) -> Result<bool, ExploreFault>
    ensures { result ≡ Ok true → kept.now ≡ renamed_object (place_among names.now) object.now }
{
    match (object, kept) {
        (Object::Input, Object::Input) => Ok(true),
        (Object::Out, Object::Out) => Ok(true),
        (Object::Diag, Object::Diag) => Ok(true),
        (Object::File(name, mode), Object::File(kept, kept_mode)) => {
            Ok(name.as_slice() == kept.as_slice() && mode == kept_mode)
        }
        (Object::PipeRead(pipe), Object::PipeRead(kept)) => Ok(place_of(names, *pipe)? == *kept),
        (Object::PipeWrite(pipe), Object::PipeWrite(kept)) => Ok(place_of(names, *pipe)? == *kept),
        _ => Ok(false),
    }
}

// Whether what an entry has open was kept as this.
fn is_entry(
    names: &[u64],
    entries: &OpenFiles,
    entry: Entry,
    kept: &Option<Opened>,
) -> Result<bool, ExploreFault>
    requires { entry_at entries.now entry ≡ None ⊎ 0 < count_of (entry_at entries.now entry) }
    ensures { result ≡ Ok true → kept.now ≡ renamed_entry (place_among names.now) (entry_at entries.now entry) }
{
    let count = entries.count(entry);
    match kept {
        None => Ok(count == 0),
        Some(opened) => {
            if count == 0 || count != opened.count || entries.offset(entry) != opened.offset {
                return Ok(false);
            }
            is_object(names, entries.object(entry), &opened.object)
        }
    }
}

// Whether the entries, of which these are the numbers up to the last one that is in use, were kept as these.
pub fn are_entries(
    names: &[u64],
    numbers: &[Entry],
    entries: &OpenFiles,
    kept: &Entries,
) -> Result<bool, ExploreFault>
    requires numbers { AreNumbersOf entries.now numbers.now }
    requires all { length entries.now ≡ 100 }
    requires counted { (e : ℕ) → (entry_at entries.now e ≡ None) ⊎ (0 < count_of (entry_at entries.now e)) }
    ensures { result ≡ Ok true → kept.now ≡ map (renamed_entry (place_among names.now)) entries.now }
{
    if kept.slots.len() != numbers.len() {
        return Ok(false);
    }
    for number in 0..numbers.len() {
        if !is_entry(names, entries, numbers[number], &kept.slots[number])? {
            return Ok(false);
        }
    }
    Ok(true)
}
