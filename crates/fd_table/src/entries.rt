//! The open-file entries.

ghost use Rattle.std.specs.Prelude.{◌≡◌, ◌≤◌, ◌<◌, ◌+◌, ◌^◌, IfSome, ok_or};
ghost use Rattle.fd_table.specs.declared.entries.TheConstants.{ENTRIES};
ghost use Rattle.fd_table.specs.Entries.{last_object, less_held};

use crate::{FdFault, Object};
use std::marker::Model;

/// How many open-file entries there are (xv6's `NFILE`).
pub const ENTRIES: usize = 100;

/// The number of an open-file entry, 0 to 99 (own: xv6 has a pointer).
#[derive(Clone, Copy, Debug, PartialEq, Eq)]
pub struct Entry {
    index: usize,
}

impl Model for Entry {
    ghost use Rattle.std.specs.Prelude.{ℕ, ◌<◌};
    ghost use Rattle.fd_table.specs.declared.entries.TheConstants.{ENTRIES};

    ghost Value = { ℕ };

    ghost view = { λ e. e.index };

    ghost invariant = { λ e. e.index < ENTRIES };

    ghost inverse = { λ n. record { index = n } };
}

impl Entry {
    /// The number, from 0 (own).
    pub fn index(self) -> usize
        ensures value { result ≡ self }
        ensures within { result < ENTRIES }
    {
        self.index
    }
}

// An entry that is in use (xv6's `struct file`).
#[derive(Debug, Drop)]
pub struct Opened {
    object: Object,
    count: u32,
    offset: u64,
}

impl Model for Opened {
    ghost use Rattle.fd_table.specs.Entries.{OpenFile};

    ghost Value = { OpenFile };

    ghost view = { λ f. record { object = f.object; count = f.count; offset = f.offset } };
}

impl Opened {
    ghost use Rattle.std.specs.Prelude.{◌≡◌};

    // An equal entry.
    fn twin(&self) -> Opened
        ensures { result ≡ self.now }
    {
        Opened {
            object: self.object.twin(),
            count: self.count,
            offset: self.offset,
        }
    }
}

/// The open-file entries that all processes share (xv6's `ftable`).
///
/// Contracts see the list of the 100 entries, in which a free one is `None`.
#[derive(Drop)]
pub struct OpenFiles {
    slots: [Option<Opened>; ENTRIES],
}

impl Model for OpenFiles {
    ghost use Rattle.std.specs.Prelude.{◌≡◌, length};
    ghost use Rattle.fd_table.specs.declared.entries.TheConstants.{ENTRIES};
    ghost use Rattle.fd_table.specs.Entries.{Entries};

    ghost Value = { Entries };

    ghost view = { λ t. t.slots };

    ghost invariant = { λ t. length t.slots ≡ ENTRIES };
}

impl OpenFiles {
    ghost use Rattle.std.specs.Prelude.{◌≡◌, ◌≤◌, ◌<◌, ◌+◌, ◌^◌, IfSome, Some, None, ok_or, length, replicate};
    ghost use Rattle.fd_table.specs.declared.entries.TheConstants.{ENTRIES};
    ghost use Rattle.fd_table.specs.declared.faults.FdFault.TheVariants.{FullOpen};
    ghost use Rattle.fd_table.specs.Entries.{entry_at, IsInUse, count_of, offset_of, lowest_free_entry, added, held, last_object, released, advanced, moved_to, free_count};

    /// A table in which all entries are free (own).
    pub fn new() -> Self
        ensures { result ≡ replicate ENTRIES None }
    {
        OpenFiles {
            slots: Default::default(),
        }
    }

    /// Becomes equal to the other table (own).
    pub fn copy_from(&mut self, other: &OpenFiles)
        ensures { self.new ≡ other.now }
    {
        for place in 0..ENTRIES {
            copy_slot(&mut self.slots[place], &other.slots[place]);
        }
    }

    /// Opens `object` at the lowest free entry, held by one descriptor and with offset 0, and returns the entry
    /// (`filealloc`).
    ///
    /// `FullOpen` where no entry is free; `object` is dropped then.
    pub fn add(&mut self, object: Object) -> Result<Entry, FdFault>
        ensures entry { result ≡ ok_or (lowest_free_entry self.old) FullOpen }
        ensures after { self.new ≡ added self.old object }
    {
        let Some(index) = self.lowest_free() else {
            return Err(FdFault::FullOpen);
        };
        self.slots[index] = Some(Opened {
            object,
            count: 1,
            offset: 0,
        });
        Ok(Entry { index })
    }

    // The lowest free entry.
    fn lowest_free(&self) -> Option<usize>
        ensures { result ≡ lowest_free_entry self.now }
    {
        self.slots.iter().position(|slot| slot.is_none())
    }

    /// Counts one descriptor more that holds the entry (`filedup`).
    pub fn hold(&mut self, entry: Entry)
        requires in_use { IsInUse self.old entry }
        requires fits { count_of (entry_at self.old entry) + 1 < 2 ^ 32 }
        ensures { self.new ≡ held self.old entry }
    {
        if let Some(opened) = &mut self.slots[entry.index] {
            opened.count += 1;
        }
    }

    /// Counts one descriptor less that holds the entry. With the last one the entry becomes free, and what it had open is
    /// returned (`fileclose`).
    pub fn release(&mut self, entry: Entry) -> Option<Object>
        requires { IsInUse self.old entry }
        ensures object { result ≡ last_object (entry_at self.old entry) }
        ensures after { self.new ≡ released self.old entry }
    {
        release_slot(&mut self.slots[entry.index])
    }

    /// What the entry has open (`type`, `ip` and `pipe` of xv6's `struct file`).
    pub fn object(&self, entry: Entry) -> &Object
        requires { IsInUse self.now entry }
        ensures { IfSome (entry_at self.now entry) (λ file. result.now ≡ file.object) }
    {
        match &self.slots[entry.index] {
            Some(opened) => &opened.object,
            None => unreachable!(),
        }
    }

    /// The offset of the entry: the byte of its file, counted from 0, at which the next read or write begins (`off`).
    pub fn offset(&self, entry: Entry) -> u64
        requires { IsInUse self.now entry }
        ensures { result ≡ offset_of (entry_at self.now entry) }
    {
        match &self.slots[entry.index] {
            Some(opened) => opened.offset,
            None => unreachable!(),
        }
    }

    /// Moves the offset of the entry `count` bytes on (`fileread` and `filewrite`).
    pub fn advance(&mut self, entry: Entry, count: u64)
        requires in_use { IsInUse self.old entry }
        requires fits { offset_of (entry_at self.old entry) + count < 2 ^ 64 }
        ensures { self.new ≡ advanced self.old entry count }
    {
        if let Some(opened) = &mut self.slots[entry.index] {
            opened.offset += count;
        }
    }

    /// Moves the offset of the entry to this byte, counted from 0 (own: after a write that went to the end of its file).
    pub fn move_to(&mut self, entry: Entry, offset: u64)
        requires { IsInUse self.old entry }
        ensures { self.new ≡ moved_to self.old entry offset }
    {
        if let Some(opened) = &mut self.slots[entry.index] {
            opened.offset = offset;
        }
    }

    /// How many descriptors hold the entry, 0 where it is free (`ref`).
    pub fn count(&self, entry: Entry) -> u32
        ensures { result ≡ count_of (entry_at self.now entry) }
    {
        match &self.slots[entry.index] {
            Some(opened) => opened.count,
            None => 0,
        }
    }

    /// How many entries are free (own).
    pub fn free_count(&self) -> usize
        ensures count { result ≡ free_count self.now }
        ensures within { result ≤ ENTRIES }
    {
        self.slots.iter().filter(|slot| slot.is_none()).count()
    }
}

// The slot becomes equal to the other.
fn copy_slot(slot: &mut Option<Opened>, other: &Option<Opened>)
    ensures { slot.new ≡ other.now }
{
    match other {
        Some(opened) => *slot = Some(opened.twin()),
        None => *slot = None,
    }
}

// One descriptor less holds what the slot has open.
fn release_slot(slot: &mut Option<Opened>) -> Option<Object>
    ensures object { result ≡ last_object slot.old }
    ensures after { slot.new ≡ less_held slot.old }
{
    match slot {
        None => None,
        Some(opened) if opened.count > 1 => {
            opened.count -= 1;
            None
        }
        Some(_) => slot.take().map(|opened| opened.object),
    }
}
