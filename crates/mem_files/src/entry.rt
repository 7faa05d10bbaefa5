//! A file with its name.

ghost use Rattle.std.specs.Prelude.{◌≡◌, ◌+◌, ◌-◌, ◌<◌, ◌≤◌, ◌++◌, ◌↔◌, IsTrue, true, length, take, drop, min, IfOk, OnOk, OnErr};
ghost use Rattle.mem_files.specs.Name.{is_openable};
ghost use Rattle.mem_files.specs.Overlay.{overlay, written};

use arrayvec::ArrayVec;
use std::alloc::{AllocError, Allocator};
use std::marker::Model;

// A file: its name and its bytes.
#[derive(Drop)]
pub struct Entry<A: Allocator> {
    name: ArrayVec<u8, 14>,
    bytes: Vec<u8, A>,
}

impl<A: Allocator> Model for Entry<A> {
    ghost use Rattle.std.specs.Prelude.{List, ℕ};

    ghost Value = { List ℕ × List ℕ };

    ghost view = { λ e. (e.name.items, e.bytes.items) };
}

impl<A: Allocator> Entry<A> {
    // A file that holds a copy of the bytes, with no room to spare.
    pub fn make(alloc: A, name: &[u8], bytes: &[u8]) -> Result<Self, AllocError>
        requires { is_openable name.now ≡ true }
        ensures { IfOk result (λ made. made ≡ (name.now, bytes.now)) }
    {
        let mut own = ArrayVec::new();
        own.try_extend_from_slice(name).unwrap();
        Ok(Entry {
            name: own,
            bytes: Vec::from_slice(alloc, bytes)?,
        })
    }

    /// The file's name.
    pub fn name(&self) -> &[u8]
        ensures { result.now ≡ self.now.0 }
    {
        self.name.as_slice()
    }

    /// The file's bytes.
    pub fn bytes(&self) -> &[u8]
        ensures { result.now ≡ self.now.1 }
    {
        self.bytes.as_slice()
    }

    // The old bytes are dropped, with the room that they had.
    pub fn replace(&mut self, bytes: Vec<u8, A>)
        ensures { self.new ≡ (self.old.0, bytes.items) }
    {
        self.bytes = bytes;
    }

    // What lies past the old end is appended first, since that alone takes memory.
    pub fn write(&mut self, at: usize, bytes: &[u8]) -> Result<(), AllocError>
        requires { at ≤ length self.old.1 }
        ensures ok { OnOk result (self.new ≡ (self.old.0, written self.old.1 at bytes.now)) }
        ensures err { OnErr result (self.new ≡ self.old) }
        ensures grows { OnErr result (length self.old.1 < at + length bytes.now) }
    {
        let inside = bytes.len().min(self.bytes.len() - at);
        if inside < bytes.len() {
            self.bytes.extend_from_slice(&bytes[inside..])?;
        }
        self.bytes[at..at + inside].copy_from_slice(&bytes[..inside]);
        Ok(())
    }

    /// Adds bytes behind the file's own. Where memory is refused the file is as it was.
    pub fn append(&mut self, bytes: &[u8]) -> Result<(), AllocError>
        ensures ok { OnOk result (self.new ≡ (self.old.0, self.old.1 ++ bytes.now)) }
        ensures err { OnErr result (self.new ≡ self.old) }
        ensures grows { OnErr result (0 < length bytes.now) }
    {
        if bytes.is_empty() {
            return Ok(());
        }
        self.bytes.extend_from_slice(bytes)
    }

    // Whether both have the same name and the same bytes.
    pub fn same<B: Allocator>(&self, other: &Entry<B>) -> bool
        ensures { IsTrue result ↔ (self.now ≡ other.now) }
    {
        self.name() == other.name() && self.bytes() == other.bytes()
    }

    // Copies bytes from `at` on into the buffer, and returns how many.
    pub fn read(&self, at: usize, buf: &mut [u8]) -> usize
        ensures count { result ≡ min (length buf.old) (length self.now.1 - at) }
        ensures bytes { buf.new ≡ overlay (take (length buf.old) (drop at self.now.1)) buf.old }
    {
        let from = at.min(self.bytes.len());
        let count = buf.len().min(self.bytes.len() - from);
        buf[..count].copy_from_slice(&self.bytes[from..from + count]);
        count
    }

    /// The same file in this allocator.
    pub fn copy_in<B: Allocator>(&self, alloc: B) -> Result<Entry<B>, AllocError>
        ensures { IfOk result (λ copy. copy ≡ self.now) }
    {
        let mut own = ArrayVec::new();
        own.try_extend_from_slice(self.name.as_slice()).unwrap();
        Ok(Entry {
            name: own,
            bytes: Vec::from_slice(alloc, self.bytes.as_slice())?,
        })
    }
}
