//! The bytes that one call moves.

ghost use Rattle.std.specs.Prelude.{◌≡◌, ◌≤◌, ◌↔◌, IsTrue, [], ◌++◌, length, take};
ghost use Rattle.user_calls.specs.Limits.{block_size};

use std::fmt::{Debug, Formatter, Result, Write};
use std::marker::Model;

/// How many bytes a call moves at most (own; a block of xv6's file system).
pub const BLOCK_SIZE: usize = 1024;

/// The bytes that one call moves, at most 1,024 (own). Contracts see the list of the bytes.
#[derive(Drop)]
pub struct Block {
    bytes: [u8; BLOCK_SIZE],
    // How many of them are the block's; the others mean nothing.
    used: usize,
}

impl Model for Block {
    ghost use Rattle.std.specs.Prelude.{List, ℕ, ◌≤◌, take};
    ghost use Rattle.user_calls.specs.Limits.{block_size};

    ghost Value = { List ℕ };

    ghost view = { λ b. take b.used b.bytes };

    ghost invariant = { λ b. b.used ≤ block_size };
}

impl Block {
    /// A block of no bytes (own).
    pub fn new() -> Self
        ensures { result ≡ [] }
    {
        Block {
            bytes: [0; BLOCK_SIZE],
            used: 0,
        }
    }

    /// A block of the first 1,024 of these bytes, or of all of them where there are fewer (own).
    pub fn from_slice(bytes: &[u8]) -> Self
        ensures { result ≡ take block_size bytes.now }
    {
        let mut block = Block::new();
        block.refill(bytes);
        block
    }

    /// Becomes a block of the first 1,024 of these bytes, or of all of them where there are fewer (own).
    pub fn refill(&mut self, bytes: &[u8])
        ensures { self.new ≡ take block_size bytes.now }
    {
        let fitting = bytes.len().min(BLOCK_SIZE);
        self.bytes[..fitting].copy_from_slice(&bytes[..fitting]);
        self.used = fitting;
    }

    /// Adds these bytes behind those that are there; what goes past 1,024 bytes is left out (own).
    pub fn append(&mut self, bytes: &[u8])
        ensures { self.new ≡ take block_size (self.old ++ bytes.now) }
    {
        let used = self.used;
        let fitting = bytes.len().min(BLOCK_SIZE - used);
        self.bytes[used..used + fitting].copy_from_slice(&bytes[..fitting]);
        self.used = used + fitting;
    }

    /// The bytes, borrowed (own).
    pub fn as_slice(&self) -> &[u8]
        ensures bytes { result.now ≡ self.now }
        ensures fits { length self.now ≤ block_size }
    {
        &self.bytes[..self.used]
    }

    /// A copy (own).
    pub fn twin(&self) -> Self
        ensures { result ≡ self.now }
    {
        Block::from_slice(self.as_slice())
    }

    /// Whether the two have the same bytes (own).
    pub fn same(&self, other: &Self) -> bool
        ensures { IsTrue result ↔ (self.now ≡ other.now) }
    {
        self.as_slice() == other.as_slice()
    }
}

impl Debug for Block {
    fn fmt<W: Write>(&self, f: &mut Formatter<W>) -> Result {
        Debug::fmt(self.as_slice(), f)
    }
}
