//! The standard input that hasn't been read yet.

ghost use Rattle.std.specs.Prelude.{◌≡◌, ◌≤◌, OnOk, drop, length, take};

use crate::blocks::first_bytes;
use std::alloc::{AllocError, Allocator};
use std::marker::Model;

/// The standard input, of which the first bytes may have been read (own). Contracts see the others.
#[derive(Drop)]
pub struct Unread<A: Allocator> {
    bytes: Vec<u8, A>,
    read: usize,
}

impl<A: Allocator> Model for Unread<A> {
    ghost use Rattle.std.specs.Prelude.{List, ℕ, ◌≤◌, drop, length};

    ghost Value = { List ℕ };

    ghost view = { λ u. drop u.read u.bytes.items };

    ghost invariant = { λ u. u.read ≤ length u.bytes.items };
}

impl<A: Allocator> Unread<A> {
    // Nothing of the bytes was read.
    pub(crate) fn from_vec(bytes: Vec<u8, A>) -> Self
        ensures { result ≡ bytes.items }
    {
        Unread { bytes, read: 0 }
    }

    // Becomes equal to the other. `AllocError` where memory is refused.
    pub(crate) fn copy_from(&mut self, other: &Self) -> Result<(), AllocError>
        ensures { OnOk result (self.new ≡ other.now) }
    {
        self.read = 0;
        copy_bytes(&mut self.bytes, &other.bytes[other.read..])
    }

    /// The next `n` bytes, or all where there are fewer, where they lie (own).
    pub fn first(&self, n: usize) -> &[u8]
        ensures value { result.now ≡ take n self.now }
        ensures within { length result.now ≤ n }
    {
        first_bytes(&self.bytes[self.read..], n)
    }

    /// Reads past the next `n` bytes, or all where there are fewer (`consoleread`); `first` gave them before.
    pub fn skip(&mut self, n: usize)
        ensures { self.new ≡ drop n self.old }
    {
        self.read += n.min(self.bytes.len() - self.read);
    }
}

// The bytes become equal to the others. `AllocError` where memory is refused.
pub(crate) fn copy_bytes<A: Allocator>(
    bytes: &mut Vec<u8, A>,
    others: &[u8],
) -> Result<(), AllocError>
    ensures { OnOk result (bytes.new.items ≡ others.now) }
{
    bytes.clear();
    bytes.extend_from_slice(others)
}
