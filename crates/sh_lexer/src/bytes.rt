//! Byte strings over any allocator.

ghost use Rattle.std.specs.Prelude.{◌≡◌, IfOk};

use std::alloc::{AllocError, Allocator};
use std::marker::Model;

/// A byte string over any allocator, which contracts see as the list of its bytes (own).
#[derive(Drop)]
pub struct Bytes<A: Allocator> {
    items: Vec<u8, A>,
}

impl<A: Allocator> Model for Bytes<A> {
    ghost use Rattle.std.specs.Prelude.{List, ℕ};

    ghost Value = { List ℕ };

    ghost view = { λ b. b.items.items };
}

impl<A: Allocator> Bytes<A> {
    /// The bytes of a `Vec`, which is moved and not copied. Takes no memory (own).
    pub fn from_vec(items: Vec<u8, A>) -> Self
        ensures { result ≡ items.items }
    {
        Bytes { items }
    }

    /// A copy of a slice. `AllocError` where the allocator refuses memory for it (own).
    pub fn copy_of(alloc: A, bytes: &[u8]) -> Result<Self, AllocError>
        ensures { IfOk result (λ copy. copy ≡ bytes.now) }
    {
        Ok(Bytes {
            items: bytes.to_vec(alloc)?,
        })
    }

    /// The bytes, borrowed (own).
    pub fn as_slice(&self) -> &[u8]
        ensures { result.now ≡ self.now }
    {
        self.items.as_slice()
    }
}
