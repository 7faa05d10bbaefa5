//! Lists of words over any allocator.

ghost use Rattle.std.specs.Prelude.{◌≡◌, ◌↔◌, IsTrue, IfOk};

use sh_lexer::Bytes;
use std::alloc::{AllocError, Allocator};
use std::marker::Model;

/// A list of words over any allocator, which contracts see as the list of their bytes (own).
#[derive(Drop)]
pub struct Words<A: Allocator> {
    items: Vec<Bytes<A>, A>,
}

impl<A: Allocator> Model for Words<A> {
    ghost use Rattle.std.specs.Prelude.{List, ℕ};

    ghost Value = { List (List ℕ) };

    ghost view = { λ w. w.items.items };
}

impl<A: Allocator> Words<A> {
    /// The words of a `Vec`, which is moved and not copied. Takes no memory (own).
    pub fn from_vec(items: Vec<Bytes<A>, A>) -> Self
        ensures { result ≡ items.items }
    {
        Words { items }
    }

    /// The words, borrowed (own).
    pub fn as_slice(&self) -> &[Bytes<A>]
        ensures { result.now ≡ self.now }
    {
        self.items.as_slice()
    }

    pub(crate) fn is_same<B: Allocator>(&self, other: &Words<B>) -> bool
        ensures { IsTrue result ↔ (self.now ≡ other.now) }
    {
        let left = self.as_slice();
        let right = other.as_slice();
        if left.len() != right.len() {
            return false;
        }
        for i in 0..left.len() {
            if left[i].as_slice() != right[i].as_slice() {
                return false;
            }
        }
        true
    }

    pub(crate) fn copy_in<B: Allocator + Copy>(&self, alloc: B) -> Result<Words<B>, AllocError>
        ensures { IfOk result (λ copy. copy ≡ self.now) }
    {
        let words = self.as_slice();
        let mut items = Vec::with_capacity(alloc, words.len())?;
        for word in words {
            items.push(Bytes::copy_of(alloc, word.as_slice())?)?;
        }
        Ok(Words::from_vec(items))
    }
}
