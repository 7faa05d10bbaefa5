//! Values that are kept once, however many states have them.

ghost use Rattle.std.specs.Prelude.{◌≡◌, ◌↔◌, IsTrue};

use closed_search::Index;
use std::alloc::{AllocError, Global};
use std::rc::Rc;

// A value that can be compared.
pub trait Same: Drop {
    // Whether the two are equal.
    fn same(&self, other: &Self) -> bool
        ensures { IsTrue result ↔ (self.now ≡ other.now) };

    // A number, the same for equal values.
    fn digest(&self) -> u64;
}

// Values, each of which is there once.
#[derive(Drop)]
pub struct Pool<T: Same> {
    kept: Vec<Rc<T>>,
    index: Index,
}

impl<T: Same> Pool<T> {
    ghost use Rattle.std.specs.Prelude.{◌≡◌, IfOk, IfSome};

    // A pool of no values.
    pub fn new(alloc: Global) -> Pool<T> {
        Pool {
            kept: Vec::new(alloc),
            index: Index::new(alloc),
        }
    }

    // The value of the pool that is equal to this one, which is added where there is none.
    pub fn keep(&mut self, alloc: Global, value: T) -> Result<Rc<T>, AllocError>
        ensures { IfOk result (λ kept. kept.value ≡ value) }
    {
        let digest = value.digest();
        if let Some(kept) = self.find(&value, digest)? {
            return Ok(kept);
        }
        let fresh = Rc::new(alloc, value)?;
        let kept = fresh.clone()?;
        self.index.write(digest)?;
        self.kept.push(fresh)?;
        Ok(kept)
    }

    // The value of the pool that is equal to this one, if there is one.
    fn find(&self, value: &T, digest: u64) -> Result<Option<Rc<T>>, AllocError>
        ensures { IfOk result (λ found. IfSome found (λ kept. kept.value ≡ value.now)) }
    {
        let mut found = self.index.last(digest);
        while let Some(place) = found {
            if place < self.kept.len() && self.kept[place].same(value) {
                return Ok(Some(self.kept[place].clone()?));
            }
            found = self.index.older(place);
        }
        Ok(None)
    }
}

// Numbers, one after the other, as one number.
#[derive(Clone, Copy)]
pub struct Digest {
    pub so_far: u64,
}

impl Digest {
    // The digest of nothing.
    pub fn new() -> Digest {
        Digest {
            so_far: 0xcbf2_9ce4_8422_2325,
        }
    }

    // Adds a number.
    pub fn add(&mut self, number: u64) {
        let mixed = (self.so_far ^ number).wrapping_mul(0x0000_0100_0000_01b3);
        self.so_far = mixed ^ (mixed >> 29);
    }

    // Adds bytes.
    pub fn add_bytes(&mut self, bytes: &[u8]) {
        for byte in bytes {
            self.add(u64::from(*byte));
        }
        self.add(256);
    }
}
