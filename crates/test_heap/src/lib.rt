//! Tests alone: a heap that refuses one request for memory, and grants all others.
#![tactic(auto)]

use std::alloc::{AllocError, Allocator};
use std::cell::Cell;

// That no request is to be refused.
const NONE: u64 = u64::MAX;

/// A heap that passes each request on to another, and refuses one of them.
pub struct RefusingHeap<B: Allocator> {
    inner: B,
    // How many requests are granted before the one that is refused, or `NONE`.
    granted: Cell<u64>,
}

impl<B: Allocator> RefusingHeap<B> {
    /// Refuses no request, until `refuse_after` asks for that.
    pub fn new(inner: B) -> RefusingHeap<B> {
        RefusingHeap {
            inner,
            granted: Cell::new(NONE),
        }
    }

    /// Grants so many requests from now on, refuses the one after them, and grants all others.
    pub fn refuse_after(&self, granted: u64) {
        self.granted.set(granted);
    }

    /// Whether the request that is to be refused hasn't come yet.
    pub fn is_due(&self) -> bool {
        self.granted.get() != NONE
    }
}

impl<B: Allocator> Drop for RefusingHeap<B> {
    fn drop(self) {
        let Self {
            inner: _,
            granted: _,
        } = self;
    }
}

// Counts a request, and returns whether it is the one to be refused.
fn counts(granted: &Cell<u64>) -> bool {
    let before = granted.get();
    if before != NONE {
        granted.set(before.wrapping_sub(1));
    }
    before == 0
}

unsafe impl<B: Allocator> Allocator for RefusingHeap<B> {
    ghost dealloc_token = { λ heap ty ptr. B.dealloc_token heap.inner ty ptr };

    fn allocate(&self, size: usize, align: usize) -> Result<*mut u8, AllocError> {
        if counts(&self.granted) {
            return Err(AllocError);
        }
        self.inner.allocate(size, align)
    }

    unsafe fn deallocate(&self, ptr: *mut u8, size: usize, align: usize) {
        self.inner.deallocate(ptr, size, align);
    }
}
