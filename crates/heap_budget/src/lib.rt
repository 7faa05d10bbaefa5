//! A heap with a budget: it passes each request on to another heap as long as the bytes of all requests stay within it.
#![tactic(auto)]

use std::alloc::{AllocError, Allocator};
use std::cell::Cell;

/// A heap that passes each request on to another, as long as the bytes of all requests so far are no more than its budget, and
/// refuses every request that goes past it (own). What is given back doesn't count back: so the budget bounds the memory that is
/// held at once, and the work of filling memory too.
pub struct BudgetHeap<B: Allocator> {
    inner: B,
    // How many bytes may be asked for from now on.
    left: Cell<u64>,
}

impl<B: Allocator> BudgetHeap<B> {
    /// Grants requests of so many bytes in all.
    pub fn new(inner: B, budget: u64) -> BudgetHeap<B> {
        BudgetHeap {
            inner,
            left: Cell::new(budget),
        }
    }

    /// How many bytes may be asked for from now on.
    pub fn left(&self) -> u64 {
        self.left.get()
    }
}

impl<B: Allocator> Drop for BudgetHeap<B> {
    fn drop(self) {
        let Self { inner: _, left: _ } = self;
    }
}

// Counts a request of so many bytes, and returns whether it goes past what is left; then nothing of it is counted.
fn goes_past(left: &Cell<u64>, size: usize) -> bool {
    let before = left.get();
    let asked = size as u64;
    if asked > before {
        return true;
    }
    left.set(before - asked);
    false
}

unsafe impl<B: Allocator> Allocator for BudgetHeap<B> {
    ghost dealloc_token = { λ heap ty ptr. B.dealloc_token heap.inner ty ptr };

    fn allocate(&self, size: usize, align: usize) -> Result<*mut u8, AllocError> {
        if goes_past(&self.left, size) {
            return Err(AllocError);
        }
        self.inner.allocate(size, align)
    }

    unsafe fn deallocate(&self, ptr: *mut u8, size: usize, align: usize) {
        self.inner.deallocate(ptr, size, align);
    }
}
