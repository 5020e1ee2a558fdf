//! An allocator for tests, which refuses one of its calls.
//!
//! [`Failing`] hands each call on to the allocator beneath it, but the one of the number that it was
//! made with, which it refuses. A test makes it anew for each number from 1 on, lends it as
//! `&failing` to what is tested, and has tried each of the calls once [`Failing::left`] is not 0 in
//! the end. A call that gives room back, to free a block or to make it smaller, is not counted.
//!
//! It is proved to be an allocator: each block that it gives out is one of the allocator beneath,
//! and goes back there. What a cell holds is no part of a contract, so which call is refused is
//! proved of the number that a call finds, and tested of the whole.
#![tactic(auto)]

ghost use Rattle.std.specs.Prelude.{◌≡◌, ◌-◌, ◌↔◌, true};

use std::alloc::{AllocError, Allocator};
use std::cell::Cell;

/// Refuses the call of one number, and hands the others on.
pub struct Failing<B: Allocator> {
    inner: B,
    left: Cell<u64>,
}

impl<B: Allocator> Failing<B> {
    /// An allocator over this one that refuses its call of this number, counted from 1: none if it
    /// is 0.
    pub fn new(inner: B, number: u64) -> Self {
        Failing {
            inner,
            left: Cell::new(number),
        }
    }

    /// How many calls are left, with the one that is refused: 0 once it was refused.
    pub fn left(&self) -> u64 {
        self.left.get()
    }
}

impl<B: Allocator> Drop for Failing<B> {
    fn drop(self) {
        let Self { inner: _, left: _ } = self;
    }
}

unsafe impl<B: Allocator> Allocator for Failing<B> {
    ghost dealloc_token = { λ heap ty ptr. B.dealloc_token heap.inner ty ptr };

    fn allocate(&self, size: usize, align: usize) -> Result<*mut u8, AllocError> {
        if count(&self.left) {
            return Err(AllocError);
        }
        self.inner.allocate(size, align)
    }

    unsafe fn deallocate(&self, ptr: *mut u8, size: usize, align: usize) {
        self.inner.deallocate(ptr, size, align);
    }

    // Giving room back is no growth: it isn't counted, and not refused here.
    unsafe fn shrink<T>(
        &self,
        ptr: *mut T,
        len: usize,
        old_cap: usize,
        new_cap: usize,
    ) -> Result<*mut T, AllocError> {
        self.inner.shrink(ptr, len, old_cap, new_cap)
    }
}

// Counts a call: whether it is the one that is refused.
fn count(left: &Cell<u64>) -> bool {
    let before = left.get();
    left.set(after(before));
    is_last(before)
}

// How many are left after a call.
fn after(left: u64) -> u64
    ensures { result ≡ left - 1 }
{
    left.saturating_sub(1)
}

// The last one that is left is refused.
fn is_last(left: u64) -> bool
    ensures { (result ≡ true) ↔ (left ≡ 1) }
{
    left == 1
}
