//! A value that was handed to C.
ghost use Rattle.std.specs.Prelude.{◌≡◌};

use std::alloc::Allocator;
use std::marker::Model;

/// A value on the heap that no box holds any more: where it lies, and what frees it.
pub struct Released<T, A: Allocator> {
    pub(crate) at: *mut T,
    pub(crate) alloc: A,
    pub(crate) ghost value: { T },
}

impl<T, A: Allocator> Model for Released<T, A> {
    ghost use Rattle.std.specs.Box.Ownership.{box_owns};

    ghost also_owns = { λ r. box_owns (A.dealloc_token r.alloc) T.row r.at r.value };
}

impl<T: Drop, A: Allocator> Released<T, A> {
    /// Takes the value from its box, where it lies.
    pub(crate) fn release(held: Box<T, A>) -> Released<T, A>
        ensures { result.value ≡ held.value }
    {
        let (at, alloc) = Box::into_raw_with_allocator(held);
        Released { at, alloc }
    }

    /// Gives it to a box again.
    pub(crate) fn claim(self) -> Box<T, A>
        ensures { result.value ≡ self.value }
    {
        let Released { at, alloc } = self;
        unsafe { Box::from_raw(alloc, at) }
    }
}
