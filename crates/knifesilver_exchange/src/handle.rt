//! What C holds of an end: a pointer that this library alone follows.
ghost use Rattle.std.specs.Prelude.{◌≡◌, Option, None, Some};
ghost use Rattle.std.specs.Option.{option_map};
ghost use Rattle.knifesilver_exchange.specs.declared.held.Held.{Held as HeldSpec};

use crate::held::Held;
use crate::released::Released;
use std::alloc::Global;
use std::marker::{Model, Send};
use std::mem::replace;
use std::ptr::null_mut;

/// C's `ks_handle`. All zero, it holds nothing. C moves it as it likes, never copies it, and changes no byte of it.
///
/// The pointer has no type, since C is to hold it: what it points to is known to the proofs alone, by `held`.
#[repr(C)]
#[derive(Drop)]
pub struct KsHandle {
    at: *mut (),
    live: bool,
    alloc: Global,
    ghost held: { Option HeldSpec },
}

impl Model for KsHandle {
    ghost use Rattle.knifesilver_exchange.specs.Owned.{owned};
    ghost use Rattle.knifesilver_exchange.specs.contracts.held.Held.{the_row};

    ghost also_owns = { λ h. owned the_row h.alloc h.live h.at h.held };
}

// What a handle owns may go to another thread, and no other handle knows of it.
unsafe impl Send for KsHandle {}

impl KsHandle {
    // A handle that holds nothing.
    fn vacant(alloc: Global) -> KsHandle
        ensures { result.held ≡ None }
    {
        KsHandle {
            at: null_mut(),
            live: false,
            alloc,
        }
    }

    // A handle that holds this.
    fn holding(end: Released<Held, Global>) -> KsHandle
        ensures { result.held ≡ Some end.value }
    {
        let Released { at, alloc } = end;
        KsHandle {
            at: at as *mut (),
            live: true,
            alloc,
        }
    }

    // What it holds.
    fn into_released(self) -> Option<Released<Held, Global>>
        ensures { option_map (λ end. end.value) result ≡ self.held }
    {
        let KsHandle { at, live, alloc } = self;
        if live {
            Some(Released {
                at: at as *mut Held,
                alloc,
            })
        } else {
            None
        }
    }

    /// Takes out what it holds, and leaves it empty.
    pub(crate) fn take(&mut self, alloc: Global) -> Option<Box<Held, Global>>
        ensures left { self.new.held ≡ None }
        ensures taken { option_map (λ end. end.value) result ≡ self.old.held }
    {
        match replace(self, KsHandle::vacant(alloc)).into_released() {
            Some(end) => Some(end.claim()),
            None => None,
        }
    }

    /// Has it hold this. What it held was taken out before: else it would be forgotten, and never freed.
    pub(crate) fn put(&mut self, end: Box<Held, Global>)
        requires { self.old.held ≡ None }
        ensures { self.new.held ≡ Some end.value }
    {
        *self = KsHandle::holding(Released::release(end));
    }
}
