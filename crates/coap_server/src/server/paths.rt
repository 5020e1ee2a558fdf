//! Which paths hold something.
ghost use Rattle.std.specs.Prelude.{◌≡◌, option_copied, slice_get};
ghost use Rattle.coap_resource.specs.Content.{Lists};
ghost use Rattle.coap_server.specs.Object.Shown.{state_of};

use crate::server::Server;
use coap_resource::Store;
use coap_types::Path;
use std::alloc::Allocator;
use std::hash::BuildHasher;

impl<S: Store<A>, A: Allocator + Copy, H: BuildHasher> Server<S, A, H> {
    /// The path at this place of those that hold something; None where fewer do. They stand in an order of the
    /// store's own, which a change can move. It takes no memory.
    pub fn path_at(&self, place: usize) -> Option<&Path<A>>
        // The path that a server tells is the one at that place of its store's list.
        ensures at { option_copied result ≡ slice_get (S.listing self.now.store) place }
        // The list of a server's store has each path that holds something, once, and no other.
        ensures all { Lists (state_of S.content self.now).own.store (S.listing self.now.store) }
    {
        self.parts.store.path_at(place)
    }
}
