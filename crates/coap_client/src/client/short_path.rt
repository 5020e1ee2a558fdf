//! A path whose options fit each message of an observation.
ghost use Rattle.std.specs.Prelude.{◌≡◌, false};
ghost use Rattle.coap_types.specs.Path.{segments_of};
ghost use Rattle.coap_client.specs.Object.CallShown.{IsShortPath, is_long_path};

use coap_types::Path;
use std::alloc::{Allocator, Global};
use std::marker::Model;

/// A path whose options fit each message of an observation (RFC 7252, section 4.6). A contract sees
/// it as the list of its segments.
#[derive(Drop)]
pub struct ShortPath<A: Allocator = Global> {
    path: Path<A>,
}

impl<A: Allocator> Model for ShortPath<A> {
    ghost use Rattle.std.specs.Prelude.{ℕ, List, ◌≡◌, false};
    ghost use Rattle.coap_client.specs.Object.CallShown.{is_long_path};

    ghost Value = { List (List ℕ) };

    ghost view = { λ p. p.path };

    ghost invariant = { λ p. is_long_path p.path ≡ false };
}

impl<A: Allocator + Copy> ShortPath<A> {
    /// That path, which is short.
    pub fn new(path: Path<A>) -> ShortPath<A>
        requires { is_long_path path ≡ false }
        ensures { result ≡ path }
    {
        ShortPath { path }
    }

    /// Its segments in order.
    pub fn segments(&self) -> &[Vec<u8, A>]
        ensures segments { segments_of result.now ≡ self.now }
        ensures short { IsShortPath self.now }
    {
        self.path.segments()
    }
}
