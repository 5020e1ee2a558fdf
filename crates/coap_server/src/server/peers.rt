//! Whether a server has something of a peer.
ghost use Rattle.std.specs.Prelude.{◌≡◌, ◌||◌};
ghost use Rattle.std.specs.List.{list_any};
ghost use Rattle.coap_types.specs.SameEndpoint.{same_endpoint};
ghost use Rattle.coap_server.specs.Object.Shown.{seen, state_of};
ghost use Rattle.coap_server.specs.Peers.{knows};

use crate::server::Server;
use crate::server::parts::{Parts, Waiting};
use coap_resource::Store;
use coap_types::{Endpoint, Moment};
use std::alloc::Allocator;
use std::hash::BuildHasher;

// Whether one of the requests that wait came from there.
fn is_awaited<A: Allocator>(waiting: &[Waiting<A>], peer: Endpoint) -> bool
    ensures { result ≡ list_any (λ w. same_endpoint w.asked.from peer) waiting.now }
{
    waiting.iter().any(|waits| waits.asked.from == peer)
}

// Whether one of four holds.
fn one_of(first: bool, second: bool, third: bool, fourth: bool) -> bool
    ensures { result ≡ (first || (second || (third || fourth))) }
{
    first || second || third || fourth
}

/// Whether the parts of a server have something of a peer.
pub(crate) fn know<S: Store<A>, A: Allocator + Copy, H: BuildHasher>(
    parts: &Parts<S, A, H>,
    now: Moment,
    peer: Endpoint,
) -> bool
    ensures { result ≡ knows (seen S.content parts.now) now.0 peer }
{
    let last = parts.exchanges.clock().later(parts.clock);
    let at = last.later(now);
    let known = parts.exchanges.knows(peer);
    let observes = parts.observers.observes(peer);
    let uploads = parts.uploads.knows(at, peer);
    one_of(known, observes, uploads, is_awaited(&parts.waiting, peer))
}

impl<S: Store<A>, A: Allocator + Copy, H: BuildHasher> Server<S, A, H> {
    /// Whether the server has something of this peer at this moment that it may send, or may still need: an
    /// observation, an upload that is not whole, a request that waits, a message that is outstanding or that waits to
    /// be taken. What is remembered of duplicates doesn't count: that is over by itself after 247 s. A moment before
    /// the last one counts as the last. Nothing changes. It takes no memory.
    pub fn knows(&self, now: Moment, peer: Endpoint) -> bool
        // Whether a server knows a peer is whether one of its lists, or of those of its exchanges, has something of it.
        ensures { result ≡ knows (state_of S.content self.now) now.0 peer }
    {
        know(&self.parts, now, peer)
    }
}
