//! What a server tells of itself: how much it has, and what a datagram would be.
ghost use Rattle.std.specs.Prelude.{◌≡◌, ◌≤◌, IfSome, length, max};
ghost use Rattle.coap_types.specs.declared.token.TheConstants.{MAX_TOKEN_LEN as max_token_len};
ghost use Rattle.coap_layer.specs.Machine.Would.{would_of};
ghost use Rattle.coap_server.specs.Load.{IsLoad};
ghost use Rattle.coap_server.specs.Object.Shown.{seen, state_of};

use crate::server::Server;
use crate::server::parts::Parts;
use coap_exchange::Ended;
use coap_layer::{LayerLoad, Would};
use coap_resource::Store;
use coap_types::{Endpoint, Moment};
use std::alloc::Allocator;
use std::hash::BuildHasher;

/// How much a server has at a moment, and how much it has left.
#[derive(Clone, Copy, Debug, PartialEq, Eq)]
pub struct Load {
    /// What its message layer has.
    pub layer: LayerLoad,
    /// How many observers are registered (RFC 7641, section 4.1).
    pub observers: usize,
    /// How many uploads have a partial body (RFC 7959, section 2.5).
    pub partial: usize,
    /// How many requests are deferred (RFC 7252, section 5.2.2).
    pub deferred: usize,
    /// How many paths hold something.
    pub paths: usize,
    /// How many paths have a delay.
    pub delays: usize,
    /// How many paths have their observers told in Non-confirmable messages (RFC 7641, section 4.5).
    pub plains: usize,
    /// How many changes can be made one after the other at this moment.
    pub changes_left: u32,
}

// How much the parts of a server have at this moment.
fn load_parts<S: Store<A>, A: Allocator + Copy, H: BuildHasher>(
    parts: &Parts<S, A, H>,
    now: Moment,
) -> Load
    ensures { IsLoad now.0 result (seen S.content parts.now) }
{
    let last = parts.exchanges.clock().later(parts.clock);
    let at = last.later(now);
    let observers = parts.observers.len();
    let delays = parts.delays.len();
    let plains = parts.plains.len();
    Load {
        layer: parts.exchanges.load(at),
        observers,
        partial: parts.uploads.partial_len(at),
        deferred: parts.exchanges.deferred_len(),
        paths: parts.store.paths(),
        delays,
        plains,
        changes_left: parts.store.changes_left(at),
    }
}

impl<S: Store<A>, A: Allocator + Copy, H: BuildHasher> Server<S, A, H> {
    /// How much the server has at this moment, and how much it has left. A moment before the last one counts as the
    /// last. Nothing changes: the moment doesn't count. It takes no memory.
    pub fn load(&self, now: Moment) -> Load
        // What a server tells of its load are the lengths of its lists at that moment, and what is left to it.
        ensures { IsLoad now.0 result (state_of S.content self.now) }
    {
        load_parts(&self.parts, now)
    }

    /// What `feed` would make of a datagram now. A moment before the last one counts as the last. Nothing changes: the
    /// moment doesn't count. It takes no memory.
    pub fn would(&self, now: Moment, from: Endpoint, bytes: &[u8]) -> Would
        // What a datagram would be at a server is the row of the table of arrivals that `feed` would take.
        ensures { result ≡ would_of self.now.exchanges.layer (max self.now.clock now.0) from bytes.now }
    {
        let at = self.parts.clock.later(now);
        self.parts.exchanges.would(at, from, bytes)
    }

    /// The separate response or the notification that a Reset or a failure ended in the last `feed` or `tick` (RFC
    /// 7252, section 5.2.2; RFC 7641, section 4.5). Nothing changes. It takes no memory.
    pub fn ended(&self) -> Option<Ended>
        // What the server tells to have ended is what its exchanges ended in the last input.
        ensures same { result ≡ self.now.exchanges.own.ended }
        // The token of what ended at a server has at most 8 bytes.
        ensures few { IfSome result (λ ended. length ended.token ≤ max_token_len) }
    {
        self.parts.exchanges.ended()
    }
}
