//! What a client tells of itself: how much it has, and what a datagram would be.
ghost use Rattle.std.specs.Prelude.{◌≡◌, max};
ghost use Rattle.coap_layer.specs.Machine.Would.{would_of};
ghost use Rattle.coap_client.specs.Load.{IsClientLoad};
ghost use Rattle.coap_client.specs.Object.Held.{seen};

use crate::client::Client;
use crate::client::parts::Parts;
use coap_layer::{LayerLoad, Would};
use coap_types::{Endpoint, Moment};
use std::alloc::Allocator;
use std::hash::BuildHasher;

/// How much a client has at a moment.
#[derive(Clone, Copy, Debug, PartialEq, Eq)]
pub struct ClientLoad {
    /// What its message layer has.
    pub layer: LayerLoad,
    /// How many operations and cancels wait.
    pub waiting: usize,
    /// How many observations are live (RFC 7641, section 3).
    pub observations: usize,
    /// How many reports wait to be taken.
    pub reports: usize,
}

// How much the parts of a client have at this moment.
fn load_parts<A: Allocator + Copy, H: BuildHasher>(parts: &Parts<A, H>, now: Moment) -> ClientLoad
    ensures { IsClientLoad now.0 result (seen parts.now) }
{
    let last = parts.asker.clock().later(parts.held.clock);
    let at = last.later(now);
    ClientLoad {
        layer: parts.asker.load(at),
        waiting: parts.held.operations.waiting_len(),
        observations: parts.held.operations.live_len(),
        reports: parts.held.reports.len(),
    }
}

impl<A: Allocator + Copy, H: BuildHasher> Client<A, H> {
    /// How much the client has at this moment. A moment before the last one counts as the last. Nothing changes: the
    /// moment doesn't count. It takes no memory.
    pub fn load(&self, now: Moment) -> ClientLoad
        // What a client tells of its load are the lengths of its lists at that moment.
        ensures { IsClientLoad now.0 result self.now }
    {
        load_parts(&self.parts, now)
    }

    /// What `feed` would make of a datagram now. A moment before the last one counts as the last. Nothing changes: the
    /// moment doesn't count. It takes no memory.
    pub fn would(&self, now: Moment, from: Endpoint, bytes: &[u8]) -> Would
        // What a datagram would be at a client is the row of the table of arrivals that `feed` would take.
        ensures { result ≡ would_of self.now.layer.layer (max self.now.own.clock now.0) from bytes.now }
    {
        let at = self.parts.held.clock.later(now);
        self.parts.asker.would(at, from, bytes)
    }
}
