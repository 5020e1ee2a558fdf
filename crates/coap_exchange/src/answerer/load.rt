//! What the server's side of the exchanges tells of itself: how much it has, what a datagram would be, whom it knows.
ghost use Rattle.std.specs.Prelude.{◌≡◌, length};
ghost use Rattle.coap_layer.specs.Machine.Load.{IsLayerLoad};
ghost use Rattle.coap_layer.specs.Machine.Would.{would_of};
ghost use Rattle.coap_exchange.specs.Peers.{knows};

use crate::answerer::Answerer;
use crate::peers::{is_asked_by, is_sent_to, one_of};
use coap_layer::{LayerLoad, Would};
use coap_types::{Endpoint, Moment};
use std::alloc::Allocator;
use std::hash::BuildHasher;

impl<A: Allocator + Copy, S: BuildHasher> Answerer<A, S> {
    /// How much the message layer has at this moment. A moment before the last one counts as the last. Nothing changes.
    /// It takes no memory.
    pub fn load(&self, now: Moment) -> LayerLoad
        // What a server's exchanges tell of their load is what their message layer tells.
        ensures { IsLayerLoad now.0 result self.now.state.layer }
    {
        self.layer.load(now)
    }

    /// How many requests are deferred.
    pub fn deferred_len(&self) -> usize
        // The number is that of the requests that are deferred.
        ensures { result ≡ length self.now.state.own.deferred }
    {
        self.deferred.len()
    }

    /// What a datagram would be if it arrived now. A moment before the last one counts as the last. Nothing changes. It
    /// takes no memory.
    pub fn would(&self, now: Moment, from: Endpoint, bytes: &[u8]) -> Would
        // What a datagram would be at a server's exchanges is what it would be at their message layer.
        ensures { result ≡ would_of self.now.state.layer now.0 from bytes.now }
    {
        self.layer.would(now, from, bytes)
    }

    /// Whether something is kept of this peer that may be sent, or may still be needed: a message that is outstanding
    /// or waits to be taken, or a request that is to be answered. What is remembered of duplicates doesn't count.
    /// Nothing changes. It takes no memory.
    pub fn knows(&self, peer: Endpoint) -> bool
        // Whether a peer is known is whether one of the lists of the exchanges, or of their message layer, has it.
        ensures { result ≡ knows peer self.now.state }
    {
        let known = self.layer.knows(peer);
        let sent = is_sent_to(&self.separate, peer);
        let deferred = self.deferred.has_of(peer);
        one_of(
            known,
            sent,
            deferred,
            is_asked_by(&self.findings.pending, peer),
        )
    }
}
