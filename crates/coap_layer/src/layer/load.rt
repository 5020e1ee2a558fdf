//! What a layer tells of itself: how much it has, what a datagram would be, and whom it knows.
ghost use Rattle.std.specs.Prelude.{◌≡◌};
ghost use Rattle.coap_layer.specs.Machine.Load.{IsLayerLoad};
ghost use Rattle.coap_layer.specs.Machine.Peers.{knows};
ghost use Rattle.coap_layer.specs.Machine.Would.{would_of};

use crate::arriving::{read, would};
use crate::layer::Layer;
use crate::outstanding::outstanding_len;
use crate::peers::{goes_to, is_awaited, one_of};
use crate::retransmission::is_busy;
use crate::{LayerLoad, Would};
use coap_types::{Endpoint, Moment};
use std::alloc::Allocator;
use std::hash::BuildHasher;

impl<A: Allocator + Copy, S: BuildHasher> Layer<A, S> {
    /// How much the layer has at this moment. A moment before the last one counts as the last. Nothing changes: the
    /// moment doesn't count. It takes no memory.
    pub fn load(&self, now: Moment) -> LayerLoad
        // What a layer tells of its load is how long its lists are at that moment, and how many Message IDs are left.
        ensures { IsLayerLoad now.0 result self.now.state }
    {
        let at = self.clock.later(now);
        LayerLoad {
            remembered: self.lists.entries.remembered(at),
            remembered_most: self.most.get(),
            outstanding: outstanding_len(&self.lists.sendings),
            queued: self.lists.waiting.len(),
            ids_left: self.ids.left(at),
        }
    }

    /// What `receive` would make of a datagram now. A moment before the last one counts as the last. Nothing changes:
    /// the moment doesn't count. It takes no memory.
    pub fn would(&self, now: Moment, from: Endpoint, bytes: &[u8]) -> Would
        // What a datagram would be is the row of the table of arrivals that `receive` would take.
        ensures { result ≡ would_of self.now.state now.0 from bytes.now }
    {
        let at = self.clock.later(now);
        let free = self.ids.would_give(at);
        would(&read(bytes), at, from, &self.lists, self.most, free)
    }
    /// Whether something is kept of this peer that may be sent, or may still be needed: a Confirmable message to it
    /// that is outstanding, a datagram to it that waits to be taken, or its message that was handed up last. What is
    /// remembered of duplicates doesn't count. Nothing changes. It takes no memory.
    pub fn knows(&self, peer: Endpoint) -> bool
        // Whether a layer knows a peer is whether one of its lists has something of it.
        ensures { result ≡ knows peer self.now.state }
    {
        let busy = is_busy(&self.lists.sendings, peer);
        let queued = goes_to(&self.lists.waiting, peer);
        one_of(busy, queued, is_awaited(self.awaits, peer))
    }
}
