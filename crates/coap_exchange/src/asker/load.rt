//! What the client's side of the exchanges tells of itself: how much it has, and what a datagram would be.
ghost use Rattle.std.specs.Prelude.{◌≡◌, length};
ghost use Rattle.coap_layer.specs.Machine.Load.{IsLayerLoad};
ghost use Rattle.coap_layer.specs.Machine.Would.{would_of};

use crate::asker::Asker;
use coap_layer::{LayerLoad, Would};
use coap_types::{Endpoint, Moment};
use std::alloc::Allocator;
use std::hash::BuildHasher;

impl<A: Allocator + Copy, S: BuildHasher> Asker<A, S> {
    /// How much the message layer has at this moment. A moment before the last one counts as the last. Nothing changes.
    /// It takes no memory.
    pub fn load(&self, now: Moment) -> LayerLoad
        // What a client's exchanges tell of their load is what their message layer tells.
        ensures { IsLayerLoad now.0 result self.now.state.layer }
    {
        self.layer.load(now)
    }

    /// How many tokens of observations are kept.
    pub fn kept_len(&self) -> usize
        // The number is that of the tokens that are kept.
        ensures { result ≡ length self.now.state.own.kept }
    {
        self.held.kept.len()
    }

    /// What a datagram would be if it arrived now. A moment before the last one counts as the last. Nothing changes. It
    /// takes no memory.
    pub fn would(&self, now: Moment, from: Endpoint, bytes: &[u8]) -> Would
        // What a datagram would be at a client's exchanges is what it would be at their message layer.
        ensures { result ≡ would_of self.now.state.layer now.0 from bytes.now }
    {
        self.layer.would(now, from, bytes)
    }
}
