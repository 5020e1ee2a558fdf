//! A peer that never comes again: what is outstanding to it, and its deferred requests (RFC 7252, section 5.2).
ghost use Rattle.std.specs.Prelude.{◌≡◌};
ghost use Rattle.coap_exchange.specs.AnswererLaw.{Step};
ghost use Rattle.coap_exchange.specs.AnswererTrace.{Forgets};
ghost use Rattle.coap_exchange.specs.Peers.{outstanding_to as outstanding_to_lem};

use crate::answerer::Answerer;
use crate::separate::outstanding_to;
use coap_types::{Endpoint, Id};
use std::alloc::Allocator;
use std::hash::BuildHasher;

impl<A: Allocator + Copy, S: BuildHasher> Answerer<A, S> {
    /// The Message ID of the separate response or the notification to this peer that is not acknowledged yet. Nothing
    /// changes. It takes no memory.
    pub fn outstanding_to(&self, peer: Endpoint) -> Option<Id>
        // The Message ID that is told is that of the first that went there and is outstanding.
        ensures { result ≡ outstanding_to_lem peer self.now.state.own.separate }
    {
        outstanding_to(&self.separate, peer)
    }

    /// Lets go of the deferred requests of this peer, which never comes again. It takes no memory.
    pub fn forget(&mut self, peer: Endpoint)
        // That the deferred requests of a peer are let go is a step of the answerer's machine.
        ensures step { Step self.old.state (Forgets peer) self.new.state }
        // Deferred requests that are let go are taken back with the last input.
        ensures before { self.new.before ≡ self.old.before }
        // To let go of deferred requests leaves whether a request may be answered.
        ensures answerable { self.new.answerable ≡ self.old.answerable }
        // To let go of deferred requests leaves whether there is room for a separate response.
        ensures room { self.new.room ≡ self.old.room }
    {
        self.deferred.forget(peer);
    }
}
