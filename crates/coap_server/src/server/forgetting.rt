//! A peer that never comes again: nothing of it is left but what is remembered of duplicates.
ghost use Rattle.std.specs.Prelude.{◌≡◌, ◌≤◌, ◌<◌, ◌^◌, ℕ, false};
ghost use Rattle.coap_layer.specs.EmptyMessages.{reset_bytes};
ghost use Rattle.coap_layer.specs.Machine.Peers.{goes_to};
ghost use Rattle.coap_exchange.specs.Peers.{reset_to};
ghost use Rattle.coap_server.specs.Forgetting.{IsForgotten};
ghost use Rattle.coap_server.specs.Led.{Step};
ghost use Rattle.coap_server.specs.Object.Shown.{seen, state_of, waiting_of_others};
ghost use Rattle.coap_server.specs.Peers.{knows};
ghost use Rattle.coap_server.specs.Trace.{Forgets};

use crate::server::Server;
use crate::server::feed::feed_parts;
use crate::server::parts::{Parts, Waiting};
use crate::server::peers::know;
use coap_exchange::Answerer;
use coap_layer::reset;
use coap_resource::Store;
use coap_types::{Endpoint, Id, Moment};
use std::alloc::Allocator;
use std::hash::BuildHasher;

// The requests of other peers go on waiting.
fn retain_others<A: Allocator + Copy>(waiting: &mut Vec<Waiting<A>, A>, peer: Endpoint)
    ensures { waiting.new.items ≡ waiting_of_others peer waiting.old.items }
{
    waiting.retain(|waits| waits.asked.from != peer);
}

// Lets go of what is of a peer, but for what is outstanding to it.
fn let_go<S: Store<A>, A: Allocator + Copy, H: BuildHasher>(
    parts: &mut Parts<S, A, H>,
    peer: Endpoint,
)
    requires timed { parts.old.observers.clock ≤ parts.old.clock.0 }
    ensures step { Step (seen S.content parts.old) (Forgets peer) (seen S.content parts.new) }
    ensures timed { parts.new.observers.clock ≤ parts.new.clock.0 }
{
    parts.exchanges.forget(peer);
    parts.uploads.forget(peer);
    parts.observers.forget(peer);
    retain_others(&mut parts.waiting, peer);
}

// The Message ID of what the peer is taken to reject.
fn rejected_id<A: Allocator + Copy, H: BuildHasher>(
    exchanges: &Answerer<A, H>,
    peer: Endpoint,
) -> Id
    ensures is { result.0 ≡ reset_to peer exchanges.now.state.own.separate }
    ensures small { result.0 < 2 ^ 16 }
{
    match exchanges.outstanding_to(peer) {
        Some(id) => id,
        None => Id(0),
    }
}

// Forgets a peer: it is taken to reject what is outstanding to it, and what else is of it is let go.
fn forget_parts<S: Store<A>, A: Allocator + Copy, H: BuildHasher>(
    parts: &mut Parts<S, A, H>,
    peer: Endpoint,
)
    requires timed { parts.old.observers.clock ≤ parts.old.clock.0 }
    ensures step { IsForgotten peer (seen S.content parts.old) (seen S.content parts.new) }
    ensures small { reset_to peer (seen S.content parts.old).own.exchanges.separate < 2 ^ 16 }
    ensures timed { parts.new.observers.clock ≤ parts.new.clock.0 }
{
    let id = rejected_id(&parts.exchanges, peer);
    let rejects = reset(id);
    // A Reset takes no memory.
    let _heard = feed_parts(parts, Moment(0), peer, &rejects);
    let_go(parts, peer);
}

impl<S: Store<A>, A: Allocator + Copy, H: BuildHasher> Server<S, A, H> {
    /// The Reset with which a peer rejects what is outstanding to it; that of the Message ID 0 where nothing is.
    pub fn rejects(&self, peer: Endpoint) -> [u8; 4]
        // The Reset of a peer is that of what is outstanding to it.
        ensures { result ≡ reset_bytes (reset_to peer self.now.exchanges.own.separate) }
    {
        let id = rejected_id(&self.parts.exchanges, peer);
        reset(id)
    }

    /// Lets go of what is of a peer that never comes again, but for what is outstanding to it: the second step of
    /// `forget`, of which the first is its Reset. It takes no memory.
    pub fn let_go(&mut self, peer: Endpoint)
        // To let go of what is of a peer is one step of the server's machine.
        ensures { Step (state_of S.content self.old) (Forgets peer) (state_of S.content self.new) }
    {
        let_go(&mut self.parts, peer);
    }

    /// Forgets a peer that never comes again, as one whose session is closed: its observations, its uploads that are
    /// not whole, its requests that wait, and what is outstanding to it; whether there was anything. What waits to be
    /// taken stays: take `next_out` first. What is remembered of duplicates stays, too, so that a copy of what was
    /// served is not served again. It takes no memory.
    pub fn forget(&mut self, peer: Endpoint) -> bool
        // Whether there was anything of a peer that is forgotten is whether the server knew it.
        ensures known { result ≡ knows (state_of S.content self.old) 0 peer }
        // To forget a peer is two steps of the server's machine: it rejects what is outstanding to it, and then what is
        // of it is let go.
        ensures step { IsForgotten peer (state_of S.content self.old) (state_of S.content self.new) }
        // A peer that is forgotten is not known any more, where nothing that goes to it waits to be taken.
        ensures unknown { goes_to peer self.old.exchanges.layer.queue ≡ false → (now : ℕ)
            → knows (state_of S.content self.new) now peer ≡ false }
    {
        let known = know(&self.parts, Moment(0), peer);
        forget_parts(&mut self.parts, peer);
        known
    }
}
