//! A server whose answers the application computes.
mod answers;
mod moments;
mod notifications;

ghost use Rattle.std.specs.Prelude.{◌≡◌, ◌≤◌, ◌<◌, ◌^◌, length, IfSome, None, Some, IsOk, IfOk, OnOk, OnErr};
ghost use Rattle.coap_types.specs.declared.token.TheConstants.{MAX_TOKEN_LEN as max_token_len};
ghost use Rattle.coap_layer.specs.Machine.State.{made};
ghost use Rattle.coap_layer.specs.Machine.Ups.{IsQuiet};
ghost use Rattle.coap_layer.specs.Trace as below;
ghost use Rattle.coap_exchange.specs.AnswererLaw.{Step, fresh_state};
ghost use Rattle.coap_exchange.specs.AnswererSteps.{asked_in};
ghost use Rattle.coap_exchange.specs.AnswererTrace.{Incoming, Take};
ghost use Rattle.coap_exchange.specs.Machine.AnswererShown.{sending_as};
ghost use Rattle.coap_handlers.specs.Shown.{IsLoad};

use crate::load::{Load, MAX_DEFERRED};
use coap_codec::View;
use coap_exchange::{Answerer, Asked, Ended};
use coap_layer::{Datagram, Setup};
use coap_types::{Endpoint, Id, Moment};
use std::alloc::{AllocError, Allocator};
use std::hash::{BuildHasher, BuildHasherDefault, FoldHasher};
use std::marker::Model;

/// A deferred request that a tick called ready, and the moment of that tick (RFC 7252, section 5.2.2).
#[derive(Drop)]
pub struct Ready {
    /// The moment.
    pub at: Moment,
    /// The request.
    pub asked: Asked,
}

/// A server whose answers the application computes (RFC 7252, section 5.2; RFC 7641, section 4).
///  A feed hands up a request; until the next feed, tick or notification it may be answered, or deferred. A tick calls
/// a deferred one ready; until the next feed, tick or notification it may be responded to. After each call take
/// `next_out` until None. What may not be done is refused by name, and then nothing is done.
#[derive(Drop)]
pub struct Responder<A: Allocator + Copy, S: BuildHasher = BuildHasherDefault<FoldHasher>> {
    answerer: Answerer<A, S>,
    // The request that may be answered or deferred.
    asked: Option<Asked>,
    // The last request that was answered or deferred since the last feed.
    given: Option<Asked>,
    // The deferred request that the last tick called ready.
    ready: Option<Ready>,
    // How many requests are deferred.
    deferred: usize,
    // How many messages are remembered at most.
    most_remembered: usize,
}

impl<A: Allocator + Copy, S: BuildHasher> Model for Responder<A, S> {
    ghost use Rattle.coap_handlers.specs.Shown.{Shown, IsHeld};

    ghost Value = { Shown };

    ghost view = { λ r. record { state = r.answerer.state; given = r.given; ready = r.ready } };

    ghost invariant = { λ r. IsHeld r.answerer r.asked r.ready r.deferred r.most_remembered };
}

impl<A: Allocator + Copy, S: BuildHasher> Responder<A, S> {
    /// A server to which nothing has happened, with so many messages that are remembered at most.
    pub fn with_setup(alloc: A, setup: Setup, hasher: S) -> Self
        // A responder is in the state in which no call was made, by its word and number of places.
        ensures start { result.state ≡ fresh_state setup }
        // No request was answered by a new responder.
        ensures given { result.given ≡ None }
        // No deferred request of a new responder is ready.
        ensures ready { result.ready ≡ None }
    {
        let most_remembered = setup.remembered.get();
        Responder {
            answerer: Answerer::with_setup(alloc, setup, hasher),
            asked: None,
            given: None,
            ready: None,
            deferred: 0,
            most_remembered,
        }
    }

    /// Takes a datagram that arrived. A request is handed up, with what its answer needs of it: at most once while it
    /// is remembered (RFC 7252, section 4.5).
    pub fn feed<'d>(
        &mut self,
        now: Moment,
        from: Endpoint,
        datagram: &'d [u8],
    ) -> Result<Option<(Asked, View<'d>)>, AllocError>
        // A feed makes just one call of the exchanges, and hands up what that handed up.
        ensures step { IfOk result (λ answer. (up : below.Answer)
            × Step self.old.state (Incoming now.0 from datagram.now up answer) self.new.state) }
        // The token of a request that a feed hands up has at most 8 bytes.
        ensures few { IfOk result (λ answer. IfSome (asked_in answer)
            (λ asked. length asked.token ≤ max_token_len)) }
        // After a feed no request counts as answered.
        ensures given { OnOk result (self.new.given ≡ None) }
        // After a feed no deferred request is ready, until a tick says so again.
        ensures ready { OnOk result (self.new.ready ≡ None) }
        // A feed that is refused memory leaves the responder as it was.
        ensures err { OnErr result (self.new ≡ self.old) }
        // A datagram for which the message layer sends nothing and hands nothing up takes no memory.
        ensures quiet { IsQuiet (made self.old.state.layer now.0 (below.Receive from datagram.now)) → IsOk result }
    {
        let answer = self.answerer.incoming(now, from, datagram)?;
        self.asked = handed(&answer);
        self.given = None;
        self.ready = None;
        Ok(answer)
    }

    /// The datagram that is to be sent next. It takes no memory.
    pub fn next_out(&mut self) -> Option<Datagram<A>>
        // What a responder gives out is what the exchanges give out at just one call.
        ensures step { Step self.old.state (Take result) self.new.state }
        // What is given out leaves which request counts as answered.
        ensures given { self.new.given ≡ self.old.given }
        // What is given out leaves which deferred request is ready.
        ensures ready { self.new.ready ≡ self.old.ready }
    {
        self.answerer.next_out()
    }

    /// The last moment that counted.
    pub fn clock(&self) -> Moment
        // The latest moment that counted is that of the exchanges.
        ensures { result.0 ≡ self.now.state.own.clock }
    {
        self.answerer.clock()
    }

    /// The separate response or the notification that a Reset or a failure ended in the last feed or tick (RFC 7252,
    /// section 5.2.2; RFC 7641, sections 3.6 and 4.5).
    pub fn ended(&self) -> Option<Ended>
        // What is told to have ended is what the last feed or tick ended.
        ensures same { result ≡ self.now.state.own.ended }
        // The token of what is told to have ended has at most 8 bytes.
        ensures few { IfSome result (λ ended. length ended.token ≤ max_token_len) }
    {
        self.answerer.ended()
    }

    /// The Reset that the last feed found of no message that is outstanding, as of a notification in a Non-confirmable
    /// message: where it came from, and the Message ID (RFC 7641, section 3.6).
    pub fn unmatched(&self) -> Option<(Endpoint, Id)>
        // What is told is the Reset of nothing outstanding that the last datagram was, if it was one.
        ensures { sending_as result ≡ self.now.state.own.unmatched }
    {
        self.answerer.unmatched()
    }

    /// How full its tables are, as far as the exchanges tell. It takes no memory.
    pub fn load(&self) -> Load
        // What is told of the tables is how many requests are deferred, and how many places there are.
        ensures { IsLoad self.now result }
    {
        Load {
            deferred: self.deferred,
            most_deferred: MAX_DEFERRED,
            most_remembered: self.most_remembered,
        }
    }
}

// The request that is handed up, as its answer needs it.
fn handed(answer: &Option<(Asked, View<'_>)>) -> Option<Asked>
    ensures { result ≡ asked_in answer.now }
{
    match answer {
        Some((asked, _)) => Some(asked.copy()),
        None => None,
    }
}
