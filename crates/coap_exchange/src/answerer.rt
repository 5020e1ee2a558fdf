//! The server's side of the exchanges (RFC 7252, section 5).
mod forgetting;
mod load;
mod moments;
mod notifications;
mod responses;

ghost use Rattle.std.specs.Prelude.{◌≡◌, ◌≤◌, ◌<◌, ◌^◌, ℕ, length, IfSome, true, None, Some, [], IsSome, is_some};
ghost use Rattle.std.specs.Prelude.{IsOk, IfOk, OnOk, OnErr};
ghost use Rattle.coap_types.specs.declared.endpoint.Endpoint.{Endpoint as EndpointSpec};
ghost use Rattle.coap_types.specs.declared.token.TheConstants.{MAX_TOKEN_LEN as max_token_len};
ghost use Rattle.coap_layer.specs.Machine.State.{made, usual};
ghost use Rattle.coap_layer.specs.Trace as below;
ghost use Rattle.coap_layer.specs.Machine.Ups.{IsQuiet};
ghost use Rattle.coap_exchange.specs.AnswererSteps.{asked_in};
ghost use Rattle.coap_exchange.specs.AnswererLaw.{Led, Step, fresh_state};
ghost use Rattle.coap_exchange.specs.Machine.AnswererShown.{MayNotify, sending_as};
ghost use Rattle.coap_exchange.specs.AnswererTrace.{Incoming, Take};

use crate::deferrals::Deferrals;
use crate::findings::Findings;
use crate::listed::{Listed, put_back, settle_down};
use crate::replies::{after_arrival, copied, copied_end, handed_up, keeps_room, reject};
use crate::separate::Separate;
use coap_codec::View;
use coap_layer::{Datagram, Layer, Setup};
use coap_types::{Code, Endpoint, Id, Kind, Moment, Opt, Token, reveal};
use std::alloc::{AllocError, Allocator};
use std::hash::{BuildHasher, BuildHasherDefault, FoldHasher};
use std::marker::Model;
use std::mem;

/// A request that was handed up, as its response needs it (RFC 7252, section 5.2).
#[derive(Debug, PartialEq, Eq, Drop)]
pub struct Asked {
    /// Where it came from.
    pub from: Endpoint,
    /// Confirmable or Non-confirmable.
    pub kind: Kind,
    /// Its Message ID.
    pub id: Id,
    /// Its token.
    pub token: Token,
}

impl Asked {
    /// The same again. It takes no memory.
    pub fn copy(&self) -> Asked
        // The copy of a request's endpoint, Message ID and token is the same.
        ensures same { result ≡ self.now }
        // The token of the copy has at most 8 bytes.
        ensures few { length result.token ≤ max_token_len }
    {
        reveal(&self.token);
        Asked {
            from: self.from,
            kind: self.kind,
            id: self.id,
            token: self.token.copy(),
        }
    }
}

/// What a tick of the server did.
#[derive(Drop)]
pub enum Due {
    /// Nothing was due.
    Idle,
    /// A response was sent again.
    Copied,
    /// A response was not acknowledged: its transmission failed (RFC 7252, section 4.2).
    Expired,
    /// This deferred request is to be responded to now.
    Ready(Asked),
}

/// A separate response or a notification that a Reset or a failure ended (RFC 7252, section 5.2.2;
/// RFC 7641, sections 3.6 and 4.5).
#[derive(Drop)]
pub struct Ended {
    /// Where it went.
    pub to: Endpoint,
    /// Its token.
    pub token: Token,
    /// Whether it carried Observe (RFC 7641, section 3.2).
    pub observe: bool,
}

/// A response or a notification (RFC 7252, section 5.2): at most 1,152 bytes as a message with its
/// token.
#[derive(Drop)]
pub struct Response<'a> {
    /// The code, of class 2 to 5.
    pub code: Code,
    /// The options, in the order of their numbers.
    pub options: &'a [Opt<'a>],
    /// The payload; empty where there is none.
    pub payload: &'a [u8],
}

impl<'a> Model for Response<'a> {
    ghost use Rattle.coap_types.specs.CoapOption.{options_of};
    ghost use Rattle.coap_exchange.specs.AnswererTrace.{Response};

    ghost Value = { Response };

    ghost view = { λ r. record { code = r.code.0; options = options_of r.options.now; payload = r.payload.now } };
}

/// The server's side of the exchanges with its clients (RFC 7252, section 5).
///
/// After each call take `next_out` until None; a moment before the last one counts as the last.
#[derive(Drop)]
pub struct Answerer<A: Allocator + Copy, S: BuildHasher = BuildHasherDefault<FoldHasher>> {
    layer: Layer<A, S>,
    deferred: Deferrals,
    separate: Vec<Listed<Separate>, A>,
    findings: Findings,
    // The pending request may be answered.
    answerable: bool,
    // There is room for a separate response or a notification.
    room: bool,
    // What the last input found as it came.
    deferred_before: Deferrals,
    findings_before: Findings,
}

impl<A: Allocator + Copy, S: BuildHasher> Model for Answerer<A, S> {
    ghost use Rattle.std.specs.Vec.{vec_len, vec_capacity};
    ghost use Rattle.coap_exchange.specs.Machine.AnswererShown.{Shown, state_of, before_of, sending_as, IsAnswerable};
    ghost use Rattle.coap_exchange.specs.Machine.AnswererShown.{HasPlace};
    ghost use Rattle.coap_exchange.specs.Machine.Listed.{listed, listed_before};

    ghost Value = { Shown };

    ghost view = { λ a. record {
      state = state_of a.layer.state a.findings.pending a.deferred (listed a.separate.items) a.findings.ended
          (sending_as a.findings.unmatched);
      before = before_of a.layer.before a.findings_before.pending a.deferred_before
          (listed_before a.separate.items) a.findings_before.ended (sending_as a.findings_before.unmatched);
      answerable = a.answerable;
      room = a.room;
    } };

    ghost invariant = { λ a. IsAnswerable a.answerable a.layer a.findings.pending
        × HasPlace a.room a.layer (vec_len a.separate) (vec_capacity a.separate) };
}

impl<A: Allocator + Copy> Answerer<A, BuildHasherDefault<FoldHasher>> {
    /// A server's side to which nothing has happened. The word picks its first Message ID.
    pub fn new(alloc: A, word: u64) -> Self
        // A `new` answerer is in the state in which no call was made, by its word.
        ensures start { result.state ≡ fresh_state (usual word) }
        // A `new` answerer has no input to take back.
        ensures before { result.before ≡ None }
    {
        Answerer::with_hasher(alloc, word, BuildHasherDefault::new())
    }
}

impl<A: Allocator + Copy, S: BuildHasher> Answerer<A, S> {
    /// The same, with a hasher for the messages that are remembered.
    pub fn with_hasher(alloc: A, word: u64, hasher: S) -> Self
        // An answerer of `with_hasher` is in the state in which no call was made, whatever the hasher.
        ensures start { result.state ≡ fresh_state (usual word) }
        // An answerer of `with_hasher` has no input to take back.
        ensures before { result.before ≡ None }
    {
        Answerer::with_setup(alloc, Setup::new(word), hasher)
    }

    /// The same, with so many messages that are remembered at most.
    pub fn with_setup(alloc: A, setup: Setup, hasher: S) -> Self
        // An answerer of `with_setup` is in the state in which no call was made, by its word and number of places.
        ensures start { result.state ≡ fresh_state setup }
        // An answerer of `with_setup` has no input to take back.
        ensures before { result.before ≡ None }
    {
        Answerer {
            layer: Layer::with_setup(alloc, setup, hasher),
            deferred: Deferrals::new(),
            separate: Vec::new(alloc),
            findings: Findings::none(),
            answerable: false,
            room: false,
            deferred_before: Deferrals::new(),
            findings_before: Findings::none(),
        }
    }

    /// The last moment that counted.
    pub fn clock(&self) -> Moment
        // The latest moment that counted is the one of the answerer's own clock.
        ensures own { result.0 ≡ self.now.state.own.clock }
        // That moment is the one of the message layer.
        ensures layer { result.0 ≡ self.now.state.layer.clock }
    {
        self.layer.clock()
    }

    /// The separate response or the notification that a Reset or a failure ended in the last
    /// `incoming` or `tick` (RFC 7252, section 5.2.2; RFC 7641, sections 3.6 and 4.5).
    pub fn ended(&self) -> Option<Ended>
        // What is told to have ended is what the last call ended.
        ensures same { result ≡ self.now.state.own.ended }
        // The token of a response that ended has at most 8 bytes.
        ensures few { IfSome result (λ ended. length ended.token ≤ max_token_len) }
    {
        copied_end(&self.findings.ended)
    }

    /// The Reset that the last `incoming` found of no message that is outstanding, as of one that
    /// was Non-confirmable: where it came from, and its Message ID (RFC 7641, section 3.6). It takes
    /// no memory.
    pub fn unmatched(&self) -> Option<(Endpoint, Id)>
        // What is told is what the last arrival was: a Reset of nothing that is outstanding, or nothing.
        ensures { sending_as result ≡ self.now.state.own.unmatched }
    {
        self.findings.unmatched
    }

    /// Takes a datagram that arrived. A request is handed up, but for a Non-confirmable one for
    /// which no Message ID is free; a response is rejected; an acknowledgement and a Reset end the
    /// separate response or the notification that they are to (RFC 7252, sections 4.2, 4.3 and 5.2).
    pub fn incoming<'d>(
        &mut self,
        now: Moment,
        from: Endpoint,
        bytes: &'d [u8],
    ) -> Result<Option<(Asked, View<'d>)>, AllocError>
        // What becomes of an arrival, and what that leaves, is a step of the answerer's machine.
        ensures step { IfOk result (λ answer. (up : below.Answer)
            × Step self.old.state (Incoming now.0 from bytes.now up answer) self.new.state) }
        // After an arrival a request that was handed up may be answered.
        ensures answerable { OnOk result (self.new.answerable ≡ true) }
        // The token of a request that is handed up has at most 8 bytes.
        ensures few { IfOk result (λ answer. IfSome (asked_in answer)
            (λ asked. length asked.token ≤ max_token_len)) }
        // What hands up a request ends nothing.
        ensures ends_none { IfOk result (λ answer. is_some answer ≡ true → self.new.state.own.ended ≡ None) }
        // Where a notification could be sent and an arrival sends nothing, it still can.
        ensures kept { OnOk result (self.new.state.layer.queue ≡ self.old.state.layer.queue
            → (at : ℕ) (there : EndpointSpec) → MayNotify self.old at there → MayNotify self.new at there) }
        // An arrival at the answerer can be taken back.
        ensures before { OnOk result (self.new.before ≡ Some self.old.state) }
        // An arrival that is refused memory leaves the answerer as it was.
        ensures err { OnErr result (self.new ≡ self.old) }
        // An arrival at the answerer for which the layer sends nothing and hands nothing up takes no memory.
        ensures quiet { IsQuiet (made self.old.state.layer now.0 (below.Receive from bytes.now)) → IsOk result }
    {
        let up = self.layer.receive(now, from, bytes)?;
        let rejected = reject(&mut self.layer, from, &up);
        settle_down(&mut self.separate);
        let found = Findings::of_arrival(from, &up, &self.separate);
        let asked = copied(&found.pending);
        self.findings_before = mem::replace(&mut self.findings, found);
        self.deferred_before.copy_from(&self.deferred);
        after_arrival(from, &up, &mut self.separate);
        self.answerable = true;
        self.room = keeps_room(self.room, rejected);
        Ok(handed_up(asked, up))
    }

    /// The datagram that is to be sent next. After it, nothing can be taken back. It takes no
    /// memory.
    pub fn next_out(&mut self) -> Option<Datagram<A>>
        // Which datagram the answerer gives out, and what that leaves, is a step of its machine.
        ensures step { Step self.old.state (Take result) self.new.state }
        // A datagram that is given out leaves whether a request may be answered.
        ensures answerable { self.new.answerable ≡ self.old.answerable }
        // Where a notification could be sent before a datagram is given out, it still can.
        ensures kept { (at : ℕ) (there : EndpointSpec) → MayNotify self.old at there → MayNotify self.new at there }
        // What the answerer gave out is not taken back.
        ensures before { self.new.before ≡ None }
        // No more datagrams wait at an answerer than a list in memory holds.
        ensures few { length self.old.state.layer.queue < 2 ^ 64 }
    {
        self.layer.next_out()
    }

    /// Takes back the last `incoming` or `tick` that was not refused memory, and every call since.
    /// No request may be answered or deferred then. It takes no memory.
    pub fn undo(&mut self)
        requires { IsSome self.old.before }
        // The last input is taken back: the answerer is as it was before it.
        ensures back { self.old.before ≡ Some self.new.state }
        // After that the answerer has no input to take back.
        ensures spent { self.new.before ≡ None }
    {
        self.layer.undo();
        put_back(&mut self.separate);
        self.findings = self.findings_before.copy();
        self.deferred.copy_from(&self.deferred_before);
        self.answerable = false;
        self.room = false;
    }
}
