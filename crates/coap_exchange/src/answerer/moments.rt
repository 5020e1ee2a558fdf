//! What is due, and when (RFC 7252, sections 4.2, 4.7 and 5.2.2).
ghost use Rattle.std.specs.Prelude.{◌≡◌, ◌≢◌, ◌≤◌, ◌<◌, ◌^◌, ℕ, max, length, Bool, true, false, Some, [], IfNone};
ghost use Rattle.std.specs.Prelude.{IfSome, List};
ghost use Rattle.std.specs.Prelude.{Ok, IsOk, IfOk, OnOk, OnErr};
ghost use Rattle.coap_types.specs.FirstMoment.{IsFirstMoment};
ghost use Rattle.coap_types.specs.declared.endpoint.Endpoint.{Endpoint as EndpointSpec};
ghost use Rattle.coap_types.specs.declared.token.TheConstants.{MAX_TOKEN_LEN as max_token_len};
ghost use Rattle.coap_layer.specs.Machine.State.{answer_of, copies, is_free};
ghost use Rattle.coap_layer.specs.Trace as below;
ghost use Rattle.coap_layer.specs.declared.setup.Setup.{Setup as SetupSpec};
ghost use Rattle.coap_exchange.specs.declared.answerer.Asked.{Asked as AskedSpec};
ghost use Rattle.coap_exchange.specs.declared.answerer.Due.TheVariants as dues;
ghost use Rattle.coap_exchange.specs.AnswererLaw.{Led, Step};
ghost use Rattle.coap_exchange.specs.AnswererTrace.{Call, Ticks};
ghost use Rattle.coap_exchange.specs.Machine.AnswererShown.{MayNotify, MayRespond};
ghost use Rattle.coap_exchange.specs.Machine.Rests.{AnswererRests, AnswererTurns, has_due};
ghost use Rattle.coap_exchange.specs.Machine.WhatIsDue.{takes_con, takes_response};

use crate::answerer::{Answerer, Due};
use crate::findings::Findings;
use crate::listed::settle_down;
use crate::waiting::{due_of, is_sendable, make_room, unless_due, unless_failed};
use coap_types::{Moment, earlier, latest};
use std::alloc::{AllocError, Allocator};
use std::hash::BuildHasher;
use std::mem;

impl<A: Allocator + Copy, S: BuildHasher> Answerer<A, S> {
    /// Does the first that is due: the failure of a separate response, a retransmission, the
    /// response to a deferred request whose delay has passed, to whose endpoint no Confirmable
    /// message is outstanding, and for which a Message ID is free (RFC 7252, sections 4.2, 4.7 and
    /// 5.2.2). `respond` is to be called for that, at the same moment, and is not refused memory.
    pub fn tick(&mut self, now: Moment) -> Result<Due, AllocError>
        // What a tick does, and what that leaves, is a step of the answerer's machine.
        ensures step { IfOk result (λ due. (done : below.Answer) × (room : Bool)
            × Step self.old.state (Ticks now.0 done room due) self.new.state) }
        // To a request that a tick calls ready a response may be sent at that moment.
        ensures ready { IfOk result (λ due. (a : AskedSpec) → due ≡ dues.Ready a → MayRespond self.new now.0 a) }
        // The token of a request that a tick calls ready has at most 8 bytes.
        ensures few { IfOk result (λ due. (a : AskedSpec) → due ≡ dues.Ready a → length a.token ≤ max_token_len) }
        // Where a notification could be sent before a tick, it still can.
        ensures kept { OnOk result ((at : ℕ) (there : EndpointSpec) → MayNotify self.old at there
            → MayNotify self.new at there) }
        // A tick of the answerer can be taken back.
        ensures before { OnOk result (self.new.before ≡ Some self.old.state) }
        // A tick that is refused memory leaves the answerer as it was.
        ensures err { OnErr result (self.new ≡ self.old) }
        // A request is ready only where its response can be sent.
        ensures only { IfOk result (λ due. (a : AskedSpec) → due ≡ dues.Ready a
            → takes_response self.old.state now.0 ≡ true) }
        // Where nothing was due, a CON can be sent where it could before.
        ensures same { IfOk result (λ due. due ≡ dues.Idle → (there : EndpointSpec)
            → takes_con self.new.state now.0 there ≡ takes_con self.old.state now.0 there) }
        // Where no retransmission is due, and no deferred request is ready or no Message ID is free, or a
        // failure comes first, it takes no memory.
        ensures quiet { copies (max self.old.state.own.clock now.0) self.old.state.layer.open_cons ≡ []
            → takes_response self.old.state now.0 ≡ false → IsOk result }
        // Where no retransmission is due and there is room for a response, the tick takes no memory.
        ensures had { copies (max self.old.state.own.clock now.0) self.old.state.layer.open_cons ≡ []
            → self.old.room ≡ true → IsOk result }
        // Room that was there is there after the tick.
        ensures room { OnOk result (self.old.room ≡ true → self.new.room ≡ true) }
        // Where no copy is due and the layer has a failure, the tick tells that.
        ensures fails { copies (max self.old.state.own.clock now.0) self.old.state.layer.open_cons ≡ []
            → answer_of self.old.state.layer (max self.old.state.own.clock now.0) below.Ticks ≢ below.Idle
            → result ≡ Ok dues.Expired }
    {
        let at = Moment(self.layer.clock().0.max(now.0));
        let due = self.layer.would_tick(now);
        let ready = unless_due(due, self.deferred.ready(at, &self.separate));
        make_room(&mut self.layer, &mut self.separate, now, &ready)?;
        let tick = self.layer.tick(now)?;
        // Nothing fails from here on.
        let room = is_sendable(&mut self.layer, now, &ready);
        settle_down(&mut self.separate);
        let found = Findings::of_tick(tick, &self.separate, self.findings.unmatched);
        self.findings_before = mem::replace(&mut self.findings, found);
        self.deferred_before.copy_from(&self.deferred);
        unless_failed(tick, &mut self.separate);
        self.answerable = false;
        self.room = self.room || room;
        Ok(due_of(tick, ready, room))
    }

    /// The first moment, from this one on, at which `tick` would do something, unless something is handed in before;
    /// None where it never would. A moment before the last one counts as the last. Nothing changes: the moment doesn't
    /// count. It takes no memory.
    pub fn due(&self, now: Moment) -> Option<Moment>
        // Where the answerer tells no moment, no later tick does anything unless something is handed in.
        ensures none { IfNone result ((later : ℕ) → now.0 ≤ later → later < 2 ^ 64
            → AnswererRests self.now.state later) }
        // No tick of the answerer before the moment that is told does anything.
        ensures some { IfSome result (λ at. (later : ℕ) → now.0 ≤ later → max self.now.state.own.clock later < at.0
            → AnswererRests self.now.state later) }
        // A tick of the answerer at the moment that is told does something.
        ensures does { IfSome result (λ at. (setup : SetupSpec) (t : List Call) → Led setup t self.now.state
            → AnswererTurns self.now.state at.0) }
        // The moment that the answerer tells is not before its clock, nor before the one that was handed in.
        ensures from { IfSome result (λ at. max self.now.state.own.clock now.0 ≤ at.0) }
        // The moment that the answerer tells is the first of what is outstanding and of what is deferred.
        ensures first { IsFirstMoment (has_due self.now.state) (max self.now.state.own.clock now.0) result }
    {
        let from = self.layer.clock().later(now);
        let ready = self.deferred.ready_from(from, &self.separate);
        let free = self.layer.free_from(from);
        earlier(self.layer.due(from), latest(ready, free))
    }

    /// The first moment, from this one on, at which a Message ID is free, unless something is handed in before. A
    /// moment before the last one counts as the last. Nothing changes. It takes no memory.
    pub fn free_from(&self, now: Moment) -> Option<Moment>
        // The moment that a server's exchanges tell is the first at which a Message ID is free.
        ensures { IsFirstMoment (λ later. is_free later self.now.state.layer.upcoming self.now.state.layer.last_used)
            (max self.now.state.own.clock now.0) result }
    {
        self.layer.free_from(now)
    }
}
