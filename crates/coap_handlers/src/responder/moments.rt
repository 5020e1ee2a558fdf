//! What is due, and when (RFC 7252, sections 4.2 and 5.2.2).
ghost use Rattle.std.specs.Prelude.{◌≡◌, ◌≤◌, ◌<◌, ◌^◌, ℕ, Bool, List, max, length, [], false};
ghost use Rattle.std.specs.Prelude.{IfSome, IfNone, IsOk, IfOk, OnOk, OnErr};
ghost use Rattle.coap_types.specs.FirstMoment.{IsFirstMoment};
ghost use Rattle.coap_types.specs.declared.token.TheConstants.{MAX_TOKEN_LEN as max_token_len};
ghost use Rattle.coap_layer.specs.Machine.State.{copies};
ghost use Rattle.coap_layer.specs.Trace as below;
ghost use Rattle.coap_layer.specs.declared.setup.Setup.{Setup as SetupSpec};
ghost use Rattle.coap_exchange.specs.declared.answerer.Asked.{Asked as AskedSpec};
ghost use Rattle.coap_exchange.specs.declared.answerer.Due.TheVariants as dues;
ghost use Rattle.coap_exchange.specs.AnswererLaw.{Led, Step};
ghost use Rattle.coap_exchange.specs.AnswererTrace.{Call, Ticks};
ghost use Rattle.coap_exchange.specs.Machine.Rests.{AnswererRests, AnswererTurns, has_due};
ghost use Rattle.coap_exchange.specs.Machine.WhatIsDue.{takes_response};
ghost use Rattle.coap_handlers.specs.Shown.{called_ready};

use crate::responder::{Ready, Responder};
use coap_exchange::Due;
use coap_types::Moment;
use std::alloc::{AllocError, Allocator};
use std::hash::BuildHasher;

// What a tick at this moment called ready.
fn called_ready(at: Moment, due: &Due) -> Option<Ready>
    ensures { result ≡ called_ready at due.now }
{
    match due {
        Due::Ready(asked) => Some(Ready {
            at,
            asked: asked.copy(),
        }),
        Due::Idle | Due::Copied | Due::Expired => None,
    }
}

impl<A: Allocator + Copy, S: BuildHasher> Responder<A, S> {
    /// Does the first that is due: a retransmission, the failure of a separate response or a notification, the call
    /// that a deferred request is ready (RFC 7252, sections 4.2, 4.7 and 5.2.2).
    pub fn tick(&mut self, now: Moment) -> Result<Due, AllocError>
        // A tick makes just one call of the exchanges, and says what that did.
        ensures step { IfOk result (λ due. (done : below.Answer) × (room : Bool)
            × Step self.old.state (Ticks now.0 done room due) self.new.state) }
        // What a tick calls ready is ready until the next feed, tick or notification.
        ensures ready { IfOk result (λ due. self.new.ready ≡ called_ready now due) }
        // The token of a request that a responder's tick calls ready has at most 8 bytes.
        ensures few { IfOk result (λ due. (a : AskedSpec) → due ≡ dues.Ready a → length a.token ≤ max_token_len) }
        // A tick leaves which request counts as answered.
        ensures given { OnOk result (self.new.given ≡ self.old.given) }
        // A tick that is refused memory leaves the responder as it was.
        ensures err { OnErr result (self.new ≡ self.old) }
        // A tick at which no copy is due, and no deferred request is ready or no Message ID is free, takes no memory.
        ensures quiet { copies (max self.old.state.own.clock now.0) self.old.state.layer.open_cons ≡ []
            → takes_response self.old.state now.0 ≡ false → IsOk result }
    {
        let due = self.answerer.tick(now)?;
        self.asked = None;
        self.ready = called_ready(now, &due);
        Ok(due)
    }

    /// The first moment, from this one on, at which a tick would do something, unless something is handed in before;
    /// None where it never would. It takes no memory.
    pub fn due(&self, now: Moment) -> Option<Moment>
        // Where the responder tells no moment, no later tick of it does anything unless something is handed in.
        ensures none { IfNone result ((later : ℕ) → now.0 ≤ later → later < 2 ^ 64
            → AnswererRests self.now.state later) }
        // No tick of the responder before the moment that is told does anything.
        ensures some { IfSome result (λ at. (later : ℕ) → now.0 ≤ later → max self.now.state.own.clock later < at.0
            → AnswererRests self.now.state later) }
        // A tick of the responder at the moment that is told does something.
        ensures does { IfSome result (λ at. (setup : SetupSpec) (t : List Call) → Led setup t self.now.state
            → AnswererTurns self.now.state at.0) }
        // The moment that is told is not before the clock, nor before the one that was handed in.
        ensures from { IfSome result (λ at. max self.now.state.own.clock now.0 ≤ at.0) }
        // The moment that is told is the first of what is outstanding and of what is deferred.
        ensures first { IsFirstMoment (has_due self.now.state) (max self.now.state.own.clock now.0) result }
    {
        self.answerer.due(now)
    }
}
