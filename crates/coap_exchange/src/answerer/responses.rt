//! The response to a request that was handed up: at once, or when it is ready (RFC 7252, section 5.2).
ghost use Rattle.std.specs.Prelude.{◌≡◌, ℕ, true, false};
ghost use Rattle.coap_types.specs.declared.endpoint.Endpoint.{Endpoint as EndpointSpec};
ghost use Rattle.coap_types.specs.declared.message.Kind.TheVariants.{Con};
ghost use Rattle.coap_layer.specs.Trace as below;
ghost use Rattle.coap_exchange.specs.AnswererLaw.{Step};
ghost use Rattle.coap_exchange.specs.Machine.AnswererShown.{MayAnswer, MayNotify, MayRespond, IsAnswer};
ghost use Rattle.coap_exchange.specs.AnswererTrace.{Answers, Defers, Responds};

use crate::answerer::{Answerer, Asked, Response};
use crate::listed::enlist;
use crate::replies::send;
use crate::separate::Deferred;
use crate::waiting::{confirm, separate_of};
use coap_layer::ack;
use coap_types::{Id, Moment};
use std::alloc::Allocator;
use std::hash::BuildHasher;

impl<A: Allocator + Copy, S: BuildHasher> Answerer<A, S> {
    /// Sends the response to the request that the last input, an `incoming`, handed up: in the
    /// acknowledgement of a Confirmable request, and to a Non-confirmable one as such (RFC 7252,
    /// sections 5.2.1 and 5.2.3). It is not refused memory.
    pub fn answer(&mut self, asked: &Asked, response: &Response<'_>)
        requires may { MayAnswer self.old asked.now }
        requires response { IsAnswer asked.now response.now }
        // What a response at once leaves is a step of the answerer's machine.
        ensures step { (sent : below.Answer)
            × Step self.old.state (Answers asked.now response.now sent) self.new.state }
        // A response at once is taken back with the request that it answers.
        ensures before { self.new.before ≡ self.old.before }
    {
        send(&mut self.layer, asked, response);
        self.findings.pending = None;
        self.room = false;
    }

    /// Acknowledges the Confirmable request that the last input, an `incoming`, handed up, and
    /// keeps it to be responded to when so many milliseconds have passed (RFC 7252, section 5.2.2);
    /// false, and nothing is sent, where 16 requests are deferred. It is not refused memory.
    pub fn defer(&mut self, now: Moment, asked: &Asked, delay_ms: u64) -> bool
        requires may { MayAnswer self.old asked.now }
        requires con { asked.now.kind ≡ Con }
        // Whether a request is deferred, and what that leaves, is a step of the answerer's machine.
        ensures step { Step self.old.state (Defers now.0 asked.now delay_ms result) self.new.state }
        // After a deferral, or its refusal, a request may be answered.
        ensures answerable { self.new.answerable ≡ true }
        // Where a notification could be sent and a deferral sends nothing, it still can.
        ensures kept { result ≡ false → (at : ℕ) (there : EndpointSpec) → MayNotify self.old at there
            → MayNotify self.new at there }
        // A deferral is taken back with the request that it defers.
        ensures before { self.new.before ≡ self.old.before }
    {
        self.layer.pass(now);
        let deferred = self.deferred.push(Deferred {
            asked: asked.copy(),
            at: self.layer.clock(),
            delay: delay_ms,
        });
        if deferred {
            self.layer.reply(asked.from, asked.id, &ack(asked.id));
            self.findings.pending = None;
            self.room = false;
        }
        deferred
    }

    /// Sends the separate response to the deferred request which the last call, a `tick` at this
    /// moment, said to be ready, in a Confirmable message, and answers its Message ID (RFC 7252,
    /// section 5.2.2). The word picks the initial timeout. It is not refused memory.
    pub fn respond(&mut self, now: Moment, asked: &Asked, response: &Response<'_>, word: u64) -> Id
        requires may { MayRespond self.old now.0 asked.now }
        requires response { IsAnswer asked.now response.now }
        // Which Message ID a separate response has, and what that leaves, is a step of the answerer's machine.
        ensures step { Step self.old.state (Responds now.0 asked.now response.now word result.0) self.new.state }
        // A separate response is taken back with the tick that called its request ready.
        ensures before { self.new.before ≡ self.old.before }
    {
        let id = confirm(
            &mut self.layer,
            now,
            asked.from,
            &asked.token,
            response,
            word,
        );
        self.deferred.take_ready(self.layer.clock(), &self.separate);
        let separate = separate_of(asked.from, id, &asked.token, response);
        enlist(&mut self.separate, separate);
        self.findings.pending = None;
        self.room = false;
        id
    }
}
