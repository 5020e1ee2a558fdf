//! The answer to a request: at once, or when it is ready (RFC 7252, section 5.2).
ghost use Rattle.std.specs.Prelude.{◌≡◌, ◌≢◌, ◌⊎◌, true, false, None, Some, Err, IfSome, IfNone, IfOk, IfErr, OnOk};
ghost use Rattle.std.specs.Prelude.{OnErr};
ghost use Rattle.coap_types.specs.declared.endpoint.Moment.{Moment as MomentSpec};
ghost use Rattle.coap_types.specs.declared.message.Kind.TheVariants.{Con};
ghost use Rattle.coap_layer.specs.Trace as below;
ghost use Rattle.coap_exchange.specs.AnswererLaw.{Step};
ghost use Rattle.coap_exchange.specs.AnswererTrace.{Answers, Defers, Responds};
ghost use Rattle.coap_handlers.specs.Refusals.{IsAnswerRefused, IsDeferRefused, IsRespondRefused};
ghost use Rattle.coap_handlers.specs.Shown.{ready_at};
ghost use Rattle.coap_handlers.specs.declared.refusal.AnswerRefusal.TheVariants as refusals;

use crate::refusal::AnswerRefusal;
use crate::responder::{Ready, Responder};
use crate::response::is_response;
use crate::same::{is_that, same};
use coap_exchange::{Asked, Response};
use coap_types::{Id, Kind, Moment};
use std::alloc::Allocator;
use std::hash::BuildHasher;

// Why a request has no answer now: it had one, or another reason.
fn why_not(given: &Option<Asked>, asked: &Asked, other: AnswerRefusal) -> AnswerRefusal
    ensures { ((given.now ≡ Some asked.now) × (result ≡ refusals.Given))
        ⊎ ((given.now ≢ Some asked.now) × (result ≡ other)) }
{
    if is_that(given, asked) {
        AnswerRefusal::Given
    } else {
        other
    }
}

// The moment at which the request was called ready, if it was.
fn ready_at(ready: &Option<Ready>, asked: &Asked) -> Option<Moment>
    ensures some { IfSome result (λ at. ready.now ≡ Some (ready_at at asked.now)) }
    ensures none { IfNone result ((at : MomentSpec) → ready.now ≢ Some (ready_at at asked.now)) }
{
    match ready {
        Some(ready) if same(&ready.asked, asked) => Some(ready.at),
        _ => None,
    }
}

impl<A: Allocator + Copy, S: BuildHasher> Responder<A, S> {
    /// Sends the answer to the request that the last feed handed up: in the acknowledgement of a Confirmable one, and
    /// to a Non-confirmable one as such (RFC 7252, sections 5.2.1 and 5.2.3). It takes no memory.
    pub fn answer(&mut self, asked: &Asked, response: &Response<'_>) -> Result<(), AnswerRefusal>
        // An answer that is sent is that to the request that waits for one, and makes just one call of the exchanges.
        ensures step { OnOk result ((self.old.state.own.pending ≡ Some asked.now) × (sent : below.Answer)
            × Step self.old.state (Answers asked.now response.now sent) self.new.state) }
        // A request that is answered counts as answered.
        ensures given { OnOk result (self.new.given ≡ Some asked.now) }
        // An answer is refused for what is sent, or since its request has had one or was not asked, in this order.
        ensures why { IfErr result (λ why. IsAnswerRefused why self.old asked.now response.now) }
        // An answer that is refused leaves the responder as it was.
        ensures kept { OnErr result (self.new ≡ self.old) }
    {
        if !is_response(&asked.token, response) {
            return Err(AnswerRefusal::BadResponse);
        }
        if !is_that(&self.asked, asked) {
            return Err(why_not(&self.given, asked, AnswerRefusal::NotAsked));
        }
        self.answerer.answer(asked, response);
        self.asked = None;
        self.given = Some(asked.copy());
        self.ready = None;
        Ok(())
    }

    /// Acknowledges the Confirmable request that the last feed handed up, and has a tick call it ready when so many
    /// milliseconds have passed (RFC 7252, section 5.2.2). It takes no memory.
    pub fn defer(&mut self, now: Moment, asked: &Asked, delay_ms: u64) -> Result<(), AnswerRefusal>
        // A deferral is of the Confirmable request that waits for its answer, and makes just one call of the exchanges.
        ensures step { OnOk result ((self.old.state.own.pending ≡ Some asked.now) × (asked.now.kind ≡ Con)
            × Step self.old.state (Defers now.0 asked.now delay_ms true) self.new.state) }
        // A request that is deferred counts as answered, until a tick calls it ready.
        ensures given { OnOk result (self.new.given ≡ Some asked.now) }
        // Where too many are deferred already, the exchanges are asked and say so.
        ensures full { result ≡ Err refusals.DeferralsFull
            → Step self.old.state (Defers now.0 asked.now delay_ms false) self.new.state }
        // A deferral is refused since its request has had an answer, was not asked, is Non-confirmable, or 16 are
        // deferred, in this order.
        ensures why { IfErr result (λ why. IsDeferRefused why self.old asked.now) }
        // A deferral that is refused otherwise leaves the responder as it was.
        ensures kept { IfErr result (λ why. why ≢ refusals.DeferralsFull → self.new ≡ self.old) }
    {
        if !is_that(&self.asked, asked) {
            return Err(why_not(&self.given, asked, AnswerRefusal::NotAsked));
        }
        if asked.kind != Kind::Con {
            return Err(AnswerRefusal::NotConfirmable);
        }
        self.ready = None;
        if !self.answerer.defer(now, asked, delay_ms) {
            return Err(AnswerRefusal::DeferralsFull);
        }
        self.asked = None;
        self.given = Some(asked.copy());
        self.deferred += 1;
        Ok(())
    }

    /// Sends the answer to the deferred request that the last tick called ready, in a Confirmable message, and answers
    /// its Message ID (RFC 7252, section 5.2.2). The word picks the initial timeout. It takes no memory.
    pub fn respond(
        &mut self,
        asked: &Asked,
        response: &Response<'_>,
        word: u64,
    ) -> Result<Id, AnswerRefusal>
        // An answer to a deferred request is to the one that the last tick called ready, at the moment of that, and
        // makes just one call of the exchanges.
        ensures step { IfOk result (λ id. (at : MomentSpec) × (self.old.ready ≡ Some (ready_at at asked.now))
            × Step self.old.state (Responds at.0 asked.now response.now word id.0) self.new.state) }
        // A deferred request that is answered counts as answered.
        ensures given { OnOk result (self.new.given ≡ Some asked.now) }
        // .. and is not ready any more.
        ensures spent { OnOk result (self.new.ready ≡ None) }
        // An answer to a deferred request is refused for what is sent, or since the request has had one or is not
        // ready, in this order.
        ensures why { IfErr result (λ why. IsRespondRefused why self.old asked.now response.now) }
        // An answer to a deferred request that is refused leaves the responder as it was.
        ensures kept { OnErr result (self.new ≡ self.old) }
    {
        if !is_response(&asked.token, response) {
            return Err(AnswerRefusal::BadResponse);
        }
        match ready_at(&self.ready, asked) {
            None => Err(why_not(&self.given, asked, AnswerRefusal::NotReady)),
            Some(at) => {
                let id = self.answerer.respond(at, asked, response, word);
                self.asked = None;
                self.given = Some(asked.copy());
                self.ready = None;
                self.deferred -= 1;
                Ok(id)
            }
        }
    }
}
