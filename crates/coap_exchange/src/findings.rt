//! What an input of a server's side found.
ghost use Rattle.std.specs.Prelude.{◌≡◌, ◌≤◌, None, Some, IfSome, length};
ghost use Rattle.coap_types.specs.declared.token.TheConstants.{MAX_TOKEN_LEN as max_token_len};
ghost use Rattle.coap_codec.specs.Message.{Message};
ghost use Rattle.coap_layer.specs.Machine.Ups.{answer_as, IsTick};
ghost use Rattle.coap_layer.specs.Trace as below;
ghost use Rattle.coap_layer.specs.Words.{handed_by};
ghost use Rattle.coap_exchange.specs.AnswererSteps.{asked_in, failed_by, handed_up, reset_by, unmatched_by};
ghost use Rattle.coap_exchange.specs.Machine.AnswererShown.{sending_as};
ghost use Rattle.coap_exchange.specs.Machine.Listed.{listed};

use crate::answerer::{Asked, Ended};
use crate::listed::Listed;
use crate::replies::{asked_in, copied, copied_end, reset_by, unmatched_by};
use crate::separate::Separate;
use crate::waiting::failed_by;
use coap_layer::{Tick, Up};
use coap_types::{Endpoint, Id};

/// What an input found.
#[derive(Drop)]
pub(crate) struct Findings {
    /// The request that it handed up, until that is answered or deferred.
    pub(crate) pending: Option<Asked>,
    /// The separate response or the notification that it ended.
    pub(crate) ended: Option<Ended>,
    /// Where a Reset of nothing that is outstanding came from, and its Message ID.
    pub(crate) unmatched: Option<(Endpoint, Id)>,
}

impl Findings {
    /// Before the first input nothing is found.
    pub(crate) fn none() -> Findings
        ensures pending { result.pending ≡ None }
        ensures ended { result.ended ≡ None }
        ensures unmatched { result.unmatched ≡ None }
    {
        Findings {
            pending: None,
            ended: None,
            unmatched: None,
        }
    }

    /// What an arrival found (RFC 7252, sections 4.2, 4.3 and 5.2).
    pub(crate) fn of_arrival(from: Endpoint, up: &Up<'_>, separate: &[Listed<Separate>]) -> Findings
        requires { (m : Message) → handed_by (answer_as up.now) ≡ Some m → length m.token ≤ max_token_len }
        ensures pending { result.pending ≡ asked_in (handed_up from (answer_as up.now)) }
        ensures few { IfSome result.pending (λ a. length a.token ≤ max_token_len) }
        ensures ended { result.ended ≡ reset_by from (answer_as up.now) (listed separate.now) }
        ensures unmatched { sending_as result.unmatched ≡ unmatched_by from (answer_as up.now) }
    {
        Findings {
            pending: asked_in(from, up),
            ended: reset_by(from, up, separate),
            unmatched: unmatched_by(from, up),
        }
    }

    /// What a tick found: it leaves what Reset is told.
    pub(crate) fn of_tick(
        tick: Tick,
        separate: &[Listed<Separate>],
        unmatched: Option<(Endpoint, Id)>,
    ) -> Findings
        ensures pending { result.pending ≡ None }
        ensures ended { (answer : below.Answer) → IsTick tick answer
            → result.ended ≡ failed_by answer (listed separate.now) }
        ensures unmatched { result.unmatched ≡ unmatched }
    {
        Findings {
            pending: None,
            ended: failed_by(tick, separate),
            unmatched,
        }
    }

    /// The same again. It takes no memory.
    pub(crate) fn copy(&self) -> Findings
        ensures { result ≡ self.now }
    {
        Findings {
            pending: copied(&self.pending),
            ended: copied_end(&self.ended),
            unmatched: self.unmatched,
        }
    }
}
