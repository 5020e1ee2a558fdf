//! Deferred requests, and the separate responses that are not acknowledged yet (RFC 7252, section 5.2.2).
ghost use Rattle.std.specs.Prelude.{◌≡◌, ◌&&◌, not, map};
ghost use Rattle.std.specs.Option.{option_map};
ghost use Rattle.coap_types.specs.FirstMoment.{IsFirstMoment};
ghost use Rattle.coap_exchange.specs.AnswererSteps.{ended_as, found, goes_to, is_ready, is_waited_for};
ghost use Rattle.coap_exchange.specs.Machine.Listed.{listed};
ghost use Rattle.coap_exchange.specs.Peers.{outstanding_to};
ghost use Rattle.coap_exchange.specs.Machine.Outstanding.{over};

use crate::answerer::{Asked, Ended};
use crate::listed::Listed;
use coap_types::{Endpoint, Id, Kind, Moment, Token, after};

/// A request whose response is deferred (RFC 7252, section 5.2.2).
#[derive(Drop)]
pub struct Deferred {
    /// The request.
    pub asked: Asked,
    /// The moment of its deferral.
    pub at: Moment,
    /// By how many milliseconds it is deferred.
    pub delay: u64,
}

/// A separate response that is not acknowledged yet (RFC 7252, section 5.2.2).
#[derive(Drop)]
pub struct Separate {
    /// Where it went.
    pub to: Endpoint,
    /// Its Message ID.
    pub id: Id,
    /// Its token.
    pub token: Token,
    /// Whether it carries Observe (RFC 7641, section 3.2).
    pub observe: bool,
}

impl Default for Deferred {
    fn default() -> Deferred {
        Deferred {
            asked: Asked {
                from: Endpoint {
                    ip: [0; 4],
                    port: 0,
                },
                kind: Kind::Con,
                id: Id(0),
                token: Token::empty(),
            },
            at: Moment(0),
            delay: 0,
        }
    }
}

impl Deferred {
    /// The same again.
    pub(crate) fn copy(&self) -> Deferred
        ensures { result ≡ self.now }
    {
        Deferred {
            asked: self.asked.copy(),
            at: self.at,
            delay: self.delay,
        }
    }
}

// Whether it went to this endpoint, with this Message ID.
fn goes_to(response: &Separate, to: Endpoint, id: Id) -> bool
    ensures { result ≡ goes_to to id.0 response.now }
{
    response.to == to && response.id.0 == id.0
}

/// Whether a response to this endpoint is not acknowledged yet (RFC 7252, section 4.7).
pub(crate) fn is_waited_for(list: &[Listed<Separate>], to: Endpoint) -> bool
    ensures { result ≡ is_waited_for to (listed list.now) }
{
    for k in list {
        if k.now && k.entry.to == to {
            return true;
        }
    }
    false
}

/// The Message ID of the first response to this endpoint that is not acknowledged yet.
pub(crate) fn outstanding_to(list: &[Listed<Separate>], to: Endpoint) -> Option<Id>
    ensures { result ≡ outstanding_to to (listed list.now) }
{
    for k in list {
        if k.now && k.entry.to == to {
            return Some(k.entry.id);
        }
    }
    None
}

/// The response to this endpoint with this Message ID, as it is told that it ended.
pub(crate) fn found(list: &[Listed<Separate>], to: Endpoint, id: Id) -> Option<Ended>
    ensures { result ≡ option_map ended_as (found to id.0 (listed list.now)) }
{
    for k in list {
        if k.now && goes_to(&k.entry, to, id) {
            return Some(Ended {
                to: k.entry.to,
                token: k.entry.token.copy(),
                observe: k.entry.observe,
            });
        }
    }
    None
}

// Whether a response that is on the list, or not, stays there.
fn stays(listed: bool, response: &Separate, to: Endpoint, id: Id) -> bool
    ensures { result ≡ (listed && not (goes_to to id.0 response.now)) }
{
    listed && !goes_to(response, to, id)
}

/// Takes the response to this endpoint with this Message ID off the list.
pub(crate) fn take_off(list: &mut [Listed<Separate>], to: Endpoint, id: Id)
    ensures { list.new ≡ map (over to id.0) list.old }
{
    for k in list.iter_mut() {
        k.now = stays(k.now, &k.entry, to, id);
    }
}

/// Whether the delay of a deferred request has passed, and its endpoint has no response that is not
/// acknowledged.
pub(crate) fn is_ready(deferred: &Deferred, at: Moment, separate: &[Listed<Separate>]) -> bool
    ensures { result ≡ is_ready at.0 (listed separate.now) deferred.now }
{
    at.0.saturating_sub(deferred.at.0) >= deferred.delay
        && !is_waited_for(separate, deferred.asked.from)
}

/// The first moment, from this one on, at which it is ready, unless something is handed in before: none where its
/// endpoint has a response that is not acknowledged.
pub(crate) fn ready_from(
    deferred: &Deferred,
    from: Moment,
    separate: &[Listed<Separate>],
) -> Option<Moment>
    ensures { IsFirstMoment (λ now. is_ready now (listed separate.now) deferred.now) from.0 result }
{
    if is_waited_for(separate, deferred.asked.from) {
        return None;
    }
    after(deferred.at, deferred.delay, from)
}
