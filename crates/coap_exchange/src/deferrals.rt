//! The requests whose response is deferred, in order of arrival (RFC 7252, section 5.2.2).
ghost use Rattle.std.specs.Prelude.{◌≡◌, ◌≤◌, ◌<◌, ◌^◌, [], length, remove, is_some, IfSome, IfNone};
ghost use Rattle.std.specs.List.{list_any};
ghost use Rattle.std.specs.Option.{option_map};
ghost use Rattle.coap_types.specs.SameEndpoint.{same_endpoint};
ghost use Rattle.coap_types.specs.declared.token.TheConstants.{MAX_TOKEN_LEN as max_token_len};
ghost use Rattle.coap_types.specs.FirstMoment.{IsFirstMoment};
ghost use Rattle.coap_exchange.specs.AnswererSteps.{deferred_elsewhere, max_deferred, deferred_with, first_ready};
ghost use Rattle.coap_exchange.specs.AnswererSteps.{may_defer, without_ready};
ghost use Rattle.coap_exchange.specs.Machine.Listed.{listed};

use crate::answerer::Asked;
use crate::listed::Listed;
use crate::peers::is_deferred_of;
use crate::separate::{Deferred, Separate, is_ready, ready_from};
use arrayvec::ArrayVec;
use coap_types::{Endpoint, Moment, earlier};
use std::marker::Model;

/// So many requests are deferred at most (profile).
pub(crate) const MAX_DEFERRED: usize = 16;

const _: () = prove!(MAX_DEFERRED == 16);

/// The requests whose responses are deferred, in order, at most `MAX_DEFERRED`.
#[derive(Drop)]
pub(crate) struct Deferrals {
    requests: ArrayVec<Deferred, MAX_DEFERRED>,
}

impl Model for Deferrals {
    ghost use Rattle.std.specs.Prelude.{List};
    ghost use Rattle.coap_exchange.specs.declared.separate.Deferred.{Deferred};

    ghost Value = { List Deferred };

    ghost view = { λ d. d.requests.items };
}

// Puts copies of the requests in the place of what is there.
fn refill(copies: &mut ArrayVec<Deferred, MAX_DEFERRED>, requests: &[Deferred])
    requires { length requests.now ≤ max_deferred }
    ensures { copies.new.items ≡ requests.now }
{
    copies.clear();
    for request in requests {
        copies.push(request.copy());
    }
}

// The requests that came from elsewhere stay.
fn retain_others(requests: &mut ArrayVec<Deferred, MAX_DEFERRED>, peer: Endpoint)
    ensures { requests.new.items ≡ deferred_elsewhere peer requests.old.items }
{
    requests.retain(|request| request.asked.from != peer);
}

// The first that is ready.
fn first_ready(requests: &[Deferred], at: Moment, separate: &[Listed<Separate>]) -> Option<Asked>
    ensures few { IfSome result (λ a. length a.token ≤ max_token_len) }
    ensures first { result ≡ option_map (λ d. d.asked) (first_ready at.0 (listed separate.now) requests.now) }
{
    for request in requests {
        if is_ready(request, at, separate) {
            return Some(request.asked.copy());
        }
    }
    None
}

// The first moment, from this one on, at which one of them is ready.
fn one_ready_from(
    requests: &[Deferred],
    from: Moment,
    separate: &[Listed<Separate>],
) -> Option<Moment>
    ensures { IsFirstMoment (λ now. is_some (first_ready now (listed separate.now) requests.now)) from.0 result }
{
    let mut first = None;
    for request in requests {
        first = earlier(first, ready_from(request, from, separate));
    }
    first
}

// Where the first that is ready stands.
fn ready_place(requests: &[Deferred], at: Moment, separate: &[Listed<Separate>]) -> Option<usize>
    ensures within { IfSome result (λ i. i < length requests.now) }
    ensures taken { IfSome result (λ i. remove requests.now i ≡ without_ready at.0 (listed separate.now) requests.now) }
    ensures none { IfNone result (requests.now ≡ without_ready at.0 (listed separate.now) requests.now) }
{
    let mut i = 0;
    while i < requests.len() {
        if is_ready(&requests[i], at, separate) {
            return Some(i);
        }
        i += 1;
    }
    None
}

impl Deferrals {
    /// None is deferred.
    pub(crate) fn new() -> Deferrals
        ensures { result ≡ [] }
    {
        Deferrals {
            requests: ArrayVec::new(),
        }
    }

    /// How many are deferred.
    pub(crate) fn len(&self) -> usize
        ensures { result ≡ length self.now }
    {
        self.requests.len()
    }

    /// Whether one of them came from there.
    pub(crate) fn has_of(&self, peer: Endpoint) -> bool
        ensures { result ≡ list_any (λ d. same_endpoint d.asked.from peer) self.now }
    {
        is_deferred_of(self.requests.as_slice(), peer)
    }

    /// Defers one more; false where `MAX_DEFERRED` are deferred.
    pub(crate) fn push(&mut self, request: Deferred) -> bool
        ensures answer { result ≡ may_defer self.old }
        ensures left { self.new ≡ deferred_with result request self.old }
    {
        self.requests.try_push(request).is_ok()
    }

    /// The first that is ready at this moment.
    pub(crate) fn ready(&self, at: Moment, separate: &[Listed<Separate>]) -> Option<Asked>
        ensures few { IfSome result (λ a. length a.token ≤ max_token_len) }
        ensures first { result ≡ option_map (λ d. d.asked) (first_ready at.0 (listed separate.now) self.now) }
    {
        first_ready(self.requests.as_slice(), at, separate)
    }

    /// The first moment, from this one on, at which one is ready.
    pub(crate) fn ready_from(&self, from: Moment, separate: &[Listed<Separate>]) -> Option<Moment>
        ensures first { IsFirstMoment (λ now. is_some (first_ready now (listed separate.now) self.now)) from.0 result }
        ensures range { from.0 < 2 ^ 64 }
    {
        one_ready_from(self.requests.as_slice(), from, separate)
    }

    /// Takes out the first that is ready at this moment.
    pub(crate) fn take_ready(&mut self, at: Moment, separate: &[Listed<Separate>])
        ensures { self.new ≡ without_ready at.0 (listed separate.now) self.old }
    {
        if let Some(place) = ready_place(self.requests.as_slice(), at, separate) {
            let _ = self.requests.remove(place);
        }
    }

    /// Lets go of those that came from there.
    pub(crate) fn forget(&mut self, peer: Endpoint)
        ensures { self.new ≡ deferred_elsewhere peer self.old }
    {
        retain_others(&mut self.requests, peer);
    }

    /// Becomes the same requests as the others. It stays in its place, so that none of the 16 costs anything
    /// but those that are there.
    pub(crate) fn copy_from(&mut self, others: &Deferrals)
        ensures { self.new ≡ others.now }
    {
        refill(&mut self.requests, others.requests.as_slice());
    }
}
