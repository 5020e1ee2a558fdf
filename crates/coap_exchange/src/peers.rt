//! Whether something is of a peer.
ghost use Rattle.std.specs.Prelude.{◌≡◌, ◌&&◌, ◌||◌};
ghost use Rattle.std.specs.List.{list_any};
ghost use Rattle.coap_types.specs.SameEndpoint.{same_endpoint};
ghost use Rattle.coap_exchange.specs.Peers.{is_asked_by as is_asked_by_lem};

use crate::answerer::Asked;
use crate::listed::Listed;
use crate::separate::{Deferred, Separate};
use coap_types::Endpoint;

/// Whether one of the separate responses and notifications that are on the list went there.
pub(crate) fn is_sent_to(separate: &[Listed<Separate>], peer: Endpoint) -> bool
    ensures { result ≡ list_any (λ k. k.now && same_endpoint k.entry.to peer) separate.now }
{
    separate.iter().any(|k| k.now && k.entry.to == peer)
}

/// Whether one of the deferred requests came from there.
pub(crate) fn is_deferred_of(requests: &[Deferred], peer: Endpoint) -> bool
    ensures { result ≡ list_any (λ d. same_endpoint d.asked.from peer) requests.now }
{
    requests.iter().any(|d| d.asked.from == peer)
}

/// Whether there is a request that came from there.
pub(crate) fn is_asked_by(asked: &Option<Asked>, peer: Endpoint) -> bool
    ensures { result ≡ is_asked_by_lem peer asked.now }
{
    match asked {
        Some(asked) => asked.from == peer,
        None => false,
    }
}

/// Whether one of four holds.
pub(crate) fn one_of(first: bool, second: bool, third: bool, fourth: bool) -> bool
    ensures { result ≡ (first || (second || (third || fourth))) }
{
    first || second || third || fourth
}
