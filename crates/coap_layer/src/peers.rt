//! Whether something is of a peer.
ghost use Rattle.std.specs.Prelude.{◌≡◌, ◌||◌};
ghost use Rattle.coap_layer.specs.Machine.Parts.{awaited};
ghost use Rattle.coap_layer.specs.Machine.Peers.{goes_to as goes_to_lem, is_awaited as is_awaited_lem};

use crate::datagram::Datagram;
use crate::mark::Awaiting;
use coap_types::Endpoint;
use std::alloc::Allocator;
use std::collections::VecDeque;

/// Whether one of these datagrams goes there.
pub(crate) fn goes_to<A: Allocator + Copy>(
    waiting: &VecDeque<Datagram<A>, A>,
    peer: Endpoint,
) -> bool
    ensures { result ≡ goes_to_lem peer waiting.now.items }
{
    waiting.iter().any(|datagram| datagram.to == peer)
}

/// Whether a reply may be given to a message from there.
pub(crate) fn is_awaited(awaits: Option<Awaiting>, peer: Endpoint) -> bool
    ensures { result ≡ is_awaited_lem peer (awaited awaits) }
{
    match awaits {
        Some(awaiting) => awaiting.from == peer,
        None => false,
    }
}

/// Whether one of three holds.
pub(crate) fn one_of(first: bool, second: bool, third: bool) -> bool
    ensures { result ≡ (first || (second || third)) }
{
    first || second || third
}
