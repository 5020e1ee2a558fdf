//! The request that a client sent last.
ghost use Rattle.coap_exchange.specs.AskerLaw as exchange;
ghost use Rattle.coap_client.specs.Led.{Step};
ghost use Rattle.coap_client.specs.Trace.{Asked};
ghost use Rattle.coap_client.specs.Object.Happens.{left};
ghost use Rattle.coap_client.specs.Object.Held.{own_of};
ghost use Rattle.coap_client.specs.Object.Shown.{shown_asked};

use crate::client::held::Held;
use crate::client::report::CallId;
use coap_types::Token;
use std::alloc::Allocator;

/// A request that a client sent.
#[derive(Debug, Drop)]
pub struct SentRequest {
    /// Of which call or observation it is.
    pub call: CallId,
    /// Its token (RFC 7252, section 5.3.1).
    pub token: Token,
}

/// The request that the last datagram or tick sent first. It takes no memory.
pub fn asked<A: Allocator + Copy>(held: &Held<A>) -> Option<SentRequest>
    ensures step { (x : exchange.State)
        → Step (left (own_of held.now) x) (Asked (shown_asked result)) (left (own_of held.now) x) }
{
    let sent = held.asked.as_ref()?;
    Some(SentRequest {
        call: sent.call,
        token: sent.token.copy(),
    })
}
