//! For which call or observation the client of a run sent each token (RFC 7252, section 5.3.1).
ghost use Rattle.std.specs.Prelude.{◌≡◌, ℕ, List, None, OnOk};
ghost use Rattle.std.specs.Option.{option_map};
ghost use Rattle.coap_client.specs.declared.client.report.CallId.{CallId};
ghost use Rattle.coap_exchange.specs.Tokens.{same_token};
ghost use Rattle.coap_types.specs.SameEndpoint.{same_endpoint};
ghost use Rattle.coap_run.specs.Run.Log.{call_if};
ghost use Rattle.coap_run.specs.Run.Senders.{number_if, sender_in};

use crate::running::deliver::is_end;
use coap_ends::CallId;
use coap_types::{Endpoint, Token};
use std::alloc::{AllocError, Allocator};
use std::collections::BTreeMap;

/// By each token, for which call or observation it was sent last.
#[derive(Drop)]
pub(crate) struct Senders<A: Allocator + Copy> {
    ids: BTreeMap<Token, CallId, A>,
}

impl<A: Allocator + Copy> Senders<A> {
    /// No token was sent.
    pub(crate) fn new(alloc: A) -> Senders<A>
        ensures { (token : List ℕ) → sender_in result token ≡ None }
    {
        Senders {
            ids: BTreeMap::new(alloc),
        }
    }

    /// Notes that a token was sent for it.
    pub(crate) fn note(&mut self, id: CallId, token: Token) -> Result<(), AllocError>
        ensures { OnOk result ((other : List ℕ) → sender_in self.new other
            ≡ number_if (same_token token other) id.0 (sender_in self.old other)) }
    {
        let _before = self.ids.insert(token, id)?;
        Ok(())
    }

    // For which it was sent last.
    fn sender(&self, token: &Token) -> Option<CallId>
        ensures { option_map (λ (id : CallId). id.0) result ≡ sender_in self.now token.now }
    {
        self.ids.get(token).copied()
    }

    /// The call of a request that comes from this address, if that is the client's.
    pub(crate) fn call_of(&self, client: Endpoint, from: Endpoint, token: &Token) -> Option<CallId>
        ensures { option_map (λ (id : CallId). id.0) result
            ≡ call_if (same_endpoint from client) (sender_in self.now token.now) }
    {
        if is_end(from, client) {
            self.sender(token)
        } else {
            None
        }
    }
}
