//! The client that the programs begin.
ghost use Rattle.std.specs.Prelude.{[]};
ghost use Rattle.coap_client.specs.Led.{Led};
ghost use Rattle.coap_waits.specs.Terms.{client_sizes};

use coap_ends::Client;
use coap_layer::Setup;
use coap_types::{BodyLimit, Endpoint, Szx};
use std::alloc::Global;
use std::hash::BuildHasher;

/// A client of the server at this endpoint, to which nothing has happened, with blocks of this size, which
/// takes bodies up to this limit. It begins with this word, and remembers so many messages.
pub fn fresh_client<H: BuildHasher + Drop>(
    alloc: Global,
    server: Endpoint,
    setup: Setup,
    size: Szx,
    limit: BodyLimit,
    hasher: H,
) -> Client<Global, H>
    // To the client that a command begins with no call has led, with that size and limit, and as many remembered
    // messages as were chosen.
    ensures { Led server (client_sizes size limit) setup [] result }
{
    Client::with_setup(alloc, server, size, limit, setup, hasher)
}
