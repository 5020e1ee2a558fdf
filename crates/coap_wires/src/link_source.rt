//! Where a client's links to its server come from.
ghost use Rattle.std.specs.Prelude.{IfOk};
ghost use Rattle.coap_types.specs.declared.endpoint.Endpoint.{Endpoint as EndpointSpec};

use coap_links::Link;
use coap_types::Endpoint;
use std::io;

/// Where a client's links to its server come from, each of which is at an endpoint of its own: so a new client needs to
/// know nothing of the Message IDs and tokens of those before it (RFC 7252, sections 4.4 and 5.3.1).
pub trait LinkSource {
    /// A link to the server.
    type Link: Link + Drop;

    /// The endpoints by which its links know the server.
    ghost reaches: { Self → EndpointSpec → Type 0 };

    /// A link at an endpoint of its own, and the endpoint by which it knows the server.
    fn open(&self) -> io::Result<(Self::Link, Endpoint)>
        // A link that is opened knows the server by an endpoint that stands for it.
        ensures { IfOk result (λ opened. reaches self.now opened.1) };
}
