//! Where the two ends of a run stand, read from the words.
ghost use Rattle.std.specs.Prelude.{MatchOption, MatchResult};
ghost use Rattle.clap.specs.Words.{found_of, rows_of};
ghost use Rattle.coap_arguments.specs.Ends.{AreNoEnds, HasEndpoint, HasEnds, HasNoEndpoint};

use crate::refusals::EndsRefusal;
use crate::words::optional;
use clap::ArgMatches;
use coap_types::Endpoint;
use std::net::SocketAddrV4;

// Where the client stands that is left out, and where the server does.
const USUAL_CLIENT: Endpoint = Endpoint {
    ip: [127, 0, 0, 1],
    port: 40_001,
};

const USUAL_SERVER: Endpoint = Endpoint {
    ip: [127, 0, 0, 1],
    port: 5_683,
};

/// Where the client and the server of a run stand, which are two places.
pub(crate) fn ends_of(given: &ArgMatches<'_>) -> Result<(Endpoint, Endpoint), EndsRefusal>
    ensures { MatchResult result (λ ends. HasEnds (rows_of (found_of given.now)) ends.0 ends.1)
        (λ refusal. AreNoEnds refusal (rows_of (found_of given.now))) }
{
    let Some(client) = endpoint_of(given, "client", USUAL_CLIENT) else {
        return Err(EndsRefusal::Client);
    };
    let Some(server) = endpoint_of(given, "server", USUAL_SERVER) else {
        return Err(EndsRefusal::Server);
    };
    if client == server {
        return Err(EndsRefusal::Same);
    }
    Ok((client, server))
}

// Where an end stands, if its argument is an address with a port; here where it is left out.
fn endpoint_of(given: &ArgMatches<'_>, name: &str, usual: Endpoint) -> Option<Endpoint>
    ensures { MatchOption result (HasNoEndpoint name.now (rows_of (found_of given.now)))
        (HasEndpoint name.now usual (rows_of (found_of given.now))) }
{
    let Some(text) = optional(given, name) else {
        return Some(usual);
    };
    match text.parse::<SocketAddrV4>() {
        Ok(address) => Some(Endpoint {
            ip: address.ip().octets(),
            port: address.port(),
        }),
        Err(_) => None,
    }
}
