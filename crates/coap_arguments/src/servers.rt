//! Which server is asked, where the server itself is, and what is asked of it; read from the words.
ghost use Rattle.std.specs.Prelude.{MatchOption, MatchResult, codes};
ghost use Rattle.clap.specs.Words.{found_of, rows_of};
ghost use Rattle.coap_arguments.specs.Asking.{AsksServer, HasNoUri, HasNothingBeside, HasPingOptions, HasUri};
ghost use Rattle.coap_arguments.specs.Asking.{IsSpareWord, IsWrongBeside};
ghost use Rattle.coap_arguments.specs.WrongOptions.{IsWrongOption};
ghost use Rattle.coap_arguments.specs.Values.{IsGiven, IsValue};
ghost use Rattle.coap_arguments.specs.Words.{AsksForIn, IsServer, IsWrongIn};

use crate::asking::{is_set, number_of, options_of};
use crate::hosts::{Server, host_of};
use crate::orders::{Order, PingOptions, Wrong};
use crate::refusals::{BesideRefusal, NumberRefusal};
use crate::uris::{place_of, uri_in};
use crate::words::{optional, small_number, value};
use clap::ArgMatches;
use std::alloc::Global;

/// `coap discover PORT`; a URI may stand in the place of PORT.
#[tactic(auto, using(crate::proofs::ClapWords::value_wrong))]
pub(crate) fn discover_order<'a>(alloc: Global, given: &ArgMatches<'a>) -> Result<Order<'a>, Wrong>
    requires { IsGiven (codes "PORT|URI") (rows_of (found_of given.now)) }
    ensures { MatchResult result (AsksForIn (codes "discover") (rows_of (found_of given.now)))
        (IsWrongIn (codes "discover") (rows_of (found_of given.now))) }
{
    let server = server_of(alloc, "discover", given)?;
    let options = options_of(alloc, given)?;
    Ok(Order::Discover {
        server,
        options,
        pcap: optional(given, "pcap"),
    })
}

/// `coap ping PORT`; a URI may stand in the place of PORT.
#[tactic(auto, using(crate::proofs::ClapWords::value_wrong))]
pub(crate) fn ping_order<'a>(alloc: Global, given: &ArgMatches<'a>) -> Result<Order<'a>, Wrong>
    requires { IsGiven (codes "PORT|URI") (rows_of (found_of given.now)) }
    ensures { MatchResult result (AsksForIn (codes "ping") (rows_of (found_of given.now)))
        (IsWrongIn (codes "ping") (rows_of (found_of given.now))) }
{
    let server = server_of(alloc, "ping", given)?;
    let options = ping_options_of(given)?;
    Ok(Order::Ping {
        server,
        options,
        pcap: optional(given, "pcap"),
    })
}

// How a server is asked whether it is there.
fn ping_options_of(given: &ArgMatches<'_>) -> Result<PingOptions, Wrong>
    ensures { MatchResult result (HasPingOptions (rows_of (found_of given.now)))
        (IsWrongOption (rows_of (found_of given.now))) }
{
    let times = number_of(given, NumberRefusal::Times)?;
    let give_up = number_of(given, NumberRefusal::GiveUp)?;
    Ok(PingOptions {
        times,
        give_up,
        trace: is_set(given, "trace"),
        json: is_set(given, "json"),
    })
}

// The server that is asked itself.
#[tactic(auto, using(crate::proofs::UriWords::no_uri))]
fn server_of<'a>(
    alloc: Global,
    subcommand: &str,
    given: &ArgMatches<'a>,
) -> Result<Server<'a>, Wrong>
    requires name { AsksServer subcommand.now }
    requires port { IsGiven (codes "PORT|URI") (rows_of (found_of given.now)) }
    ensures { MatchResult result (IsServer subcommand.now (rows_of (found_of given.now)))
        (IsWrongIn subcommand.now (rows_of (found_of given.now))) }
{
    let text = value(given, "PORT|URI");
    match uri_in(text) {
        Some(rest) => server_at_uri(alloc, subcommand, given, text, rest),
        None => server_at_port(subcommand, given, text),
    }
}

// By PORT.
#[tactic(auto, using(crate::proofs::ClapWords::value_wrong))]
fn server_at_port<'a>(
    subcommand: &str,
    given: &ArgMatches<'a>,
    port: &str,
) -> Result<Server<'a>, Wrong>
    requires name { AsksServer subcommand.now }
    requires port { IsValue (codes "PORT|URI") (rows_of (found_of given.now)) port.now }
    requires words { HasNoUri (rows_of (found_of given.now)) }
    ensures { MatchResult result (IsServer subcommand.now (rows_of (found_of given.now)))
        (IsWrongIn subcommand.now (rows_of (found_of given.now))) }
{
    let Some(port) = small_number(port) else {
        return Err(Wrong::Number(NumberRefusal::ServerPort));
    };
    let host = host_of(given)?;
    Ok(Server { host, port })
}

// By a URI, of which this stands behind `://`.
fn server_at_uri<'a>(
    alloc: Global,
    subcommand: &str,
    given: &ArgMatches<'a>,
    text: &str,
    rest: &'a str,
) -> Result<Server<'a>, Wrong>
    requires name { AsksServer subcommand.now }
    requires uri { HasUri (rows_of (found_of given.now)) text.now rest.now }
    ensures { MatchResult result (IsServer subcommand.now (rows_of (found_of given.now)))
        (IsWrongIn subcommand.now (rows_of (found_of given.now))) }
{
    if let Some(refusal) = beside(subcommand, given) {
        return Err(Wrong::Beside(refusal));
    }
    match place_of(alloc, text, rest)? {
        Ok(place) if place.path.is_empty() => Ok(place.server),
        Ok(_) => Err(Wrong::Beside(BesideRefusal::Path)),
        Err(refusal) => Err(Wrong::Uri(refusal)),
    }
}

/// What stands beside a URI that says it itself, if anything.
pub(crate) fn beside(subcommand: &str, given: &ArgMatches<'_>) -> Option<BesideRefusal>
    ensures { MatchOption result (HasNothingBeside subcommand.now (rows_of (found_of given.now)))
        (λ refusal. IsWrongBeside refusal subcommand.now (rows_of (found_of given.now))) }
{
    let spare = optional(given, spare_word(subcommand));
    let host = optional(given, "host");
    match (spare, host) {
        (Some(_), _) => Some(BesideRefusal::Word),
        (_, Some(_)) => Some(BesideRefusal::Host),
        _ => None,
    }
}

// The last word of a subcommand, which is one too many behind a URI.
fn spare_word(subcommand: &str) -> &'static str
    ensures { IsSpareWord subcommand.now result.now }
{
    match subcommand {
        "put" | "post" => "BODY",
        _ => "PATH",
    }
}
