//! What is asked of which server, read from the words.
ghost use Rattle.std.specs.Prelude.{MatchResult};
ghost use Rattle.std.specs.Prelude.{codes};
ghost use Rattle.clap.specs.Words.{found_of, rows_of};
ghost use Rattle.coap_arguments.specs.Asking.{HasNoUri, HasUri, IsAsk, IsBodyWord, IsWhat};
ghost use Rattle.coap_arguments.specs.Values.{IsGiven, IsValue};
ghost use Rattle.coap_arguments.specs.Words.{AsksForIn, IsWrongIn};

use crate::asking::{content_of, options_of};
use crate::hosts::{Server, host_of};
use crate::orders::{Order, What, Wrong};
use crate::path_text::path_of_text;
use crate::refusals::NumberRefusal;
use crate::repeating::apart;
use crate::servers::beside;
use crate::together::observed_apart;
use crate::uris::{place_of, uri_in};
use crate::words::{optional, small_number, value};
use clap::ArgMatches;
use std::alloc::Global;

/// `coap get PORT PATH`, and `put`, `post`, `delete` and `observe`; a URI may stand in the place of PORT and PATH.
#[tactic(auto, using(crate::proofs::UriWords::no_uri))]
pub(crate) fn ask_order<'a>(
    alloc: Global,
    subcommand: &str,
    given: &ArgMatches<'a>,
) -> Result<Order<'a>, Wrong>
    requires name { IsAsk subcommand.now }
    requires port { IsGiven (codes "PORT|URI") (rows_of (found_of given.now)) }
    ensures { MatchResult result (AsksForIn subcommand.now (rows_of (found_of given.now)))
        (IsWrongIn subcommand.now (rows_of (found_of given.now))) }
{
    let text = value(given, "PORT|URI");
    match uri_in(text) {
        Some(rest) => ask_at_uri(alloc, subcommand, given, text, rest),
        None => ask_at_port(alloc, subcommand, given, text),
    }
}

// By PORT and PATH.
#[tactic(auto, using(crate::proofs::ClapWords::value_wrong))]
fn ask_at_port<'a>(
    alloc: Global,
    subcommand: &str,
    given: &ArgMatches<'a>,
    port: &str,
) -> Result<Order<'a>, Wrong>
    requires name { IsAsk subcommand.now }
    requires port { IsValue (codes "PORT|URI") (rows_of (found_of given.now)) port.now }
    requires words { HasNoUri (rows_of (found_of given.now)) }
    ensures { MatchResult result (AsksForIn subcommand.now (rows_of (found_of given.now)))
        (IsWrongIn subcommand.now (rows_of (found_of given.now))) }
{
    let Some(port) = small_number(port) else {
        return Err(Wrong::Number(NumberRefusal::ServerPort));
    };
    let Some(text) = optional(given, "PATH") else {
        return Err(Wrong::NoPath);
    };
    let path = path_of_text(alloc, text)?;
    let what = what_of(subcommand, given, "BODY")?;
    let host = host_of(given)?;
    let options = options_of(alloc, given)?;
    Ok(Order::Ask {
        server: Server { host, port },
        path,
        what,
        options,
        pcap: optional(given, "pcap"),
    })
}

// By a URI, of which this stands behind `://`.
#[tactic(auto, using(crate::proofs::ClapWords::value_wrong))]
fn ask_at_uri<'a>(
    alloc: Global,
    subcommand: &str,
    given: &ArgMatches<'a>,
    text: &str,
    rest: &'a str,
) -> Result<Order<'a>, Wrong>
    requires name { IsAsk subcommand.now }
    requires uri { HasUri (rows_of (found_of given.now)) text.now rest.now }
    ensures { MatchResult result (AsksForIn subcommand.now (rows_of (found_of given.now)))
        (IsWrongIn subcommand.now (rows_of (found_of given.now))) }
{
    if let Some(refusal) = beside(subcommand, given) {
        return Err(Wrong::Beside(refusal));
    }
    let what = what_of(subcommand, given, "PATH")?;
    match place_of(alloc, text, rest)? {
        Ok(place) => {
            let options = options_of(alloc, given)?;
            Ok(Order::Ask {
                server: place.server,
                path: place.path,
                what,
                options,
                pcap: optional(given, "pcap"),
            })
        }
        Err(refusal) => Err(Wrong::Uri(refusal)),
    }
}

// What is asked for; the body may be this word.
fn what_of<'a>(subcommand: &str, given: &ArgMatches<'a>, word: &str) -> Result<What<'a>, Wrong>
    requires name { IsAsk subcommand.now }
    requires word { IsBodyWord word.now (rows_of (found_of given.now)) }
    ensures { MatchResult result (IsWhat word.now subcommand.now (rows_of (found_of given.now)))
        (IsWrongIn subcommand.now (rows_of (found_of given.now))) }
{
    match subcommand {
        "get" => match apart(given) {
            Some(refusal) => Err(Wrong::Together(refusal)),
            None => Ok(What::Get),
        },
        "put" => match content_of(given, word) {
            Some(content) => Ok(What::Put(content)),
            None => Err(Wrong::Body),
        },
        "post" => match content_of(given, word) {
            Some(content) => Ok(What::Post(content)),
            None => Err(Wrong::Body),
        },
        "delete" => Ok(What::Delete),
        "observe" => match observed_apart(given) {
            Some(refusal) => Err(Wrong::Together(refusal)),
            None => Ok(What::Observe),
        },
        _ => unreachable!(),
    }
}
