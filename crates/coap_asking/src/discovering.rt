//! `discover`: which resources a server says that it has (RFC 6690).
ghost use Rattle.std.specs.Prelude.{◌≡◌, ℕ, [], IfNone, IfOk, IfSome, OnOk, is_some};
ghost use Rattle.std.specs.Io.KnownBytes.{Appends};
ghost use Rattle.coap_types.specs.declared.endpoint.Endpoint.{Endpoint as EndpointSpec};
ghost use Rattle.coap_block.specs.Sizes.{Sizes};
ghost use Rattle.coap_layer.specs.declared.setup.Setup.{Setup as SetupSpec};
ghost use Rattle.coap_client.specs.Led.{Led};
ghost use Rattle.coap_client.specs.Object.CallShown.{shown_request};
ghost use Rattle.coap_asking.specs.Discovers.{Discovers, IsCore, IsShown, PrintsLinks, ReadsLinks, WritesShown};
ghost use Rattle.coap_waits.specs.Linked.{IsRunOver, RunsOver};
ghost use Rattle.coap_asking.specs.Discovers.{WritesTold, bad_links_text};
ghost use Rattle.coap_json.specs.Objects.{WritesObject};
ghost use Rattle.coap_waits.specs.JsonLines.{outcome_object};
ghost use Rattle.coap_waits.specs.Printed.{WritesSaid};
ghost use Rattle.coap_waits.specs.Terms.{setup_of, sizes_of};
ghost use Rattle.coap_status.specs.declared.status.Status.TheVariants.{Refused as refused};

use crate::link_lines::write_link;
use coap_arguments::path_of_text;
use coap_common::put_away;
use coap_ends::{Client, Report};
use coap_link_format::{LinksRefusal, links_of};
use coap_links::Link as Carrier;
use coap_status::{Status, Stop};
use coap_types::{Endpoint, Moment, Path, Request};
use coap_waits::{
    Connection, Outcome, Terms, fresh_client, outcome_of, outcome_text, write_outcome,
};
use coap_wires::{Timekeeper, make_way};
use std::alloc::Global;
use std::hash::BuildHasher;
use std::io::Write;

// Where a server says what it has (RFC 6690, section 4).
const WELL_KNOWN_CORE: &str = ".well-known/core";

/// The path of what a server says that it has.
pub(crate) fn core_path(alloc: Global) -> Result<Path, Stop>
    ensures { IfOk result (λ path. IsCore path) }
{
    match path_of_text(alloc, WELL_KNOWN_CORE) {
        Ok(path) => Ok(path),
        Err(_) => Err(Stop::Memory),
    }
}

// Prints a line for each link that a text spells: in JSON where that is wanted, with this moment. Of a text that is no
// link format no link is printed, but where it is bad.
fn print_links<W: Write>(
    alloc: Global,
    text: &[u8],
    json: Option<Moment>,
    out: &mut W,
) -> Result<Status, Stop>
    ensures reads { IfOk result (ReadsLinks text.now) }
    ensures printed { IfNone json (IfOk result (PrintsLinks (W.contents out.old) (W.contents out.new) text.now)) }
{
    match links_of(alloc, text) {
        Ok(links) => {
            for link in &links {
                write_link(alloc, link, json, out)?;
            }
            out.flush()?;
            Ok(Status::Done)
        }
        Err(refusal) => tell_bad(refusal, out),
    }
}

// Prints where a text is no link format.
fn tell_bad<W: Write>(refusal: LinksRefusal, out: &mut W) -> Result<Status, Stop>
    ensures { IfOk result (λ status. (status ≡ refused) × (at : ℕ) × (refusal ≡ LinksRefusal.Bad at)
        × Appends (W.contents out.old) (W.contents out.new) (bad_links_text at)) }
{
    match refusal {
        LinksRefusal::Bad(at) => {
            writeln!(out, "bad links at {at}")?;
            Ok(Status::Refused)
        }
        LinksRefusal::Memory => Err(Stop::Memory),
    }
}

// Says why no links came.
fn say<O: Write, E: Write>(
    alloc: Global,
    outcome: &Outcome,
    json: Option<Moment>,
    out: &mut O,
    err: &mut E,
) -> Result<Status, Stop>
    ensures status { IfOk result (λ status. status ≡ refused) }
    ensures said { IfNone json (OnOk result (WritesSaid (O.contents out.old) (O.contents out.new) outcome.now)) }
    ensures told { IfSome json (λ at. OnOk result (WritesObject (O.contents out.old) (O.contents out.new)
        (outcome_object at.0 outcome.now))) }
{
    if let Some(at) = json {
        write_outcome(alloc, at, outcome, out)?;
        return Ok(Status::Refused);
    }
    let text = outcome_text(alloc, outcome)?;
    match outcome {
        Outcome::Refused(_) | Outcome::Reported(_) => writeln!(out, "{text}")?,
        Outcome::GaveUp(_) => {
            let _ = writeln!(err, "{text}");
        }
    }
    Ok(Status::Refused)
}

// Prints the links that came, or why none did.
fn tell<O: Write, E: Write>(
    alloc: Global,
    outcome: &Outcome,
    json: Option<Moment>,
    out: &mut O,
    err: &mut E,
) -> Result<Status, Stop>
    ensures shown { IfOk result (IsShown outcome.now) }
    ensures written { IfNone json (IfOk result (WritesShown (O.contents out.old) (O.contents out.new) outcome.now)) }
    ensures told { IfSome json (λ at. OnOk result (WritesTold at.0 (O.contents out.old) (O.contents out.new)
        outcome.now)) }
{
    make_way(err);
    if let Outcome::Reported(Report::Body(fetched)) = outcome {
        return print_links(alloc, fetched.body.as_slice(), json, out);
    }
    say(alloc, outcome, json, out, err)
}

// The moment that lines of JSON tell, where they are wanted.
fn told_at<T: Timekeeper>(is_json: bool, time: &mut T) -> Result<Option<Moment>, Stop>
    ensures wanted { IfOk result (λ at. is_some at ≡ is_json) }
    ensures told { IfOk result (λ at. IfSome at (λ now. T.tells time.old now.0 time.new)) }
{
    if is_json {
        Ok(Some(time.now()?))
    } else {
        Ok(None)
    }
}

// Asks, and prints the links.
fn ask_and_tell<H: BuildHasher, L: Carrier, T: Timekeeper, O: Write, E: Write>(
    alloc: Global,
    client: &mut Client<Global, H>,
    connection: &mut Connection<'_, '_, '_, L, T, E>,
    request: Request,
    terms: &Terms,
    out: &mut O,
) -> Result<Status, Stop>
    ensures discovers { IfOk result (λ status. (server : EndpointSpec) (sizes : Sizes) (w : SetupSpec)
        → Led server sizes w [] client.old
        → Discovers terms.now.json (O.contents out.old) (O.contents out.new)
        server sizes w terms.now.give_up (shown_request request) status) }
    ensures over { IfOk result (λ _. RunsOver L.sends L.receives L.fault_count terms.now.word client.old
        connection.old.link.now client.new connection.new.link.now) }
{
    let outcome = outcome_of(client, connection, request, terms)?;
    let json = told_at(terms.json, connection.time)?;
    tell(alloc, &outcome, json, out, connection.err)
}

/// Asks a server by this request what it has, and prints each link on a line; else what was reported. Where so many
/// seconds pass before that as the terms say, it gives up and says so on standard error.
pub fn discover_over<L: Carrier, T: Timekeeper, H: BuildHasher + Drop, O: Write, E: Write>(
    alloc: Global,
    connection: &mut Connection<'_, '_, '_, L, T, E>,
    server: Endpoint,
    hasher: H,
    request: Request,
    terms: &Terms,
    out: &mut O,
) -> Result<Status, Stop>
    // A client of this server, which began by the terms, was handed the request, and nothing else; the status is 0
    // where a body was reported of it that spells links (RFC 6690, section 2), and else 1. What is written in words is
    // each of these links on a line, or where the body is no such text; or, on a line, what else became of the request,
    // unless it was given up; and nothing else. Told in JSON, what else became of it is the line of its object.
    ensures discovers { IfOk result (Discovers terms.now.json (O.contents out.old) (O.contents out.new)
        server (sizes_of terms.now) (setup_of terms.now) terms.now.give_up (shown_request request)) }
    // What a client that discovers is fed came over its link, in turns, and all that it gives out is sent over it.
    ensures over { IfOk result (λ _. IsRunOver L.sends L.receives L.fault_count server (sizes_of terms.now)
        (setup_of terms.now) connection.old.link.now connection.new.link.now) }
{
    let mut client = fresh_client(
        alloc,
        server,
        terms.setup(),
        terms.size,
        terms.limit,
        hasher,
    );
    let ended = ask_and_tell(alloc, &mut client, connection, request, terms, out);
    put_away(client);
    ended
}
