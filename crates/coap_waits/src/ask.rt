//! Asking something of a server, and printing what came of it.
ghost use Rattle.std.specs.Prelude.{◌≡◌, ℕ, [], Ok, Option, Some, IfOk, IfNone, IfSome, OnOk};
ghost use Rattle.std.specs.declared.alloc.Global.{Global};
ghost use Rattle.coap_types.specs.declared.endpoint.Endpoint.{Endpoint as EndpointSpec};
ghost use Rattle.coap_block.specs.Sizes.{Sizes};
ghost use Rattle.coap_layer.specs.declared.setup.Setup.{Setup as SetupSpec};
ghost use Rattle.coap_client.specs.Led.{Led, Step};
ghost use Rattle.coap_client.specs.Object.CallShown.{shown_request};
ghost use Rattle.coap_client.specs.Object.Shown.{shown_report};
ghost use Rattle.coap_client.specs.Trace.{NextReport, Reported};
ghost use Rattle.coap_client.specs.declared.client.report.Report as R;
ghost use Rattle.coap_waits.specs.Asks.{AsksNothing, Becomes, Comes, Turned, changed_status};
ghost use Rattle.coap_waits.specs.Asks.{got_status, status_after};
ghost use Rattle.coap_waits.specs.JsonLines.{Tells, WritesRequest};
ghost use Rattle.coap_waits.specs.Linked.{IsRunOver, PassesNothing, RunsOver};
ghost use Rattle.coap_waits.specs.Printed.{WritesGot, WritesInWords, WritesSaid};
ghost use Rattle.coap_waits.specs.Terms.{setup_of, sizes_of};
ghost use Rattle.coap_waits.specs.declared.calling.Outcome.TheVariants as outcomes;

use crate::beginning::fresh_client;
use crate::calling::{Outcome, call, outcome_text};
use crate::client_turns::turn_now;
use crate::connection::{Connection, Terms};
use crate::json_lines::write_outcome_now;
use coap_common::put_away;
use coap_ends::{CallId, Client, Report};
use coap_links::{Link, fresh_tally, send_all};
use coap_status::{Status, Stop};
use coap_types::{Endpoint, Method, Moment, Request};
use coap_wires::{Counting, Timekeeper, make_way, passed};
use std::alloc::Global;
use std::hash::BuildHasher;
use std::io::Write;

/// Takes the next report; what it is, where it is of this call.
pub fn next_report_of<H: BuildHasher>(client: &mut Client<Global, H>, id: CallId) -> Option<Report>
    // A report that is taken of a call is the next one of the client, and of that call.
    ensures some { IfSome result (λ report. Step client.old
        (NextReport (Some (record { number = id.0; report = shown_report report }))) client.new) }
    // Where no report of a call is taken, the client is asked for nothing.
    ensures none { IfNone result (Turned AsksNothing client.old client.new) }
    // Where no report of a call is taken, there is none, or it is of another call.
    ensures other { IfNone result ((taken : Option Reported) × Step client.old (NextReport taken) client.new) }
    // No datagram passes, and no time, where a report is taken.
    ensures own { Turned PassesNothing client.old client.new }
{
    match client.next_report() {
        Some((of, report)) if of.0 == id.0 => Some(report),
        _ => None,
    }
}

// Turns the client until it reports of this call, which it took at this moment, and sends what is out then; or
// until so many seconds have passed.
fn awaited<H: BuildHasher, L: Link, T: Timekeeper, E: Write>(
    client: &mut Client<Global, H>,
    connection: &mut Connection<'_, '_, '_, L, T, E>,
    id: CallId,
    begin: Moment,
    terms: &Terms,
) -> Result<Outcome, Stop>
    ensures comes { IfOk result (Comes terms.now.give_up begin.0 client.old id.0) }
    ensures over { IfOk result (λ _. RunsOver L.sends L.receives L.fault_count terms.now.word client.old
        connection.old.link.now client.new connection.new.link.now) }
    ensures sent { (report : R.Report Global) → result ≡ Ok (outcomes.Reported report)
        → client.new.layer.layer.queue ≡ [] }
{
    let mut tally = fresh_tally(terms.word);
    // More turns than a program lives.
    for _turn in 0..u64::MAX {
        let now = turn_now(client, connection, Counting::InAll, &mut tally)?;
        if let Some(report) = next_report_of(client, id) {
            send_all(client, connection.link);
            return Ok(Outcome::Reported(report));
        }
        if let Some(seconds) = passed(terms.give_up, begin, now) {
            return Ok(Outcome::GaveUp(seconds));
        }
    }
    Err(Stop::Failed)
}

/// What becomes of a request, where the client was asked for nothing before.
pub fn outcome_of<H: BuildHasher, L: Link, T: Timekeeper, E: Write>(
    client: &mut Client<Global, H>,
    connection: &mut Connection<'_, '_, '_, L, T, E>,
    request: Request,
    terms: &Terms,
) -> Result<Outcome, Stop>
    // A client that was asked for nothing before was handed the request, and nothing else: it refused it, reported of
    // it, or it was given up in the first turn after as many seconds as may pass.
    ensures becomes { IfOk result (λ outcome. (server : EndpointSpec) (sizes : Sizes) (w : SetupSpec)
        → Led server sizes w [] client.old → Becomes server sizes w terms.now.give_up (shown_request request) outcome) }
    // What a client that waits for a report is fed came over its link, in turns, and all that it gives out is sent over
    // it.
    ensures over { IfOk result (λ _. RunsOver L.sends L.receives L.fault_count terms.now.word client.old
        connection.old.link.now client.new connection.new.link.now) }
    // Once a report came, nothing is left to be sent.
    ensures sent { (report : R.Report Global) → result ≡ Ok (outcomes.Reported report)
        → client.new.layer.layer.queue ≡ [] }
{
    let begin = connection.time.now()?;
    match call(client, begin, request)? {
        Ok(id) => awaited(client, connection, id, begin, terms),
        Err(refusal) => Ok(Outcome::Refused(refusal)),
    }
}

// Says what became of a request; that the client gave up, on standard error.
fn say<O: Write, E: Write>(
    alloc: Global,
    outcome: &Outcome,
    out: &mut O,
    err: &mut E,
) -> Result<(), Stop>
    ensures { OnOk result (WritesSaid (O.contents out.old) (O.contents out.new) outcome.now) }
{
    let text = outcome_text(alloc, outcome)?;
    match outcome {
        Outcome::Refused(_) | Outcome::Reported(_) => writeln!(out, "{text}")?,
        Outcome::GaveUp(_) => {
            let _ = writeln!(err, "{text}");
        }
    }
    Ok(())
}

// Prints the body that was got, or why there is none.
fn tell_got<O: Write, E: Write>(
    alloc: Global,
    outcome: &Outcome,
    out: &mut O,
    err: &mut E,
) -> Result<Status, Stop>
    ensures status { IfOk result (λ status. status ≡ got_status outcome.now) }
    ensures printed { OnOk result (WritesGot (O.contents out.old) (O.contents out.new) outcome.now) }
{
    if let Outcome::Reported(Report::Body(fetched)) = outcome {
        out.write_all(fetched.body.as_slice())?;
        return Ok(Status::Done);
    }
    say(alloc, outcome, out, err)?;
    Ok(Status::Refused)
}

// Prints what became of a change.
fn tell_changed<O: Write, E: Write>(
    alloc: Global,
    outcome: &Outcome,
    out: &mut O,
    err: &mut E,
) -> Result<Status, Stop>
    ensures status { IfOk result (λ status. status ≡ changed_status outcome.now) }
    ensures printed { OnOk result (WritesSaid (O.contents out.old) (O.contents out.new) outcome.now) }
{
    say(alloc, outcome, out, err)?;
    if let Outcome::Reported(Report::Done(_)) = outcome {
        return Ok(Status::Done);
    }
    Ok(Status::Refused)
}

// Prints what became of a request with this method.
fn tell<O: Write, E: Write>(
    alloc: Global,
    method: Method,
    outcome: &Outcome,
    out: &mut O,
    err: &mut E,
) -> Result<Status, Stop>
    ensures status { IfOk result (λ status. status ≡ status_after method outcome.now) }
    ensures printed { OnOk result (WritesInWords method (O.contents out.old) (O.contents out.new) outcome.now) }
{
    match method {
        Method::Get => tell_got(alloc, outcome, out, err),
        Method::Post | Method::Put | Method::Delete => tell_changed(alloc, outcome, out, err),
    }
}

/// The status of what became of a request with this method.
pub fn status_of(method: Method, outcome: &Outcome) -> Status
    // The status of a request is 0 where a body (of a GET) or success was reported of it, and else 1.
    ensures { result ≡ status_after method outcome.now }
{
    match (method, outcome) {
        (Method::Get, Outcome::Reported(Report::Body(_))) => Status::Done,
        (Method::Get, _) => Status::Refused,
        (_, Outcome::Reported(Report::Done(_))) => Status::Done,
        (_, _) => Status::Refused,
    }
}

// Prints what became of a request with this method, in JSON where that is wanted.
fn tell_as<T: Timekeeper, O: Write, E: Write>(
    alloc: Global,
    method: Method,
    is_json: bool,
    outcome: &Outcome,
    time: &mut T,
    out: &mut O,
    err: &mut E,
) -> Result<Status, Stop>
    ensures status { IfOk result (λ status. status ≡ status_after method outcome.now) }
    ensures written { OnOk result (WritesRequest is_json method (O.contents out.old) (O.contents out.new) outcome.now) }
{
    make_way(err);
    if !is_json {
        return tell(alloc, method, outcome, out, err);
    }
    write_outcome_now(alloc, outcome, time, out)?;
    Ok(status_of(method, outcome))
}

// Asks, and prints what came of it.
fn ask_and_tell<H: BuildHasher, L: Link, T: Timekeeper, O: Write, E: Write>(
    alloc: Global,
    client: &mut Client<Global, H>,
    connection: &mut Connection<'_, '_, '_, L, T, E>,
    request: Request,
    terms: &Terms,
    out: &mut O,
) -> Result<Status, Stop>
    ensures tells { IfOk result (λ status. (server : EndpointSpec) (sizes : Sizes) (w : SetupSpec)
        → Led server sizes w [] client.old → Tells terms.now.json (O.contents out.old) (O.contents out.new)
        server sizes w terms.now.give_up (shown_request request) status) }
    ensures over { IfOk result (λ _. RunsOver L.sends L.receives L.fault_count terms.now.word client.old
        connection.old.link.now client.new connection.new.link.now) }
{
    let method = request.method;
    let outcome = outcome_of(client, connection, request, terms)?;
    tell_as(
        alloc,
        method,
        terms.json,
        &outcome,
        connection.time,
        out,
        connection.err,
    )
}

/// Asks a server for what a request says, and prints the body that it got, or what was reported. Where so
/// many seconds pass before that as the terms say, it gives up and says so on standard error. In JSON it prints a line
/// of what became of it in any case. The client begins by the terms.
pub fn ask_over<L: Link, T: Timekeeper, H: BuildHasher + Drop, O: Write, E: Write>(
    alloc: Global,
    connection: &mut Connection<'_, '_, '_, L, T, E>,
    server: Endpoint,
    hasher: H,
    request: Request,
    terms: &Terms,
    out: &mut O,
) -> Result<Status, Stop>
    // A client of this server, which began by the terms, was handed this request, and nothing else, and given up in the
    // first turn after as many seconds as may pass; the status is 0 where a body (of a GET) or success was reported of
    // it, and else 1. Where that is told in JSON, what is written is the line of what became of the request; else the
    // body that a GET got, or, on a line, what else became of the request, unless it was given up; and nothing else.
    ensures tells { IfOk result (Tells terms.now.json (O.contents out.old) (O.contents out.new)
        server (sizes_of terms.now) (setup_of terms.now) terms.now.give_up (shown_request request)) }
    // What a client of a request is fed came over its link, in turns, and all that it gives out is sent over it.
    ensures over { IfOk result (λ _. IsRunOver L.sends L.receives L.fault_count server (sizes_of terms.now)
        (setup_of terms.now) connection.old.link.now connection.new.link.now) }
{
    let mut client = fresh_client(
        alloc,
        server,
        terms.setup(),
        terms.size,
        terms.limit,
        hasher,
    );
    let ended = ask_and_tell(alloc, &mut client, connection, request, terms, out);
    put_away(client);
    ended
}
