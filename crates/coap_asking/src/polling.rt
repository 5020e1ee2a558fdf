//! Getting what a server holds at a path again and again, by one client, and printing each reading (RFC 7252, section
//! 5.8.1).
ghost use Rattle.std.specs.Prelude.{◌≡◌, ◌↔◌, ◌∷◌, ℕ, List, [], length, true, false, None, Some, Ok, IfNone, IfOk};
ghost use Rattle.std.specs.Prelude.{IfSome, OnOk};
ghost use Rattle.coap_types.specs.declared.endpoint.Endpoint.{Endpoint as EndpointSpec};
ghost use Rattle.coap_block.specs.Sizes.{Sizes};
ghost use Rattle.coap_layer.specs.declared.setup.Setup.{Setup as SetupSpec};
ghost use Rattle.coap_client.specs.Led.{Led, State};
ghost use Rattle.coap_arguments.specs.declared.orders.What.TheVariants.{Get};
ghost use Rattle.coap_asking.specs.Asked.{asked_request};
ghost use Rattle.coap_waits.specs.Asks.{AsksNothing, Turned, TurnsAt, got_status};
ghost use Rattle.coap_waits.specs.Linked.{GoesOver, HasTurn, IsRunOver, PassesNothing, RunsOver};
ghost use Rattle.coap_asking.specs.Printed.{WritesReading};
ghost use Rattle.coap_asking.specs.Polls.{AreWritten, Closes, Goes, HasCome, HasRead, IsLeft, Polls, Reading, Reads};
ghost use Rattle.coap_asking.specs.Polls.{WritesAs, pending_after, read_status};
ghost use Rattle.coap_waits.specs.Terms.{asked_terms, setup_of, sizes_of};
ghost use Rattle.coap_wires.specs.Waiting.{HasPassed};
ghost use Rattle.coap_waits.specs.declared.calling.Outcome.{Outcome as OutcomeSpec};

use crate::observe::{is_late, print_line};
use crate::request::request_of;
use bytes::Bytes;
use coap_arguments::{AskOptions, What};
use coap_common::put_away;
use coap_ends::{CallId, Client, Report};
use coap_links::{Link, Tally, fresh_tally, get_turn, send_all};
use coap_status::{Status, Stop};
use coap_types::{Endpoint, Method, Moment, Path};
use coap_waits::{
    Connection, Outcome, Terms, call, fresh_client, next_report_of, outcome_text, status_of,
    turn_now, write_outcome_now,
};
use coap_wires::{Counting, Timekeeper, bear_in_a_row, make_way, passed};
use std::alloc::Global;
use std::hash::BuildHasher;
use std::io::Write;

/// What is got again and again, and how.
#[derive(Drop)]
pub struct Polling<'p, 'o> {
    /// Where the resource is.
    pub path: &'p Path,
    /// How many seconds after the last time it is got again.
    pub every: u64,
    /// How it is asked for, and how often.
    pub options: &'o AskOptions,
}

// What came of a reading: its status; and its call, where it is given up and the client still waits for a reply.
#[derive(Drop)]
struct Made {
    status: Status,
    pending: Option<CallId>,
}

// The call that a client is not through with, where this became of it.
fn pending_after(outcome: &Outcome, id: CallId) -> Option<CallId>
    ensures { result ≡ pending_after outcome.now id }
{
    match outcome {
        Outcome::Refused(_) | Outcome::Reported(_) => None,
        Outcome::GaveUp(_) => Some(id),
    }
}

// Turns the client until it reports of this call, which it took at this moment, or until so many seconds have passed.
fn awaited<H: BuildHasher, L: Link, T: Timekeeper, E: Write>(
    client: &mut Client<Global, H>,
    connection: &mut Connection<'_, '_, '_, L, T, E>,
    id: CallId,
    begin: Moment,
    give_up: Option<u64>,
    tally: &mut Tally,
) -> Result<Outcome, Stop>
    ensures comes { IfOk result (λ came. Goes (λ calls. HasCome give_up begin.0 (Ok id.0) calls came) client.old
        client.new) }
    ensures over { IfOk result (λ _. GoesOver L.sends L.receives L.fault_count client.old connection.old.link.now
        tally.old client.new connection.new.link.now tally.new) }
{
    // More turns than a program lives.
    for _turn in 0..u64::MAX {
        let now = turn_now(client, connection, Counting::InARow, tally)?;
        if let Some(report) = next_report_of(client, id) {
            return Ok(Outcome::Reported(report));
        }
        if let Some(seconds) = passed(give_up, begin, now) {
            return Ok(Outcome::GaveUp(seconds));
        }
    }
    Err(Stop::Failed)
}

// What becomes of a call that the client took, and the same call where the client is not through with it.
fn taken<H: BuildHasher, L: Link, T: Timekeeper, E: Write>(
    client: &mut Client<Global, H>,
    connection: &mut Connection<'_, '_, '_, L, T, E>,
    id: CallId,
    begin: Moment,
    give_up: Option<u64>,
    tally: &mut Tally,
) -> Result<(Outcome, Option<CallId>), Stop>
    ensures comes { IfOk result (λ made. Goes (λ calls. HasCome give_up begin.0 (Ok id.0) calls made.0) client.old
        client.new × (made.1 ≡ pending_after made.0 id)) }
    ensures over { IfOk result (λ _. GoesOver L.sends L.receives L.fault_count client.old connection.old.link.now
        tally.old client.new connection.new.link.now tally.new) }
{
    let outcome = awaited(client, connection, id, begin, give_up, tally)?;
    let pending = pending_after(&outcome, id);
    Ok((outcome, pending))
}

// Has the client make a reading at this moment: what becomes of it, and the call that it is not through with.
fn read<H: BuildHasher, L: Link, T: Timekeeper, E: Write>(
    client: &mut Client<Global, H>,
    connection: &mut Connection<'_, '_, '_, L, T, E>,
    polling: &Polling<'_, '_>,
    begin: Moment,
    tally: &mut Tally,
) -> Result<(Outcome, Option<CallId>), Stop>
    ensures reads { IfOk result (λ made. Reads polling.now.options.now.give_up
        (asked_request Get polling.now.path.now polling.now.options.now []) begin.0 made.0 made.1
        client.old client.new) }
    ensures over { IfOk result (λ _. GoesOver L.sends L.receives L.fault_count client.old connection.old.link.now
        tally.old client.new connection.new.link.now tally.new) }
{
    let request = request_of(polling.path, What::Get, polling.options, Bytes::new())?;
    match call(client, begin, request)? {
        Ok(id) => taken(
            client,
            connection,
            id,
            begin,
            polling.options.give_up,
            tally,
        ),
        Err(refusal) => Ok((Outcome::Refused(refusal), None)),
    }
}

// Prints what was read, in JSON where that is wanted.
fn tell_as<T: Timekeeper, O: Write, E: Write>(
    alloc: Global,
    outcome: &Outcome,
    options: &AskOptions,
    time: &mut T,
    out: &mut O,
    err: &mut E,
) -> Result<Status, Stop>
    ensures status { IfOk result (λ status. status ≡ got_status outcome.now) }
    ensures written { OnOk result (WritesAs options.now.json options.now.hex (O.contents out.old) (O.contents out.new)
        outcome.now) }
{
    make_way(err);
    if !options.json {
        return tell(alloc, outcome, options.hex, out, err);
    }
    write_outcome_now(alloc, outcome, time, out)?;
    Ok(status_of(Method::Get, outcome))
}

// Prints the body that was read on a line; on standard error, why there is none.
fn tell<O: Write, E: Write>(
    alloc: Global,
    outcome: &Outcome,
    is_hex: bool,
    out: &mut O,
    err: &mut E,
) -> Result<Status, Stop>
    ensures status { IfOk result (λ status. status ≡ got_status outcome.now) }
    ensures printed { OnOk result (WritesReading is_hex (O.contents out.old) (O.contents out.new) outcome.now) }
{
    if let Outcome::Reported(Report::Body(fetched)) = outcome {
        print_line(alloc, fetched.body.as_slice(), is_hex, out)?;
        return Ok(Status::Done);
    }
    let text = outcome_text(alloc, outcome)?;
    let _ = writeln!(err, "{text}");
    Ok(Status::Refused)
}

// Has the client make a reading at this moment, and prints it.
fn read_and_tell<H: BuildHasher, L: Link, T: Timekeeper, O: Write, E: Write>(
    alloc: Global,
    client: &mut Client<Global, H>,
    connection: &mut Connection<'_, '_, '_, L, T, E>,
    polling: &Polling<'_, '_>,
    begin: Moment,
    tally: &mut Tally,
    out: &mut O,
) -> Result<Made, Stop>
    ensures reads { IfOk result (λ made. (came : OutcomeSpec) × (made.status ≡ got_status came)
        × Reads polling.now.options.now.give_up
        (asked_request Get polling.now.path.now polling.now.options.now []) begin.0 came made.pending
        client.old client.new
        × WritesAs polling.now.options.now.json polling.now.options.now.hex (O.contents out.old) (O.contents out.new)
        came) }
    ensures over { IfOk result (λ _. GoesOver L.sends L.receives L.fault_count client.old connection.old.link.now
        tally.old client.new connection.new.link.now tally.new) }
{
    let (outcome, pending) = read(client, connection, polling, begin, tally)?;
    let status = tell_as(
        alloc,
        &outcome,
        polling.options,
        connection.time,
        out,
        connection.err,
    )?;
    Ok(Made { status, pending })
}

// Takes the report of the call that the client is not through with, if there is one and it has come. Answers the call
// that it is not through with then.
fn left_pending<H: BuildHasher>(
    client: &mut Client<Global, H>,
    pending: Option<CallId>,
) -> Option<CallId>
    ensures left { Goes (IsLeft pending result) client.old client.new }
    ensures own { Turned PassesNothing client.old client.new }
{
    let Some(id) = pending else {
        return None;
    };
    match next_report_of(client, id) {
        Some(report) => {
            put_away(report);
            None
        }
        None => Some(id),
    }
}

// Whether the client is through with the call that it was not through with.
fn is_through(pending: Option<CallId>) -> bool
    ensures { result ≡ true → pending ≡ None }
{
    match pending {
        Some(_) => false,
        None => true,
    }
}

// A turn of the client at the moment that the clock tells; or none, and that moment, where the pause may end and so
// many seconds have passed since it began.
fn turn_or_end<H: BuildHasher, L: Link, T: Timekeeper, E: Write>(
    client: &mut Client<Global, H>,
    connection: &mut Connection<'_, '_, '_, L, T, E>,
    begin: Moment,
    every: u64,
    may_end: bool,
    tally: &mut Tally,
) -> Result<Option<Moment>, Stop>
    ensures told { IfOk result (λ ended. (now : ℕ) × T.tells connection.old.time.now now connection.new.time.now
        × IfSome ended (λ moment. moment.0 ≡ now) × IfNone ended (Turned (TurnsAt now) client.old client.new
        × HasTurn L.sends L.receives L.fault_count client.old connection.old.link.now now tally.old client.new
        connection.new.link.now tally.new)) }
    ensures ended { IfOk result (λ ended. IfSome ended (λ now. (may_end ≡ true) × HasPassed every begin.0 now.0
        × (client.new ≡ client.old))) }
    ensures asks { IfOk result (λ ended. IfNone ended (Turned AsksNothing client.old client.new)) }
    ensures over { IfOk result (λ _. GoesOver L.sends L.receives L.fault_count client.old connection.old.link.now
        tally.old client.new connection.new.link.now tally.new) }
{
    let now = connection.time.now()?;
    if may_end && is_late(Some(every), begin, now) {
        return Ok(Some(now));
    }
    get_turn(client, connection.link, now, tally);
    Ok(None)
}

// Turns the client until so many seconds have passed since this moment, and it is through with the call: that moment.
fn pause<H: BuildHasher, L: Link, T: Timekeeper, E: Write>(
    client: &mut Client<Global, H>,
    connection: &mut Connection<'_, '_, '_, L, T, E>,
    begin: Moment,
    every: u64,
    pending: Option<CallId>,
    tally: &mut Tally,
) -> Result<Moment, Stop>
    ensures paused { IfOk result (λ now. HasPassed every begin.0 now.0 × Goes (Closes pending) client.old client.new) }
    ensures over { IfOk result (λ _. GoesOver L.sends L.receives L.fault_count client.old connection.old.link.now
        tally.old client.new connection.new.link.now tally.new) }
{
    let mut left = pending;
    // More turns than a program lives.
    for _turn in 0..u64::MAX {
        let may_end = is_through(left);
        if let Some(now) = turn_or_end(client, connection, begin, every, may_end, tally)? {
            return Ok(now);
        }
        left = left_pending(client, left);
        bear_in_a_row(connection.link, tally)?;
    }
    Err(Stop::Failed)
}

// Whether so many readings are as many as are wanted.
fn is_last(times: Option<u64>, readings: u64) -> bool
    ensures { (result ≡ true) ↔ (times ≡ Some readings) }
{
    times == Some(readings)
}

// Makes one reading after the other, until there are as many as are wanted, and sends what is out then.
fn polled<H: BuildHasher, L: Link, T: Timekeeper, O: Write, E: Write>(
    alloc: Global,
    client: &mut Client<Global, H>,
    connection: &mut Connection<'_, '_, '_, L, T, E>,
    polling: &Polling<'_, '_>,
    word: u64,
    out: &mut O,
) -> Result<Status, Stop>
    ensures polled { IfOk result (λ status. (readings : List Reading)
        × (polling.now.options.now.times ≡ Some (length readings)) × (status ≡ read_status readings)
        × (s : State) × HasRead polling.now.options.now.give_up polling.now.every
        (asked_request Get polling.now.path.now polling.now.options.now []) readings client.old s
        × AreWritten polling.now.options.now readings (O.contents out.old) (O.contents out.new)) }
    ensures over { IfOk result (λ _. RunsOver L.sends L.receives L.fault_count word client.old
        connection.old.link.now client.new connection.new.link.now) }
    ensures sent { client.old.layer.layer.queue ≡ [] → OnOk result (client.new.layer.layer.queue ≡ []) }
{
    let times = polling.options.times;
    if is_last(times, 0) {
        return Ok(Status::Done);
    }
    let mut tally = fresh_tally(word);
    let mut begin = connection.time.now()?;
    // More readings than a program lives.
    for before in 0..u64::MAX {
        let made = read_and_tell(alloc, client, connection, polling, begin, &mut tally, out)?;
        if is_last(times, before + 1) {
            send_all(client, connection.link);
            return Ok(made.status);
        }
        let next = pause(
            client,
            connection,
            begin,
            polling.every,
            made.pending,
            &mut tally,
        )?;
        begin = next;
    }
    Err(Stop::Failed)
}

/// Gets what a server holds at a path again and again, each time so many seconds after the last time, or at once where
/// that took longer. Prints each body on a line of `out`, and on standard error why there is none. It ends after as
/// many readings as the options say. The client begins with this word, and by the terms of the options.
pub fn poll_over<L: Link, T: Timekeeper, H: BuildHasher + Drop, O: Write, E: Write>(
    alloc: Global,
    connection: &mut Connection<'_, '_, '_, L, T, E>,
    server: Endpoint,
    hasher: H,
    polling: &Polling<'_, '_>,
    word: u64,
    out: &mut O,
) -> Result<Status, Stop>
    // A client of this server, which began by the options, was called to GET the path as many times as they say, and
    // for nothing else: each time once it was through with the call before, and not before so many seconds had passed.
    // A call is given up in the first turn after as many seconds as may pass.
    // The status is 0 where a body was reported of the last, or none was called for, and else 1. What is written is,
    // in order, an object of JSON of each time, or each body on a line, and nothing else.
    ensures polls { IfOk result (Polls (O.contents out.old) (O.contents out.new) server
        (sizes_of (asked_terms word polling.now.options.now))
        (setup_of (asked_terms word polling.now.options.now))
        (asked_request Get polling.now.path.now polling.now.options.now []) polling.now.every polling.now.options.now) }
    // What a client that polls is fed came over its link, in turns, and all that it gives out is sent over it.
    ensures over { IfOk result (λ _. IsRunOver L.sends L.receives L.fault_count server
        (sizes_of (asked_terms word polling.now.options.now)) (setup_of (asked_terms word polling.now.options.now))
        connection.old.link.now connection.new.link.now) }
{
    let terms = Terms::of(polling.options, word);
    let mut client = fresh_client(
        alloc,
        server,
        terms.setup(),
        terms.size,
        terms.limit,
        hasher,
    );
    let ended = polled(alloc, &mut client, connection, polling, word, out);
    put_away(client);
    ended
}
