//! `pair`: a client and a server in one process, a PUT and a GET.
ghost use Rattle.std.specs.Prelude.{◌≡◌, ◌∷◌, ℕ, List, [], true, false, Ok, IfOk, OnOk};
ghost use Rattle.coap_types.specs.declared.endpoint.Endpoint.{Endpoint as EndpointSpec};
ghost use Rattle.coap_types.specs.declared.szx.TheConstants.{MAX_SZX as max_szx};
ghost use Rattle.coap_block.specs.Sizes.{Sizes};
ghost use Rattle.coap_layer.specs.declared.setup.Setup.{Setup as SetupSpec};
ghost use Rattle.coap_resource.specs.Entries.{content_of};
ghost use Rattle.coap_server.specs.Led.{Led as ServerLed};
ghost use Rattle.coap_server.specs.Object.Shown.{state_of};
ghost use Rattle.coap_client.specs.Led.{Led, State, Step};
ghost use Rattle.coap_client.specs.Object.CallShown.{shown_request};
ghost use Rattle.coap_client.specs.Object.Shown.{shown_report};
ghost use Rattle.coap_client.specs.Trace.{Call};
ghost use Rattle.coap_links.specs.Pumping.{SendsAll};
ghost use Rattle.coap_links.specs.Turning.{Turns};
ghost use Rattle.coap_wires.specs.Words.{IsDrawnWord};
ghost use Rattle.coap_waits.specs.Asks.{AsksNothing, Turned, TurnsAt, changed_status, takes_report};
ghost use Rattle.coap_wires.specs.Bearing.{borne_in_all};
ghost use Rattle.coap_waits.specs.Terms.{client_sizes};
ghost use Rattle.coap_answers.specs.Ends.{server_limits};
ghost use Rattle.coap_waits.specs.Linked.{HasSent, HasTurn};
ghost use Rattle.coap_commands.specs.PairTurns.{EndsWith, SideTurns, TakesTurn};
ghost use Rattle.coap_commands.specs.Pairs.{CameBack, IsHanded, IsPaired, IsPairedBy, Pairs, paired_setup};
ghost use Rattle.coap_commands.specs.Printed.{WritesGet, WritesNamed, WritesPut};
ghost use Rattle.coap_answers.specs.Statuses.{IsCarriedOut};
ghost use Rattle.coap_status.specs.declared.status.Status.TheVariants as status;

use crate::side::Side;
use coap_answers::fresh_server;
use coap_arguments::WordChoice;
use coap_common::{largest_szx, put_away};
use coap_ends::{CallId, Client, End, Report, Server};
use coap_layer::Setup;
use coap_links::{ANY_PORT, LOOPBACK, Link, Tally, UdpLink, fresh_tally, send_all, turn};
use coap_resource::MapStore;
use coap_status::{Status, Stop};
use coap_types::{BodyLimit, Endpoint, Path, Remembered, Request};
use coap_waits::{
    Outcome, call, fresh_client, get_request, next_report_of, outcome_text, put_request,
};
use coap_wires::{Draws, ProgramTime, Timekeeper, bear_in_all, word_of};
use std::alloc::Global;
use std::hash::{BuildHasher, RandomState};
use std::io;
use std::io::Write;
use std::net::Net;
use std::random::RandomSource;
use std::rt::Clock;

// Turns the client at the moment that the clock tells, and sends what is out then.
fn turn_client<H: BuildHasher, C: Link, T: Timekeeper>(
    client: &mut Client<Global, H>,
    link: &mut C,
    time: &mut T,
    tally: &mut Tally,
) -> Result<(), Stop>
    ensures told { OnOk result ((now : ℕ) × T.tells time.old now time.new
        × Turned (TurnsAt now) client.old client.new) }
    ensures turned { OnOk result (Turned AsksNothing client.old client.new) }
    ensures over { OnOk result (TakesTurn T.tells (HasTurn C.sends C.receives C.fault_count)
        (HasSent C.sends C.receives C.fault_count) time.old client.old link.old tally.old time.new client.new link.new
        tally.new) }
    ensures sent { OnOk result (client.new.layer.layer.queue ≡ []) }
    ensures borne { OnOk result (borne_in_all (C.fault_count link.new) tally.new ≡ Ok tt) }
{
    let now = time.now()?;
    turn(client, link, now, tally);
    send_all(client, link);
    bear_in_all(link, tally)
}

// Turns the client, and then its server, until the client reports of this call.
fn reported<H: BuildHasher, C: Link, E: End<Global>, S: Link, T: Timekeeper>(
    client: &mut Client<Global, H>,
    link: &mut C,
    tally: &mut Tally,
    server: &mut Side<'_, E, S>,
    time: &mut T,
    id: CallId,
) -> Result<Report, Stop>
    ensures reports { IfOk result (λ report. (turned : State) × Turned AsksNothing client.old turned
        × Step turned (takes_report id.0 (shown_report report)) client.new) }
    ensures turns { IfOk result (λ report. EndsWith (TakesTurn T.tells (HasTurn C.sends C.receives C.fault_count)
        (HasSent C.sends C.receives C.fault_count)) (SideTurns T.tells
        (Turns E.waiting E.gives S.sends S.receives S.fault_count E.quiet_feed E.feeds E.quiet_tick E.ticks)
        (λ g k f m. SendsAll E.gives S.sends g k (E.waiting g) f m) E.state) (takes_report id.0 (shown_report report))
        time.old client.old link.old tally.old server.old time.new client.new link.new tally.new server.new) }
{
    // More turns than a program lives.
    for _turn in 0..u64::MAX {
        turn_client(client, link, time, tally)?;
        if let Some(report) = next_report_of(client, id) {
            return Ok(report);
        }
        server.turn(time)?;
    }
    Err(Stop::Failed)
}

// What becomes of a request of the client.
fn ask<H: BuildHasher, C: Link, E: End<Global>, S: Link, T: Timekeeper>(
    client: &mut Client<Global, H>,
    link: &mut C,
    tally: &mut Tally,
    server: &mut Side<'_, E, S>,
    time: &mut T,
    request: Request,
) -> Result<Outcome, Stop>
    ensures { IfOk result (λ outcome. (server : EndpointSpec) (sizes : Sizes) (w : SetupSpec) (t : List Call)
        → Led server sizes w t client.old → (after : List Call) × IsHanded t (shown_request request) outcome after
        × Led server sizes w after client.new) }
{
    let now = time.now()?;
    match call(client, now, request)? {
        Ok(id) => {
            let report = reported(client, link, tally, server, time, id)?;
            Ok(Outcome::Reported(report))
        }
        Err(refusal) => Ok(Outcome::Refused(refusal)),
    }
}

// Puts the body at the path, and, where that succeeded, gets what is there; prints what became of both.
fn put_and_get<H: BuildHasher, C: Link, E: End<Global>, S: Link, T: Timekeeper, W: Write>(
    alloc: Global,
    client: &mut Client<Global, H>,
    link: &mut C,
    tally: &mut Tally,
    server: &mut Side<'_, E, S>,
    time: &mut T,
    path: &Path,
    body: &[u8],
    out: &mut W,
) -> Result<Status, Stop>
    ensures { IfOk result (λ status. (server : EndpointSpec) (sizes : Sizes) (w : SetupSpec)
        → Led server sizes w [] client.old → Pairs (W.contents out.old) (W.contents out.new) server sizes w path.now
        body.now status) }
{
    let request = put_request(alloc, path, body)?;
    let put = ask(client, link, tally, server, time, request)?;
    if !tell_put(alloc, &put, out)? {
        return Ok(Status::Refused);
    }
    let request = get_request(path)?;
    let got = ask(client, link, tally, server, time, request)?;
    if tell_get(alloc, &got, body, out)? {
        Ok(Status::Done)
    } else {
        Ok(Status::Refused)
    }
}

// Prints what became of a request behind a name.
fn say<W: Write>(alloc: Global, name: &str, outcome: &Outcome, out: &mut W) -> Result<(), Stop>
    ensures { OnOk result (WritesNamed name.now (W.contents out.old) (W.contents out.new) outcome.now) }
{
    let text = outcome_text(alloc, outcome)?;
    writeln!(out, "{name} {text}")?;
    Ok(())
}

// Prints what became of the PUT, and whether it succeeded.
fn tell_put<W: Write>(alloc: Global, outcome: &Outcome, out: &mut W) -> Result<bool, Stop>
    ensures yes { IfOk result (λ is. is ≡ true → changed_status outcome.now ≡ status.Done) }
    ensures no { IfOk result (λ is. is ≡ false → changed_status outcome.now ≡ status.Refused) }
    ensures printed { OnOk result (WritesPut (W.contents out.old) (W.contents out.new) outcome.now) }
{
    if let Outcome::Reported(Report::Done(code)) = outcome {
        writeln!(out, "put {code}")?;
        return Ok(true);
    }
    say(alloc, "put", outcome, out)?;
    Ok(false)
}

// Prints what became of the GET, and whether it got this body.
fn tell_get<W: Write>(
    alloc: Global,
    outcome: &Outcome,
    body: &[u8],
    out: &mut W,
) -> Result<bool, Stop>
    ensures yes { IfOk result (λ is. is ≡ true → CameBack body.now outcome.now) }
    ensures no { IfOk result (λ is. is ≡ false → CameBack body.now outcome.now → ⊥) }
    ensures printed { OnOk result (WritesGet (W.contents out.old) (W.contents out.new) outcome.now) }
{
    if let Outcome::Reported(Report::Body(fetched)) = outcome {
        let len = fetched.body.len();
        writeln!(out, "get 2.05 {len}")?;
        return Ok(fetched.body.as_slice() == body);
    }
    say(alloc, "get", outcome, out)?;
    Ok(false)
}

// The server of a pair, to which nothing has happened.
fn paired_server<K: BuildHasher + Drop>(
    alloc: Global,
    word: u64,
    remembered: Remembered,
    limit: BodyLimit,
    hasher: K,
) -> Server<MapStore, Global, K>
    ensures { ServerLed (server_limits limit) max_szx (paired_setup word remembered) [] (state_of content_of result) }
{
    let setup = Setup { word, remembered };
    fresh_server(alloc, setup, limit, hasher)
}

/// Puts a body at a path and gets it back, between a client and a server that take turns, and
/// prints what became of both requests; done where what came back is the body. Each end begins with
/// this word, remembers so many messages, and takes bodies up to this limit; the first hasher is the client's.
pub fn pair_over<
    C: Link,
    S: Link,
    T: Timekeeper,
    H: BuildHasher + Drop,
    K: BuildHasher + Drop,
    W: Write,
>(
    alloc: Global,
    client_link: &mut C,
    server_link: &mut S,
    time: &mut T,
    hashers: (H, K),
    path: &Path,
    body: &[u8],
    word: u64,
    remembered: Remembered,
    limit: BodyLimit,
    out: &mut W,
) -> Result<Status, Stop>
    // A `pair` over any links is carried out with status 0 or 1, or stops.
    ensures ends { IfOk result IsCarriedOut }
    // A client of the server at that link, with as many remembered messages as were chosen, was handed a PUT of the
    // body at the path, where success was reported of it a GET of the path, and nothing else; the status is 0 where the
    // body came back, and else 1. What is printed is what became of the PUT and of the GET, a line of each.
    ensures pairs { IfOk result (Pairs (W.contents out.old) (W.contents out.new)
        (S.own_address server_link.old) (client_sizes max_szx limit)
        (paired_setup word remembered) path.now body.now) }
{
    let (client_hasher, server_hasher) = hashers;
    let address = server_link.address();
    let client_setup = Setup { word, remembered };
    let mut client = fresh_client(
        alloc,
        address,
        client_setup,
        largest_szx(),
        limit,
        client_hasher,
    );
    let mut server = paired_server(alloc, word, remembered, limit, server_hasher);
    let mut side = Side::new(&mut server, server_link, word);
    let mut tally = fresh_tally(word);
    let ended = put_and_get(
        alloc,
        &mut client,
        client_link,
        &mut tally,
        &mut side,
        time,
        path,
        body,
        out,
    );
    put_away(client);
    put_away(server);
    ended
}

// A link at 127.0.0.1, at a port that is free.
fn loopback_link<R: Net>(net: &R) -> io::Result<UdpLink>
    ensures { IfOk result (λ link. link.address.ip ≡ 127 ∷ 0 ∷ 0 ∷ 1 ∷ []) }
{
    let own = Endpoint {
        ip: LOOPBACK,
        port: ANY_PORT,
    };
    UdpLink::bind(net, own)
}

/// Puts a body at a path and gets it back, over two sockets of 127.0.0.1.
pub(crate) fn pair<R: AllocGlobal + Net + Clock + RandomSource + Draws, W: Write>(
    rt: &R,
    path: &Path,
    body: &str,
    word: WordChoice,
    limit: BodyLimit,
    remembered: Remembered,
    out: &mut W,
) -> Result<Status, Stop>
    ensures paired { IfOk result (IsPaired (W.contents out.old) (W.contents out.new) path.now body.now word limit
        remembered) }
    ensures drawn { IfOk result (IsPairedBy (IsDrawnWord (R.draws rt.now) word) (W.contents out.old)
        (W.contents out.new) path.now body.now limit remembered) }
{
    let word = word_of(rt, word)?;
    let mut time = ProgramTime::begin(rt)?;
    let mut client_link = loopback_link(rt)?;
    let mut server_link = loopback_link(rt)?;
    let hashers = (RandomState::new(rt)?, RandomState::new(rt)?);
    pair_over(
        rt.alloc(),
        &mut client_link,
        &mut server_link,
        &mut time,
        hashers,
        path,
        body.as_bytes(),
        word,
        remembered,
        limit,
        out,
    )
}
