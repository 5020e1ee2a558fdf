//! The turn of each event.
ghost use Rattle.std.specs.Prelude.{◌≡◌, ◌<◌, ◌^◌, ℕ, Err, List, OnOk, Option};
ghost use Rattle.coap_client.specs.Object.CallShown.{shown_request};
ghost use Rattle.coap_record.specs.Events.{Calls, Observes, Cancels, Forgets, Sets, Removes, TickClient, TickServer};
ghost use Rattle.coap_record.specs.Events.{StrangerToClient, StrangerToServer};
ghost use Rattle.coap_record.specs.Legal.{MayCome};
ghost use Rattle.coap_record.specs.Record.{Turn};
ghost use Rattle.coap_run.specs.Run.Ends.{ClientLed, ServerLed};
ghost use Rattle.coap_run.specs.Run.Happening.{what_of};
ghost use Rattle.coap_run.specs.Run.Log.{given_of};
ghost use Rattle.coap_run.specs.Run.Senders.{sender_in};
ghost use Rattle.coap_run.specs.Run.Sides.{stranger_to, ticks_of};
ghost use Rattle.coap_run.specs.Run.Turning.{Turned, ClientTurned, ServerTurned};

use crate::running::copies::copied;
use crate::running::deliver::{deliver, is_end};
use crate::running::drain::{finish_client, finish_server};
use crate::running::ends::{ClientEnd, ServerEnd};
use crate::running::event::{Side, What};
use crate::running::inputs::{
    call_client, cancel_client, feed_client, feed_server, forget_client, observe_client,
    remove_server, set_server, tell_fed,
};
use crate::running::record::{Kind, Record};
use crate::running::senders::Senders;
use crate::running::stop::Stop;
use crate::running::ticks::{client_ticks, server_ticks};
use coap_ends::CallId;
use coap_record::Addresses;
use coap_resource::Store;
use coap_types::{Endpoint, Moment, Path, Request};
use std::alloc::{AllocError, Allocator};

// When an event happens, with which word, and where the ends stand.
#[derive(Clone, Copy)]
struct When {
    at: Moment,
    word: u64,
    addresses: Addresses,
}

fn on_call<A: Allocator + Copy>(
    client: &mut ClientEnd<A>,
    log: &mut Record<A>,
    when: When,
    request: &Request<A>,
) -> Result<(), AllocError>
    ensures { OnOk result ((past : List Turn)
        → ClientTurned when.addresses past (record {
          at = when.at.0;
          word = when.word;
          what = Calls
              (shown_request request.now);
        })
        client.old log.old client.new log.new) }
{
    let request = copied(request)?;
    log.note(Kind::Begins(when.at))?;
    let met = call_client(client, log, when.at, request)?;
    finish_client(when.addresses, client, when.at, met, log)?;
    Ok(())
}

fn on_observe<A: Allocator + Copy>(
    client: &mut ClientEnd<A>,
    log: &mut Record<A>,
    when: When,
    path: &Path<A>,
) -> Result<(), AllocError>
    ensures { OnOk result ((past : List Turn)
        → ClientTurned when.addresses past (record { at = when.at.0; word = when.word; what = Observes path.now })
        client.old log.old client.new log.new) }
{
    let path = path.clone()?;
    log.note(Kind::Begins(when.at))?;
    let met = observe_client(client, log, when.at, path)?;
    finish_client(when.addresses, client, when.at, met, log)?;
    Ok(())
}

fn on_cancel<A: Allocator + Copy>(
    client: &mut ClientEnd<A>,
    log: &mut Record<A>,
    when: When,
    id: CallId,
) -> Result<(), AllocError>
    ensures { OnOk result ((past : List Turn)
        → ClientTurned when.addresses past (record { at = when.at.0; word = when.word; what = Cancels id.0 })
        client.old log.old client.new log.new) }
{
    log.note(Kind::Begins(when.at))?;
    cancel_client(client, log, when.at, id)?;
    finish_client(when.addresses, client, when.at, Ok(()), log)?;
    Ok(())
}

fn on_forget<A: Allocator + Copy>(
    client: &mut ClientEnd<A>,
    log: &mut Record<A>,
    when: When,
    id: CallId,
) -> Result<(), AllocError>
    ensures { OnOk result ((past : List Turn)
        → ClientTurned when.addresses past (record { at = when.at.0; word = when.word; what = Forgets id.0 })
        client.old log.old client.new log.new) }
{
    log.note(Kind::Begins(when.at))?;
    forget_client(client, log, when.at, id)?;
    finish_client(when.addresses, client, when.at, Ok(()), log)?;
    Ok(())
}

fn on_client_tick<A: Allocator + Copy>(
    client: &mut ClientEnd<A>,
    log: &mut Record<A>,
    when: When,
) -> Result<(), AllocError>
    ensures { OnOk result ((past : List Turn)
        → ClientTurned when.addresses past (record { at = when.at.0; word = when.word; what = TickClient })
        client.old log.old client.new log.new) }
{
    log.note(Kind::Begins(when.at))?;
    let met = client_ticks(client, when.at, when.word)?;
    finish_client(when.addresses, client, when.at, met, log)?;
    Ok(())
}

fn on_client_stranger<A: Allocator + Copy>(
    client: &mut ClientEnd<A>,
    log: &mut Record<A>,
    when: When,
    from: Endpoint,
    bytes: &[u8],
) -> Result<(), AllocError>
    ensures { OnOk result ((past : List Turn) → MayCome when.addresses past when.at.0 (StrangerToClient from bytes.now)
        → ClientTurned when.addresses past (record {
          at = when.at.0;
          word = when.word;
          what = StrangerToClient from
              bytes.now;
        })
        client.old log.old client.new log.new) }
{
    log.note(Kind::Begins(when.at))?;
    let met = feed_client(client, when.at, when.word, from, bytes)?;
    finish_client(when.addresses, client, when.at, met, log)?;
    Ok(())
}

fn on_set<S: Store<A>, A: Allocator + Copy>(
    server: &mut ServerEnd<S, A>,
    log: &mut Record<A>,
    when: When,
    path: &Path<A>,
    format: Option<u16>,
    body: &[u8],
) -> Result<(), AllocError>
    ensures { OnOk result ((sender : List ℕ → Option ℕ) (past : List Turn)
        → ServerTurned when.addresses S.content sender past (record
        { at = when.at.0; word = when.word; what = Sets path.now format body.now })
        server.old log.old server.new log.new) }
{
    log.note(Kind::Begins(when.at))?;
    let met = set_server(server, log, when.at, path, format, body)?;
    finish_server(when.addresses, server, when.at, met, log)?;
    Ok(())
}

fn on_remove<S: Store<A>, A: Allocator + Copy>(
    server: &mut ServerEnd<S, A>,
    log: &mut Record<A>,
    when: When,
    path: &Path<A>,
) -> Result<(), AllocError>
    ensures { OnOk result ((sender : List ℕ → Option ℕ) (past : List Turn)
        → ServerTurned when.addresses S.content sender past (record {
          at = when.at.0;
          word = when.word;
          what = Removes
              path.now;
        })
        server.old log.old server.new log.new) }
{
    log.note(Kind::Begins(when.at))?;
    remove_server(server, log, when.at, path)?;
    finish_server(when.addresses, server, when.at, Ok(()), log)?;
    Ok(())
}

fn on_server_tick<S: Store<A>, A: Allocator + Copy>(
    server: &mut ServerEnd<S, A>,
    senders: &Senders<A>,
    log: &mut Record<A>,
    when: When,
) -> Result<(), AllocError>
    ensures { OnOk result ((past : List Turn)
        → ServerTurned when.addresses S.content (sender_in senders.now) past
        (record { at = when.at.0; word = when.word; what = TickServer })
        server.old log.old server.new log.new) }
{
    log.note(Kind::Begins(when.at))?;
    let met = server_ticks(when.addresses, server, senders, log, when.at, when.word)?;
    finish_server(when.addresses, server, when.at, met, log)?;
    Ok(())
}

fn on_server_stranger<S: Store<A>, A: Allocator + Copy>(
    server: &mut ServerEnd<S, A>,
    senders: &Senders<A>,
    log: &mut Record<A>,
    when: When,
    from: Endpoint,
    bytes: &[u8],
) -> Result<(), AllocError>
    ensures { OnOk result ((past : List Turn) → MayCome when.addresses past when.at.0 (StrangerToServer from bytes.now)
        → ServerTurned when.addresses S.content (sender_in senders.now) past
        (record { at = when.at.0; word = when.word; what = StrangerToServer from bytes.now })
        server.old log.old server.new log.new) }
{
    let met = feed_server(server, when.at, when.word, from, bytes);
    log.note(Kind::Begins(when.at))?;
    tell_fed(when.addresses, server, senders, met, log)?;
    finish_server(when.addresses, server, when.at, met, log)?;
    Ok(())
}

// The ticks of one of the ends.
fn on_tick<S: Store<A>, A: Allocator + Copy>(
    client: &mut ClientEnd<A>,
    server: &mut ServerEnd<S, A>,
    log: &mut Record<A>,
    when: When,
    side: Side,
) -> Result<(), AllocError>
    ensures { OnOk result ((past : List Turn)
        → Turned when.addresses ClientLed (ServerLed S.content) past
        (record { at = when.at.0; word = when.word; what = ticks_of side })
        client.old server.old log.old client.new server.new log.new) }
{
    match side {
        Side::Client => on_client_tick(client, log, when),
        Side::Server => on_server_tick(server, &client.senders, log, when),
    }
}

// A stranger's datagram comes to one of the ends, if it isn't from an end's address.
fn on_stranger<S: Store<A>, A: Allocator + Copy>(
    client: &mut ClientEnd<A>,
    server: &mut ServerEnd<S, A>,
    log: &mut Record<A>,
    when: When,
    side: Side,
    from: Endpoint,
    bytes: &[u8],
) -> Result<(), Stop>
    ensures ok { OnOk result ((past : List Turn)
        → Turned when.addresses ClientLed (ServerLed S.content) past
        (record { at = when.at.0; word = when.word; what = stranger_to side from bytes.now })
        client.old server.old log.old client.new server.new log.new) }
    ensures wrong { result ≡ Err Stop.NotLegal → (past : List Turn)
        → MayCome when.addresses past when.at.0 (stranger_to side from bytes.now) → ⊥ }
{
    if is_end(from, when.addresses.client) {
        return Err(Stop::NotLegal);
    }
    if is_end(from, when.addresses.server) {
        return Err(Stop::NotLegal);
    }
    match side {
        Side::Client => on_client_stranger(client, log, when, from, bytes)?,
        Side::Server => on_server_stranger(server, &client.senders, log, when, from, bytes)?,
    }
    Ok(())
}

/// What an event makes of the two ends.
pub(crate) fn turn<S: Store<A>, A: Allocator + Copy>(
    addresses: Addresses,
    client: &mut ClientEnd<A>,
    server: &mut ServerEnd<S, A>,
    log: &mut Record<A>,
    at: Moment,
    word: u64,
    what: &What<A>,
) -> Result<(), Stop>
    ensures ok { OnOk result ((past : List Turn) → log.old.given ≡ given_of addresses past
        → Turned addresses ClientLed (ServerLed S.content) past
        (record { at = at.0; word = word; what = what_of what.now })
        client.old server.old log.old client.new server.new log.new) }
    ensures small { (at.0 < 2 ^ 64) × (word < 2 ^ 64) }
    ensures wrong { result ≡ Err Stop.NotLegal → (past : List Turn) → log.old.given ≡ given_of addresses past
        → MayCome addresses past at.0 (what_of what.now) → ⊥ }
{
    let when = When {
        at,
        word,
        addresses,
    };
    match what {
        What::Call(request) => on_call(client, log, when, request)?,
        What::Observe(path) => on_observe(client, log, when, path)?,
        What::Cancel(id) => on_cancel(client, log, when, *id)?,
        What::Forget(id) => on_forget(client, log, when, *id)?,
        What::Set(path, format, body) => on_set(server, log, when, path, *format, body.as_slice())?,
        What::Remove(path) => on_remove(server, log, when, path)?,
        What::Tick(side) => on_tick(client, server, log, when, *side)?,
        What::Deliver(number) => deliver(addresses, client, server, log, at, word, *number)?,
        What::Stranger(side, from, bytes) => {
            on_stranger(client, server, log, when, *side, *from, bytes.as_slice())?
        }
    }
    Ok(())
}
