//! A datagram that was given out comes to an end.
ghost use Rattle.std.specs.Prelude.{◌≡◌, true, false, Err, List, OnOk};
ghost use Rattle.coap_record.specs.Events.{Deliver};
ghost use Rattle.coap_record.specs.Legal.{MayCome};
ghost use Rattle.coap_record.specs.Record.{Turn};
ghost use Rattle.coap_run.specs.Run.Ends.{ClientLed, ServerLed};
ghost use Rattle.coap_run.specs.Run.Log.{given_of};
ghost use Rattle.coap_run.specs.Run.Turning.{Turned};

use crate::running::drain::{finish_client, finish_server};
use crate::running::ends::{ClientEnd, ServerEnd};
use crate::running::inputs::{feed_client, feed_server, tell_fed};
use crate::running::record::{Kind, Record};
use crate::running::stop::Stop;
use coap_record::Addresses;
use coap_resource::Store;
use coap_types::transmission::MAX_LATENCY_MS;
use coap_types::{Endpoint, Moment};
use std::alloc::Allocator;

/// Whether the address is that of this end.
pub(crate) fn is_end(address: Endpoint, end: Endpoint) -> bool
    ensures yes { result ≡ true → address ≡ end }
    ensures no { result ≡ false → address ≡ end → ⊥ }
{
    address == end
}

/// The datagram of this number comes to the end that it is addressed to, if it was given out at
/// most `MAX_LATENCY_MS` before.
pub(crate) fn deliver<S: Store<A>, A: Allocator + Copy>(
    addresses: Addresses,
    client: &mut ClientEnd<A>,
    server: &mut ServerEnd<S, A>,
    log: &mut Record<A>,
    at: Moment,
    word: u64,
    number: usize,
) -> Result<(), Stop>
    ensures ok { OnOk result ((past : List Turn) → log.old.given ≡ given_of addresses past
        → Turned addresses ClientLed (ServerLed S.content) past
        (record { at = at.0; word = word; what = Deliver number })
        client.old server.old log.old client.new server.new log.new) }
    ensures wrong { result ≡ Err Stop.NotLegal → (past : List Turn) → log.old.given ≡ given_of addresses past
        → MayCome addresses past at.0 (Deliver number) → ⊥ }
{
    let Some(given) = log.get(number) else {
        return Err(Stop::NotLegal);
    };
    if at.since(given.at()) > MAX_LATENCY_MS {
        return Err(Stop::NotLegal);
    }
    let from = given.from();
    if is_end(given.to(), addresses.server) {
        let met = feed_server(server, at, word, from, given.bytes());
        log.note(Kind::Begins(at))?;
        tell_fed(addresses, server, &client.senders, met, log)?;
        finish_server(addresses, server, at, met, log)?;
        return Ok(());
    }
    if is_end(given.to(), addresses.client) {
        let met = feed_client(client, at, word, from, given.bytes())?;
        log.note(Kind::Begins(at))?;
        finish_client(addresses, client, at, met, log)?;
        return Ok(());
    }
    Err(Stop::NotLegal)
}
