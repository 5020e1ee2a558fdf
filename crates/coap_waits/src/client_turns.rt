//! The turns of a client, each at the moment that its clock tells.
ghost use Rattle.std.specs.Prelude.{◌≡◌, Ok, IfOk, OnOk};
ghost use Rattle.coap_waits.specs.Asks.{AsksNothing, Turned, TurnsAt};
ghost use Rattle.coap_wires.specs.Bearing.{borne_by};
ghost use Rattle.coap_waits.specs.Linked.{HasTurn};

use crate::connection::Connection;
use coap_ends::Client;
use coap_links::{Link, Tally, get_turn};
use coap_status::Stop;
use coap_types::Moment;
use coap_wires::{Counting, Timekeeper, bear};
use std::alloc::Global;
use std::hash::BuildHasher;
use std::io::Write;

/// A turn of a client at the moment that its clock tells, which it answers. There is none where more failed before than
/// the program bears.
pub fn turn_now<H: BuildHasher, L: Link, T: Timekeeper, E: Write>(
    client: &mut Client<Global, H>,
    connection: &mut Connection<'_, '_, '_, L, T, E>,
    counting: Counting,
    tally: &mut Tally,
) -> Result<Moment, Stop>
    // A turn of a client is at the moment that its clock tells.
    ensures told { IfOk result (λ now. T.tells connection.old.time.now now.0 connection.new.time.now) }
    // In a turn a client is fed what came over its link, and sends over it.
    ensures over { IfOk result (λ now. HasTurn L.sends L.receives L.fault_count client.old connection.old.link.now now.0
        tally.old client.new connection.new.link.now tally.new) }
    // All that a client is handed in a turn it is handed at that moment.
    ensures turned { IfOk result (λ now. Turned (TurnsAt now.0) client.old client.new) }
    // In a turn a client is asked for nothing.
    ensures asks { IfOk result (λ _. Turned AsksNothing client.old client.new) }
    // A client has a turn only where the program bears what failed before.
    ensures borne { OnOk result (borne_by counting (L.fault_count connection.old.link.now)
        (L.broken_count connection.old.link.now) tally.old ≡ Ok tt) }
{
    bear(connection.link, tally, counting)?;
    let now = connection.time.now()?;
    get_turn(client, connection.link, now, tally);
    Ok(now)
}
