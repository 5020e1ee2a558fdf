//! What an end gives after the call of an event.
ghost use Rattle.std.specs.Prelude.{ℕ, List, OnOk, Option, is_err};
ghost use Rattle.coap_client.specs.Trace as asked;
ghost use Rattle.coap_server.specs.Trace as served;
ghost use Rattle.coap_record.specs.Record.{OfClient, OfServer};
ghost use Rattle.coap_run.specs.Run.Acts.{TakesAll};
ghost use Rattle.coap_run.specs.Run.Ends.{ClientLed, ServerLed};
ghost use Rattle.coap_run.specs.Run.Log.{server_lines};
ghost use Rattle.coap_record.specs.declared.addresses.Addresses as places;
ghost use Rattle.coap_run.specs.Run.Turning.{ClientEnds, ServerEnds, of_client};

use crate::running::ends::{ClientEnd, ServerEnd};
use crate::running::met::Met;
use crate::running::record::Record;
use coap_record::Addresses;
use coap_resource::Store;
use coap_types::Moment;
use std::alloc::{AllocError, Allocator};

// Takes all that the client has out.
fn client_outs<A: Allocator + Copy>(
    addresses: Addresses,
    end: &mut ClientEnd<A>,
    at: Moment,
    log: &mut Record<A>,
) -> Result<(), AllocError>
    ensures { OnOk result (TakesAll addresses ClientLed OfClient of_client at.0 asked.NextOut end.old log.old end.new
        log.new) }
{
    'outs: while let Some(datagram) = end.client.next_out() {
        log.give(at, addresses.client, datagram)?;
    }
    Ok(())
}

// Takes all its reports.
fn client_reports<A: Allocator + Copy>(
    end: &mut ClientEnd<A>,
    at: Moment,
    log: &mut Record<A>,
) -> Result<(), AllocError>
    ensures { OnOk result ((addresses : places.Addresses)
        → TakesAll addresses ClientLed OfClient of_client at.0 asked.NextReport end.old log.old end.new log.new) }
{
    'reports: while let Some(told) = end.client.next_report() {
        log.report(told)?;
    }
    Ok(())
}

// Takes all that the server has out.
fn server_outs<S: Store<A>, A: Allocator + Copy>(
    addresses: Addresses,
    end: &mut ServerEnd<S, A>,
    at: Moment,
    log: &mut Record<A>,
) -> Result<(), AllocError>
    ensures { OnOk result ((sender : List ℕ → Option ℕ)
        → TakesAll addresses (ServerLed S.content) OfServer (server_lines addresses sender) at.0 served.NextOut end.old
        log.old end.new
        log.new) }
{
    'outs: while let Some(datagram) = end.server.next_out() {
        log.give(at, addresses.server, datagram)?;
    }
    Ok(())
}

/// Ends the turn of the client: takes all that it has out, and its reports.
pub(crate) fn finish_client<A: Allocator + Copy>(
    addresses: Addresses,
    end: &mut ClientEnd<A>,
    at: Moment,
    met: Met,
    log: &mut Record<A>,
) -> Result<(), AllocError>
    ensures { OnOk result (ClientEnds addresses ClientLed at.0 (is_err met) end.old log.old end.new log.new) }
{
    client_outs(addresses, end, at, log)?;
    client_reports(end, at, log)?;
    log.end(met)?;
    Ok(())
}

/// Ends the turn of the server.
pub(crate) fn finish_server<S: Store<A>, A: Allocator + Copy>(
    addresses: Addresses,
    end: &mut ServerEnd<S, A>,
    at: Moment,
    met: Met,
    log: &mut Record<A>,
) -> Result<(), AllocError>
    ensures { OnOk result ((sender : List ℕ → Option ℕ)
        → ServerEnds addresses (ServerLed S.content) (server_lines addresses sender) at.0 (is_err met) end.old log.old
        end.new log.new) }
{
    server_outs(addresses, end, at, log)?;
    log.end(met)?;
    Ok(())
}
