//! The ticks of an event.
ghost use Rattle.std.specs.Prelude.{◌≡◌, true, IfOk, is_err};
ghost use Rattle.coap_client.specs.Turns.Quiet.{IsIdle};
ghost use Rattle.coap_server.specs.Object.Shown.{state_of};
ghost use Rattle.coap_server.specs.Turns.Idle.{IsIdle as IsServerIdle};
ghost use Rattle.coap_record.specs.Record.{ClientTick, OfServer, ServerTick};
ghost use Rattle.coap_run.specs.Run.Acts.{Passed, Ticked};
ghost use Rattle.coap_run.specs.Run.Ends.{ClientLed, ServerLed};
ghost use Rattle.coap_run.specs.Run.Log.{server_lines};
ghost use Rattle.coap_run.specs.Run.Senders.{sender_in};

use crate::running::ends::{ClientEnd, ServerEnd};
use crate::running::met::Met;
use crate::running::record::Record;
use crate::running::senders::Senders;
use coap_record::Addresses;
use coap_resource::Store;
use coap_types::Moment;
use std::alloc::{AllocError, Allocator};

/// The ticks of a moment, up to the first that does nothing or meets want of memory; what the last
/// one met.
pub(crate) fn client_ticks<A: Allocator + Copy>(
    end: &mut ClientEnd<A>,
    at: Moment,
    word: u64,
) -> Result<Met, AllocError>
    ensures passed { IfOk result (λ met. Passed ClientLed (ClientTick at.0 word) (is_err met) end.old end.new) }
    ensures idle { IfOk result (λ met. is_err met ≡ true → IsIdle end.new.client at.0 → ⊥) }
{
    'ticks: loop {
        match end.client.tick(at, word) {
            Ok(did) => {
                end.note_asked()?;
                if !did {
                    return Ok(Ok(()));
                }
            }
            Err(why) => return Ok(Err(why)),
        }
    }
}

/// The ticks of the server, of which each tells the request that it applied.
pub(crate) fn server_ticks<S: Store<A>, A: Allocator + Copy>(
    addresses: Addresses,
    end: &mut ServerEnd<S, A>,
    senders: &Senders<A>,
    log: &mut Record<A>,
    at: Moment,
    word: u64,
) -> Result<Met, AllocError>
    ensures ticked { IfOk result (λ met. Ticked addresses (ServerLed S.content) OfServer
        (server_lines addresses (sender_in senders.now)) at.0 (ServerTick at.0 word) (is_err met) end.old log.old
        end.new log.new) }
    ensures idle { IfOk result (λ met. is_err met ≡ true → IsServerIdle (state_of S.content end.new.server) at.0 → ⊥) }
{
    'ticks: loop {
        match end.server.tick(at, word) {
            Ok(did) => {
                end.tell(addresses, senders, log)?;
                if !did {
                    return Ok(Ok(()));
                }
            }
            Err(why) => return Ok(Err(why)),
        }
    }
}
