//! One event of a run.
ghost use Rattle.std.specs.Prelude.{◌≡◌, Err, List, OnOk, ◌∷◌};
ghost use Rattle.coap_record.specs.Events.{Config, Event};
ghost use Rattle.coap_record.specs.Record.{Turn};
ghost use Rattle.coap_run.specs.Run.Ends.{ClientLed, ServerLed};
ghost use Rattle.coap_run.specs.Run.Happening.{event_of};
ghost use Rattle.coap_record.specs.LegalEvents.{MayHappen};
ghost use Rattle.coap_run.specs.Run.Turning.{Stands};

use crate::running::ends::{ClientEnd, ServerEnd};
use crate::running::event;
use crate::running::ranges::show_ranges;
use crate::running::record::Record;
use crate::running::stop::Stop;
use crate::running::turn::turn;
use coap_record::Addresses;
use coap_resource::Store;
use coap_types::Moment;
use std::alloc::Allocator;

/// One event of a run, where it is legal.
pub(crate) fn step<S: Store<A>, A: Allocator + Copy>(
    addresses: Addresses,
    client: &mut ClientEnd<A>,
    server: &mut ServerEnd<S, A>,
    log: &mut Record<A>,
    last: &mut Moment,
    event: &event::Event<A>,
) -> Result<(), Stop>
    ensures ok { OnOk result ((config : Config) (events : List Event) (turns : List Turn)
        → config.addresses ≡ addresses → Stands ClientLed (ServerLed S.content) config events turns client.old
        server.old log.old last.old.0
        → (turn : Turn) × Stands ClientLed (ServerLed S.content) config (event_of event.now ∷ events) (turn ∷ turns)
        client.new server.new log.new last.new.0) }
    ensures wrong { result ≡ Err Stop.NotLegal → (config : Config) (events : List Event) (turns : List Turn)
        → config.addresses ≡ addresses → Stands ClientLed (ServerLed S.content) config events turns client.old
        server.old log.old last.old.0
        → MayHappen addresses turns (event_of event.now) → ⊥ }
{
    let at = event.at;
    let word = event.word;
    if at.0 < last.0 {
        return Err(Stop::NotLegal);
    }
    show_ranges(&event.what);
    turn(addresses, client, server, log, at, word, &event.what)?;
    *last = at;
    Ok(())
}
