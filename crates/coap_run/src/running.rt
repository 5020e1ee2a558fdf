//! A run: a list of events goes in, and what both ends do comes out.
mod begin;
mod config;
mod copies;
mod deliver;
mod drain;
mod ends;
mod event;
mod inputs;
mod met;
mod put_away;
mod ranges;
mod record;
mod senders;
mod step;
mod stop;
mod ticks;
mod turn;

ghost use Rattle.std.specs.Prelude.{◌≡◌, ℕ, [], Err, IfOk, List, OnOk, map, reverse};
ghost use Rattle.coap_record.specs.Events.{Config};
ghost use Rattle.coap_record.specs.Record.{Turn};
ghost use Rattle.coap_run.specs.Run.Ends.{ClientLed, ServerLed};
ghost use Rattle.coap_run.specs.Run.Happening.{event_of};
ghost use Rattle.coap_run.specs.Run.Runs.{IsRunOf, IsFirstWrong};
ghost use Rattle.coap_run.specs.Run.Turning.{Stands};
ghost use Rattle.coap_run.specs.RefusalNumbers.{run_refusal_number};

use crate::running::begin::{client_of, server_of};
use crate::running::ends::{ClientEnd, ServerEnd};
use crate::running::put_away::put_away;
use crate::running::step::step;
use crate::running::stop::Stop;
use coap_record::Addresses;
use coap_resource::{MapStore, Store};
use coap_types::Moment;
pub use config::WorldConfig;
pub use event::{Event, Side, What};
pub use record::{AppliedRequest, Change, Given, Kind, Line, Record};
use std::alloc::Allocator;

/// Why there is no record of a run.
#[derive(Clone, Copy, Debug, PartialEq, Eq)]
pub enum RunRefusal {
    /// 1: the event of this number, from 0, is not legal.
    NotLegal(usize),
    /// 2: an allocation was refused to a list of the run itself, or to a copy that it hands in.
    Memory,
}

impl RunRefusal {
    /// The number of the refusal, 1 or 2, in the order of the variants.
    pub fn number(self) -> u8
        // The number of a run's refusal is its place among the two.
        ensures { result ≡ run_refusal_number self }
    {
        match self {
            RunRefusal::NotLegal(_) => 1,
            RunRefusal::Memory => 2,
        }
    }
}

// Runs the events over two ends, and notes what they do.
fn run_over<S: Store<A>, A: Allocator + Copy>(
    addresses: Addresses,
    events: &[Event<A>],
    client: &mut ClientEnd<A>,
    server: &mut ServerEnd<S, A>,
    log: &mut Record<A>,
) -> Result<(), RunRefusal>
    ensures record { OnOk result ((config : Config)
        → config.addresses ≡ addresses → Stands ClientLed (ServerLed S.content) config [] [] client.old server.old
        log.old 0
        → (turns : List Turn) × (last : ℕ)
        × Stands ClientLed (ServerLed S.content) config
        (reverse (map event_of events.now)) turns client.new server.new log.new last) }
    ensures wrong { (number : ℕ) → result ≡ Err (RunRefusal.NotLegal number) → (config : Config)
        → config.addresses ≡ addresses → Stands ClientLed (ServerLed S.content) config [] [] client.old server.old
        log.old 0
        → IsFirstWrong config (map event_of events.now) number }
{
    let mut last = Moment(0);
    let mut number = 0;
    'events: while number < events.len() {
        match step(addresses, client, server, log, &mut last, &events[number]) {
            Ok(()) => {}
            Err(Stop::NotLegal) => return Err(RunRefusal::NotLegal(number)),
            Err(Stop::Memory) => return Err(RunRefusal::Memory),
        }
        number += 1;
    }
    Ok(())
}

/// Runs the events over a client and a server, which holds what it holds in such a store.
pub fn run_with<S: Store<A>, A: Allocator + Copy>(
    events: &[Event<A>],
    config: &WorldConfig<A>,
) -> Result<Record<A>, RunRefusal>
    // It is what the record of these events shows, each of which is legal, and memory is lacking there only where an
    // input may take some.
    ensures record { IfOk result (λ shown. IsRunOf config.now (map event_of events.now) shown) }
    // The event is the first that is not legal, in the record of those before it.
    ensures wrong { (number : ℕ) → result ≡ Err (RunRefusal.NotLegal number)
        → IsFirstWrong config.now (map event_of events.now) number }
{
    let mut server: ServerEnd<S, A> = match server_of(config) {
        Ok(server) => server,
        Err(_) => return Err(RunRefusal::Memory),
    };
    let mut client = client_of(config);
    let mut log = Record::new(config.alloc);
    let done = run_over(config.addresses, events, &mut client, &mut server, &mut log);
    put_away(client);
    put_away(server);
    match done {
        Ok(()) => Ok(log),
        Err(why) => {
            put_away(log);
            Err(why)
        }
    }
}

/// Runs the events over a client and a server, which holds what it holds in the default store.
pub fn run<A: Allocator + Copy>(
    events: &[Event<A>],
    config: &WorldConfig<A>,
) -> Result<Record<A>, RunRefusal>
    // What `run` answers is what the record of these events shows: each is legal, and one that takes no memory is not
    // refused it.
    ensures record { IfOk result (λ shown. IsRunOf config.now (map event_of events.now) shown) }
    // The event that `run` names is the first that is not legal, in the record of those before it.
    ensures wrong { (number : ℕ) → result ≡ Err (RunRefusal.NotLegal number)
        → IsFirstWrong config.now (map event_of events.now) number }
{
    run_with::<MapStore<A>, A>(events, config)
}
