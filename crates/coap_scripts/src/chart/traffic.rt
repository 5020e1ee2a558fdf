//! What becomes of the datagrams of a run.
ghost use Rattle.std.specs.Prelude.{◌≡◌, option_copied, take};
ghost use Rattle.coap_scripts.specs.Charts.{side_at};
ghost use Rattle.coap_scripts.specs.Traffic.{arrival, delivers, delivers_later, first_alike, is_alike, is_delivered};
ghost use Rattle.coap_scripts.specs.Traffic.{is_lost, is_overtaken, side_of, side_to};

use coap_run::{Addresses, Event, Given, Side, What};
use coap_types::Endpoint;
use std::alloc::Allocator;

/// How a datagram arrives.
#[derive(Clone, Copy, PartialEq, Eq)]
pub(super) enum Arrival {
    /// For the first time, and before each that its end gave out later.
    InOrder,
    /// For the first time, and behind one that its end gave out later.
    Late,
    /// Not for the first time.
    Again,
}

/// Where the ends of a run stand, its events, and the datagrams that were given out in it.
#[derive(Clone, Copy)]
pub(super) struct Traffic<'a, A: Allocator + Copy> {
    pub(super) addresses: Addresses,
    pub(super) events: &'a [Event<A>],
    pub(super) given: &'a [Given<A>],
}

impl<'a, A: Allocator + Copy> Traffic<'a, A> {
    /// Whether the datagram of this number never arrives.
    pub(super) fn is_lost(&self, number: usize) -> bool
        ensures { result ≡ is_lost self.now.events.now number }
    {
        !is_delivered(self.events, number)
    }

    /// The number of the first datagram between the same endpoints that has the same bytes, where that is another one.
    pub(super) fn first_alike(&self, number: usize, given: &Given<A>) -> Option<usize>
        ensures { result ≡ first_alike self.now.given.now number given.now }
    {
        self.given
            .iter()
            .take(number)
            .position(|earlier| is_alike(earlier, given))
    }

    /// How the datagram of this number arrives that is delivered behind so many events.
    pub(super) fn arrival(&self, past: usize, number: usize, given: &Given<A>) -> Arrival
        ensures { result ≡ arrival self.now.events.now self.now.given.now past number given.now }
    {
        let from = given.from();
        let events = first_events(self.events, past);
        if is_delivered(events, number) {
            Arrival::Again
        } else if is_overtaken(events, self.given, number, from) {
            Arrival::Late
        } else {
            Arrival::InOrder
        }
    }

    /// The end that has this address.
    pub(super) fn side_at(&self, endpoint: Endpoint) -> Option<Side>
        ensures { result ≡ side_at self.now.addresses endpoint }
    {
        if endpoint == self.addresses.client {
            Some(Side::Client)
        } else if endpoint == self.addresses.server {
            Some(Side::Server)
        } else {
            None
        }
    }

    /// The end at which an event happens.
    pub(super) fn side_of(&self, what: &What<A>) -> Side
        ensures { result ≡ side_of self.now.addresses self.now.given.now what.now }
    {
        match what {
            What::Call(_) | What::Observe(_) | What::Cancel(_) | What::Forget(_) => Side::Client,
            What::Set(_, _, _) | What::Remove(_) => Side::Server,
            What::Tick(side) | What::Stranger(side, _, _) => *side,
            What::Deliver(number) => self.side_to(self.given.get(*number)),
        }
    }

    // The end to which a datagram goes; the server where there is none.
    fn side_to(&self, given: Option<&Given<A>>) -> Side
        ensures { result ≡ side_to self.now.addresses (option_copied given.entry) }
    {
        match given {
            Some(given) => self.side_at(given.to()).unwrap_or(Side::Server),
            None => Side::Server,
        }
    }
}

// The first of these events, so many.
fn first_events<A: Allocator + Copy>(events: &[Event<A>], many: usize) -> &[Event<A>]
    ensures { result.now ≡ take many events.now }
{
    events.get(..many).unwrap_or(events)
}

// Whether one of these events delivers the datagram of this number.
fn is_delivered<A: Allocator + Copy>(events: &[Event<A>], number: usize) -> bool
    ensures { result ≡ is_delivered events.now number }
{
    events.iter().any(|event| delivers(event, number))
}

// Whether one of these events delivers a datagram that this end gave out behind that of this number.
fn is_overtaken<A: Allocator + Copy>(
    events: &[Event<A>],
    all: &[Given<A>],
    number: usize,
    from: Endpoint,
) -> bool
    ensures { result ≡ is_overtaken events.now all.now number from }
{
    events
        .iter()
        .any(|event| delivers_later(event, all, number, from))
}

// Whether the event delivers a datagram that this end gave out behind that of this number.
fn delivers_later<A: Allocator + Copy>(
    event: &Event<A>,
    all: &[Given<A>],
    number: usize,
    from: Endpoint,
) -> bool
    ensures { result ≡ delivers_later all.now number from event.now.what }
{
    match event.what {
        What::Deliver(later) => {
            later > number && all.get(later).is_some_and(|given| given.from() == from)
        }
        _ => false,
    }
}

// Whether the event delivers the datagram of this number.
fn delivers<A: Allocator + Copy>(event: &Event<A>, number: usize) -> bool
    ensures { result ≡ delivers number event.now.what }
{
    match event.what {
        What::Deliver(delivered) => delivered == number,
        _ => false,
    }
}

// Whether two datagrams have the same bytes, and go between the same endpoints.
fn is_alike<A: Allocator + Copy>(one: &Given<A>, other: &Given<A>) -> bool
    ensures { result ≡ is_alike one.now other.now }
{
    one.from() == other.from() && one.to() == other.to() && one.bytes() == other.bytes()
}
