//! A run as a chart, for reading: the line of the client on the left, that of the server on the right, and a row for
//! each thing that happens, in the order of the run.
//!  A datagram has a row where it is given out, and one where it arrives; they go together by its number. What goes to
//! an end from elsewhere, or from one to elsewhere, crosses the end's line. Behind what is reported stands its age.
mod age;
mod happening;
mod sheet;
mod traffic;
mod traffic_words;

ghost use Rattle.std.specs.Prelude.{◌≡◌};
ghost use Rattle.coap_scripts.specs.Charts.{form_of};
ghost use Rattle.coap_scripts.specs.Lines.{side_beside};
ghost use Rattle.coap_scripts.specs.Traffic.{last_moment, side_of};

use crate::chart::age::Turns;
use crate::chart::happening::Happening;
use crate::chart::sheet::{Form, Sheet};
use crate::chart::traffic::{Arrival, Traffic};
use crate::chart::traffic_words::{ArrivedWords, SentWords, StrangerWords};
use crate::run_lines::is_begin;
use coap_print::Ink;
use coap_run::{Addresses, Event, Given, Kind, Line, Record, Side, What};
use coap_types::{Endpoint, Moment};
use std::alloc::Allocator;
use std::io;
use std::io::Write;

/// Draws what came of a run between ends at these addresses: what is called, set and removed, which requests are
/// applied, what is refused and reported, and each datagram, where it is given out and where it arrives. In colour the
/// rows of datagrams are cyan where these go, and green where they come.
pub fn draw_run<A: Allocator + Copy, W: Write>(
    alloc: A,
    addresses: Addresses,
    ink: Ink,
    events: &[Event<A>],
    record: &Record<A>,
    out: &mut W,
) -> io::Result<()> {
    let sheet = Sheet::new(alloc, ink, last_moment(events))?;
    out.write_all(sheet.head()?.as_bytes())?;
    let traffic = Traffic {
        addresses,
        events,
        given: record.given(),
    };
    let mut past: usize = 0;
    let mut number: usize = 0;
    let turns = record.lines().split(|line| is_begin(line));
    for (event, lines) in events.iter().zip(turns.skip(1)) {
        draw_input(&sheet, &traffic, past, event, out)?;
        past = past.saturating_add(1);
        let turns = Turns {
            made: past,
            events,
            lines: record.lines(),
        };
        number = draw_outcome(&sheet, &traffic, &turns, event, lines, number, out)?;
    }
    Ok(())
}

// The moment of the last event.
fn last_moment<A: Allocator + Copy>(events: &[Event<A>]) -> Moment
    ensures { result.0 ≡ last_moment events.now }
{
    match events.get(events.len().saturating_sub(1)) {
        Some(event) => event.at,
        None => Moment(0),
    }
}

// What an event brings to an end from the network: a datagram of the other one, or a stranger's.
fn draw_input<A: Allocator + Copy, W: Write>(
    sheet: &Sheet<A>,
    traffic: &Traffic<'_, A>,
    past: usize,
    event: &Event<A>,
    out: &mut W,
) -> io::Result<()> {
    match &event.what {
        What::Deliver(number) => match traffic.given.get(*number) {
            Some(given) => draw_arrival(sheet, traffic, past, event.at, *number, given, out),
            None => Ok(()),
        },
        What::Stranger(side, from, bytes) => {
            draw_stranger(sheet, event.at, *side, *from, bytes.as_slice(), out)
        }
        _ => Ok(()),
    }
}

// A datagram that arrives at the end that it is addressed to.
fn draw_arrival<A: Allocator + Copy, W: Write>(
    sheet: &Sheet<A>,
    traffic: &Traffic<'_, A>,
    past: usize,
    at: Moment,
    number: usize,
    given: &Given<A>,
    out: &mut W,
) -> io::Result<()> {
    let Some(side) = traffic.side_at(given.to()) else {
        return Ok(());
    };
    let words = ArrivedWords {
        number,
        arrival: traffic.arrival(past, number, given),
        ms: at.since(given.at()),
    };
    let row = sheet.row(at, side, Form::Arrives, &words)?;
    out.write_all(row.as_bytes())
}

// A stranger's datagram that comes to an end.
fn draw_stranger<A: Allocator + Copy, W: Write>(
    sheet: &Sheet<A>,
    at: Moment,
    side: Side,
    from: Endpoint,
    bytes: &[u8],
    out: &mut W,
) -> io::Result<()> {
    let words = StrangerWords { from, bytes };
    let row = sheet.row(at, side, Form::FromElsewhere, &words)?;
    out.write_all(row.as_bytes())
}

// What came of an event, whose first datagram has this number; the number of the next one.
fn draw_outcome<A: Allocator + Copy, W: Write>(
    sheet: &Sheet<A>,
    traffic: &Traffic<'_, A>,
    turns: &Turns<'_, A>,
    event: &Event<A>,
    lines: &[Line<A>],
    first: usize,
    out: &mut W,
) -> io::Result<usize> {
    let mut number = first;
    for line in lines {
        match &line.kind {
            Kind::Out => {
                draw_sent(sheet, traffic, event.at, number, out)?;
                number = number.saturating_add(1);
            }
            kind => draw_happening(sheet, traffic, turns, event, kind, out)?,
        }
    }
    Ok(number)
}

// A datagram that an end gives out: to the other one, or elsewhere.
fn draw_sent<A: Allocator + Copy, W: Write>(
    sheet: &Sheet<A>,
    traffic: &Traffic<'_, A>,
    at: Moment,
    number: usize,
    out: &mut W,
) -> io::Result<()> {
    let Some(given) = traffic.given.get(number) else {
        return Ok(());
    };
    let Some(side) = traffic.side_at(given.from()) else {
        return Ok(());
    };
    let elsewhere = traffic.side_at(given.to()).is_none();
    let form = form_of(elsewhere, traffic.is_lost(number));
    let words = SentWords {
        number,
        first: traffic.first_alike(number, given),
        to: if elsewhere { Some(given.to()) } else { None },
        bytes: given.bytes(),
    };
    let row = sheet.row(at, side, form, &words)?;
    out.write_all(row.as_bytes())
}

// How a datagram is drawn that an end gives out: for elsewhere, or for the other end, where it may be lost.
fn form_of(elsewhere: bool, lost: bool) -> Form
    ensures { result ≡ form_of elsewhere lost }
{
    match (elsewhere, lost) {
        (true, _) => Form::ToElsewhere,
        (false, true) => Form::Lost,
        (false, false) => Form::Sent,
    }
}

// The end beside whose line it is drawn, where it has a row.
fn side_beside<A: Allocator + Copy>(
    traffic: &Traffic<'_, A>,
    what: &What<A>,
    kind: &Kind<A>,
) -> Option<Side>
    ensures { result ≡ side_beside (side_of traffic.now.addresses traffic.now.given.now what.now) kind.now }
{
    match kind {
        Kind::Takes(_) | Kind::Cancels(_) | Kind::Forgets(_) | Kind::Reports(_, _) => {
            Some(Side::Client)
        }
        Kind::Puts(_) | Kind::Removes(_) | Kind::Applies(_) => Some(Side::Server),
        Kind::Refused => Some(traffic.side_of(what)),
        Kind::Begins(_) | Kind::Changes(_) | Kind::Out => None,
    }
}

// What happens at an end, where it has a row.
fn draw_happening<A: Allocator + Copy, W: Write>(
    sheet: &Sheet<A>,
    traffic: &Traffic<'_, A>,
    turns: &Turns<'_, A>,
    event: &Event<A>,
    kind: &Kind<A>,
    out: &mut W,
) -> io::Result<()> {
    let Some(side) = side_beside(traffic, &event.what, kind) else {
        return Ok(());
    };
    let happening = Happening {
        what: &event.what,
        kind,
        age: turns.age(kind, event.at),
    };
    let row = sheet.row(event.at, side, Form::Note, &happening)?;
    out.write_all(row.as_bytes())
}
