//! What came of a run, with all that is drawn of it.
use coap_print::{DatagramWords, EndpointWords, PathWords, code_name, hex_or_dash};
use coap_resource::Representation;
use coap_run::{
    AppliedRequest, CLIENT_END, Change, Event, Given, Kind, Line, Record, SERVER_END, Side, What,
};
use coap_scripts::report_text;
use coap_types::Path;
use std::alloc::Allocator;
use std::io;
use std::io::Write;

/// Tells what came of each event of a run, a line each, in the order of the run: that the event begins, what a
/// stranger's datagram says, what is answered, applied, changed and reported, and each datagram, in bytes and in
/// words.
pub fn play_run<A: Allocator + Copy, W: Write>(
    alloc: A,
    events: &[Event<A>],
    record: &Record<A>,
    out: &mut W,
) -> io::Result<()> {
    let mut number: usize = 0;
    let mut index: usize = 0;
    let turns = record
        .lines()
        .split(|line| matches!(line.kind, Kind::Begins(_)));
    for (event, lines) in events.iter().zip(turns.skip(1)) {
        let at = event.at.0;
        writeln!(out, "at {index} {at}")?;
        tell_stranger(&event.what, out)?;
        number = tell_lines(alloc, lines, record, number, out)?;
        index = index.saturating_add(1);
    }
    Ok(())
}

// What a stranger's datagram says, and where it comes from.
fn tell_stranger<A: Allocator + Copy, W: Write>(what: &What<A>, out: &mut W) -> io::Result<()> {
    match what {
        What::Stranger(side, from, bytes) => {
            let end = end_name(*side);
            let from = EndpointWords(*from);
            let words = DatagramWords(bytes.as_slice());
            writeln!(out, "stranger {end} {from} {words}")
        }
        _ => Ok(()),
    }
}

// What an end is called.
fn end_name(side: Side) -> &'static str {
    match side {
        Side::Client => "client",
        Side::Server => "server",
    }
}

// The lines of an event, whose first datagram has this number; the number of the next one.
fn tell_lines<A: Allocator + Copy, W: Write>(
    alloc: A,
    lines: &[Line<A>],
    record: &Record<A>,
    first: usize,
    out: &mut W,
) -> io::Result<usize> {
    let mut number = first;
    for line in lines {
        match &line.kind {
            Kind::Out => {
                tell_out(alloc, record, number, out)?;
                number = number.saturating_add(1);
            }
            kind => tell(alloc, kind, out)?,
        }
    }
    Ok(number)
}

// What happened at an end, but for what it gives out.
fn tell<A: Allocator + Copy, W: Write>(alloc: A, kind: &Kind<A>, out: &mut W) -> io::Result<()> {
    match kind {
        Kind::Takes(Ok(id)) => {
            let number = id.0;
            writeln!(out, "takes {number}")
        }
        Kind::Takes(Err(refusal)) => tell_refusal(refusal.number(), out),
        Kind::Cancels(Ok(())) => writeln!(out, "cancels"),
        Kind::Cancels(Err(refusal)) => tell_refusal(refusal.number(), out),
        Kind::Forgets(is_known) => {
            let known = *is_known as u8;
            writeln!(out, "forgets {known}")
        }
        Kind::Puts(Ok(version)) => writeln!(out, "puts {version}"),
        Kind::Puts(Err(refusal)) => tell_refusal(refusal.number(), out),
        Kind::Removes(Ok(was_there)) => {
            let there = *was_there as u8;
            writeln!(out, "removes {there}")
        }
        Kind::Removes(Err(refusal)) => tell_refusal(refusal.number(), out),
        Kind::Applies(request) => tell_applied(request, out),
        Kind::Changes(change) => tell_change(alloc, change, out),
        Kind::Reports(id, report) => {
            let number = id.0;
            let text = report_text(alloc, report)?;
            writeln!(out, "report {number} {text}")
        }
        Kind::Refused => writeln!(out, "memory"),
        Kind::Begins(_) | Kind::Out => Ok(()),
    }
}

// The number of a refusal.
fn tell_refusal<W: Write>(number: u8, out: &mut W) -> io::Result<()> {
    writeln!(out, "refused {number}")
}

// A request that is applied: the call, or where it came from, what it asks for, and the version that it made.
fn tell_applied<A: Allocator + Copy, W: Write>(
    request: &AppliedRequest<A>,
    out: &mut W,
) -> io::Result<()> {
    let method = code_name(request.method.code()).unwrap_or("");
    let path = PathWords(&request.path);
    let version = request.version;
    match request.call {
        Some(call) => {
            let number = call.0;
            writeln!(out, "applied {number} {method} {path} {version}")
        }
        None => {
            let from = EndpointWords(request.from);
            writeln!(out, "applied {from} {method} {path} {version}")
        }
    }
}

// A change: the path, its version, and what it holds since.
fn tell_change<A: Allocator + Copy, W: Write>(
    alloc: A,
    change: &Change<A>,
    out: &mut W,
) -> io::Result<()> {
    match &change.held {
        Some(held) => tell_held(alloc, &change.path, change.version, held, out),
        None => {
            let version = change.version;
            let path = PathWords(&change.path);
            writeln!(out, "gone {version} {path}")
        }
    }
}

// What a path holds: the version, the path, and the body.
fn tell_held<A: Allocator + Copy, W: Write>(
    alloc: A,
    path: &Path<A>,
    version: u64,
    held: &Representation<A>,
    out: &mut W,
) -> io::Result<()> {
    let path = PathWords(path);
    let body = hex_or_dash(alloc, held.body.as_slice())?;
    writeln!(out, "holds {version} {path} {body}")
}

// A datagram: its number, who gave it out, whether it is for the other end, the first one of the same bytes, its
// bytes, and what it says.
fn tell_out<A: Allocator + Copy, W: Write>(
    alloc: A,
    record: &Record<A>,
    number: usize,
    out: &mut W,
) -> io::Result<()> {
    let Some(given) = record.get(number) else {
        return Ok(());
    };
    let end = end_name(side_of(given));
    let to = EndpointWords(given.to());
    let first = first_alike(record.given(), number, given);
    let bytes = hex_or_dash(alloc, given.bytes())?;
    let words = DatagramWords(given.bytes());
    writeln!(out, "out {number} {end} {to} {first} {bytes} {words}")
}

// Which end gave a datagram out.
fn side_of<A: Allocator + Copy>(given: &Given<A>) -> Side {
    if given.from() == CLIENT_END {
        Side::Client
    } else {
        Side::Server
    }
}

// The number of the first datagram between the same endpoints that has the same bytes: its own, where there is no
// other.
fn first_alike<A: Allocator + Copy>(all: &[Given<A>], number: usize, given: &Given<A>) -> usize {
    let first = all.iter().take(number).position(|earlier| {
        earlier.from() == given.from()
            && earlier.to() == given.to()
            && earlier.bytes() == given.bytes()
    });
    first.unwrap_or(number)
}
