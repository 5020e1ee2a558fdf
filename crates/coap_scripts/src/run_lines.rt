//! What came of a run, a line each.
ghost use Rattle.std.specs.Prelude.{◌≡◌};
ghost use Rattle.coap_scripts.specs.Lines.{is_begin, refused};

use crate::report_lines::report_text;
use coap_print::hex_or_dash;
use coap_run::{Addresses, Event, Given, Kind, Line, Record};
use coap_types::Moment;
use std::alloc::Allocator;
use std::io;
use std::io::Write;

/// Prints what came of each event of a run between ends at these addresses: the datagrams that were given out, the
/// requests that were applied, the reports, a refusal, and want of memory.
pub fn tell_run<A: Allocator + Copy, W: Write>(
    alloc: A,
    addresses: Addresses,
    events: &[Event<A>],
    record: &Record<A>,
    out: &mut W,
) -> io::Result<()> {
    let mut number = 0;
    let turns = record.lines().split(|line| is_begin(line));
    for (event, lines) in events.iter().zip(turns.skip(1)) {
        number = tell_outs(alloc, addresses, event.at, lines, record, number, out)?;
        tell_applied(event.at, lines, out)?;
        tell_reports(alloc, event.at, lines, out)?;
        tell_refusals(event.at, lines, out)?;
    }
    Ok(())
}

/// Whether an event begins.
pub(crate) fn is_begin<A: Allocator + Copy>(line: &Line<A>) -> bool
    ensures { result ≡ is_begin line.now }
{
    matches!(line.kind, Kind::Begins(_))
}

// The datagrams that were given out, of which the first has this number; the number of the next one.
fn tell_outs<A: Allocator + Copy, W: Write>(
    alloc: A,
    addresses: Addresses,
    at: Moment,
    lines: &[Line<A>],
    record: &Record<A>,
    first: usize,
    out: &mut W,
) -> io::Result<usize> {
    let mut number = first;
    for line in lines {
        if let Kind::Out = &line.kind {
            if let Some(given) = record.get(number) {
                tell_out(alloc, addresses, at, number, given, out)?;
            }
            number = number.saturating_add(1);
        }
    }
    Ok(number)
}

// A datagram that was given out.
fn tell_out<A: Allocator + Copy, W: Write>(
    alloc: A,
    addresses: Addresses,
    at: Moment,
    number: usize,
    given: &Given<A>,
    out: &mut W,
) -> io::Result<()> {
    let at = at.0;
    let end = if given.from() == addresses.client {
        "client"
    } else {
        "server"
    };
    let bytes = hex_or_dash(alloc, given.bytes())?;
    writeln!(out, "{at} out {number} {end} {bytes}")?;
    Ok(())
}

// The applied requests that belong to calls.
fn tell_applied<A: Allocator + Copy, W: Write>(
    at: Moment,
    lines: &[Line<A>],
    out: &mut W,
) -> io::Result<()> {
    let at = at.0;
    for line in lines {
        if let Kind::Applies(request) = &line.kind {
            if let Some(call) = request.call {
                let number = call.0;
                writeln!(out, "{at} applied {number}")?;
            }
        }
    }
    Ok(())
}

// The reports.
fn tell_reports<A: Allocator + Copy, W: Write>(
    alloc: A,
    at: Moment,
    lines: &[Line<A>],
    out: &mut W,
) -> io::Result<()> {
    let at = at.0;
    for line in lines {
        if let Kind::Reports(call, report) = &line.kind {
            let number = call.0;
            let text = report_text(alloc, report)?;
            writeln!(out, "{at} report {number} {text}")?;
        }
    }
    Ok(())
}

// The refusal of a call, or want of memory.
fn tell_refusals<A: Allocator + Copy, W: Write>(
    at: Moment,
    lines: &[Line<A>],
    out: &mut W,
) -> io::Result<()> {
    let at = at.0;
    for line in lines {
        if let Some(number) = refused(&line.kind) {
            writeln!(out, "{at} refused {number}")?;
        }
        if let Kind::Refused = &line.kind {
            writeln!(out, "{at} memory")?;
        }
    }
    Ok(())
}

// The number of the refusal that a line tells, where it tells one.
fn refused<A: Allocator + Copy>(kind: &Kind<A>) -> Option<u8>
    ensures { result ≡ refused kind.now }
{
    match kind {
        Kind::Takes(Err(refusal)) => Some(refusal.number()),
        Kind::Cancels(Err(refusal)) => Some(refusal.number()),
        Kind::Puts(Err(refusal)) => Some(refusal.number()),
        Kind::Removes(Err(refusal)) => Some(refusal.number()),
        _ => None,
    }
}
