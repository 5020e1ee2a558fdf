//! A run as a capture: each datagram that an end gives out, and each that a stranger sends, once.
use coap_pcap::{Addresses as Between, WriteError, head_bytes, record_bytes};
use coap_run::{Addresses, Event, Kind, Line, Record, Side, What};
use coap_types::{Endpoint, Moment};
use std::alloc::Allocator;
use std::io;
use std::io::{ErrorKind, Write};

/// Writes the datagrams of a run between ends at these addresses as a capture, in the order of the run. Its moment 0 is
/// the begin of 1970.
pub(crate) fn capture_run<A: Allocator + Copy, W: Write>(
    alloc: A,
    ends: Addresses,
    events: &[Event<A>],
    record: &Record<A>,
    out: &mut W,
) -> io::Result<()> {
    out.write_all(&head_bytes())?;
    let mut number = 0;
    let turns = record.lines().split(|line| is_begin(line));
    for (event, lines) in events.iter().zip(turns.skip(1)) {
        capture_stranger(alloc, ends, event, out)?;
        number = capture_outs(alloc, lines, record, number, out)?;
    }
    Ok(())
}

// Whether an event begins.
fn is_begin<A: Allocator + Copy>(line: &Line<A>) -> bool {
    matches!(line.kind, Kind::Begins(_))
}

// The datagram of a stranger, where an event is one.
fn capture_stranger<A: Allocator + Copy, W: Write>(
    alloc: A,
    ends: Addresses,
    event: &Event<A>,
    out: &mut W,
) -> io::Result<()> {
    let What::Stranger(side, from, bytes) = &event.what else {
        return Ok(());
    };
    let to = match side {
        Side::Client => ends.client,
        Side::Server => ends.server,
    };
    write_record(alloc, event.at, *from, to, bytes.as_slice(), out)
}

// The datagrams that are given out in these lines, of which the first has this number; the number of the next one.
fn capture_outs<A: Allocator + Copy, W: Write>(
    alloc: A,
    lines: &[Line<A>],
    record: &Record<A>,
    first: usize,
    out: &mut W,
) -> io::Result<usize> {
    let mut number = first;
    for line in lines {
        if let Kind::Out = &line.kind {
            if let Some(given) = record.get(number) {
                write_record(
                    alloc,
                    given.at(),
                    given.from(),
                    given.to(),
                    given.bytes(),
                    out,
                )?;
            }
            number = number.saturating_add(1);
        }
    }
    Ok(number)
}

// A datagram from one endpoint to another.
fn write_record<A: Allocator + Copy, W: Write>(
    alloc: A,
    at: Moment,
    from: Endpoint,
    to: Endpoint,
    bytes: &[u8],
    out: &mut W,
) -> io::Result<()> {
    match record_bytes(alloc, at, &Between::V4 { from, to }, bytes) {
        Ok(record) => out.write_all(record.as_slice()),
        Err(WriteError::Memory) => Err(io::Error::from(ErrorKind::OutOfMemory)),
        Err(WriteError::TooLong | WriteError::TooLate) => {
            Err(io::Error::from(ErrorKind::InvalidInput))
        }
    }
}
