//! The datagrams of a capture as a chart, for reading: the line of the sender of the first one on the left, that of its
//! receiver on the right.
ghost use Rattle.std.specs.Prelude.{◌≡◌};
ghost use Rattle.coap_showing.specs.Colours.{course_colour};
ghost use Rattle.coap_showing.specs.Drawn.{IsCourse, receiver, sender, turned};

use coap_pcap::{Addresses, Datagram, Packet, SixEndpoint};
use coap_print::{Colour, DatagramWords, EndpointWords, Ink};
use coap_status::Stop;
use coap_types::Moment;
use std::alloc::{AllocError, Global};
use std::fmt;
use std::io::Write;
use std::net::{Ipv6Addr, SocketAddrV6};

// The columns of a moment: milliseconds since the first datagram.
const MOMENT_WIDTH: usize = 8;

// The columns between the two lines.
const INNER_WIDTH: usize = 88;

// What stands at the end of words that are cut.
const CUT: &str = "..";

// The columns of an arrow: its line before the words, and its head behind them.
const ARROW_WIDTH: usize = 9;

// One of the two ends of a datagram, in words.
#[derive(Clone, Copy)]
enum Place {
    Four(EndpointWords),
    Six(SixEndpoint),
}

impl fmt::Display for Place {
    fn fmt<W: fmt::Write>(&self, f: &mut fmt::Formatter<W>) -> fmt::Result {
        match self {
            Place::Four(words) => write!(f, "{words}"),
            Place::Six(six) => {
                let words = SocketAddrV6::new(Ipv6Addr::from_octets(six.ip), six.port, 0, 0);
                write!(f, "{words}")
            }
        }
    }
}

// The sender and the receiver of a datagram.
fn places_of(addresses: Addresses) -> (Place, Place)
    ensures from { result.0 ≡ sender addresses }
    ensures to { result.1 ≡ receiver addresses }
{
    match addresses {
        Addresses::V4 { from, to } => (
            Place::Four(EndpointWords(from)),
            Place::Four(EndpointWords(to)),
        ),
        Addresses::V6 { from, to } => (Place::Six(from), Place::Six(to)),
    }
}

// The same addresses, the other way.
fn turned(addresses: Addresses) -> Addresses
    ensures { result ≡ turned addresses }
{
    match addresses {
        Addresses::V4 { from, to } => Addresses::V4 { from: to, to: from },
        Addresses::V6 { from, to } => Addresses::V6 { from: to, to: from },
    }
}

// Which way a datagram goes on the chart.
#[derive(Clone, Copy)]
enum Course {
    // From the left end to the right one.
    Right,
    // Back.
    Left,
    // Between others.
    Elsewhere,
}

// The course of a datagram, where the first one goes between these addresses.
fn course_of(first: Addresses, addresses: Addresses) -> Course
    ensures { IsCourse result first addresses }
{
    if addresses == first {
        Course::Right
    } else if addresses == turned(first) {
        Course::Left
    } else {
        Course::Elsewhere
    }
}

// The colour of the row of a datagram that goes so.
fn course_colour(ink: Ink, course: Course) -> Colour
    ensures { result ≡ course_colour ink course }
{
    match (ink, course) {
        (Ink::Plain, _) | (Ink::Coloured, Course::Elsewhere) => Colour::Usual,
        (Ink::Coloured, Course::Right) => Colour::Cyan,
        (Ink::Coloured, Course::Left) => Colour::Green,
    }
}

// Words that take no more than so many columns.
fn fitting(alloc: Global, words: String, room: usize) -> Result<String, AllocError> {
    if words.len() <= room {
        return Ok(words);
    }
    let kept = room.saturating_sub(CUT.len());
    let words = words.as_str();
    format!(in alloc; "{words:.kept$}{CUT}")
}

// What stands between the lines in the row of a datagram.
fn text_of(alloc: Global, course: Course, datagram: &Datagram<'_>) -> Result<String, AllocError> {
    let words = DatagramWords(datagram.payload);
    match course {
        Course::Right | Course::Left => {
            let words = format!(in alloc; "{words}")?;
            fitting(alloc, words, INNER_WIDTH - ARROW_WIDTH)
        }
        Course::Elsewhere => {
            let (from, to) = places_of(datagram.addresses);
            let words = format!(in alloc; " {from} > {to} {words}")?;
            fitting(alloc, words, INNER_WIDTH)
        }
    }
}

// The row of a datagram at this moment.
fn row_of(
    alloc: Global,
    ink: Ink,
    ms: u64,
    course: Course,
    datagram: &Datagram<'_>,
) -> Result<String, AllocError> {
    let text = text_of(alloc, course, datagram)?;
    let text = text.as_str();
    let (moment, inner) = (MOMENT_WIDTH, INNER_WIDTH);
    let room = INNER_WIDTH - ARROW_WIDTH;
    let colour = course_colour(ink, course);
    let (begin, end) = (colour.sign_before(), colour.sign_behind());
    match course {
        Course::Right => {
            format!(in alloc; "{begin}{ms:>moment$} |--- {text:<room$} --->|{end}\n")
        }
        Course::Left => format!(in alloc; "{begin}{ms:>moment$} |<--- {text:>room$} ---|{end}\n"),
        Course::Elsewhere => format!(in alloc; "{begin}{ms:>moment$} |{text:<inner$}|{end}\n"),
    }
}

// The first row: the unit of the moments, and over each line whose it is.
fn head_of(alloc: Global, first: Addresses) -> Result<String, AllocError> {
    let (left, right) = places_of(first);
    let left = format!(in alloc; "{left}")?;
    let right = format!(in alloc; "{right}")?;
    let (left, right) = (left.as_str(), right.as_str());
    let (unit, moment) = ("ms", MOMENT_WIDTH);
    let width = INNER_WIDTH.saturating_add(2).saturating_sub(left.len());
    format!(in alloc; "{unit:>moment$} {left}{right:>width$}\n")
}

// The first datagram of these packets, and its moment.
fn first_of<'a>(packets: &[Packet<'a>]) -> Option<(Moment, Datagram<'a>)> {
    for packet in packets {
        if let Ok(datagram) = packet.found {
            return Some((packet.at, datagram));
        }
    }
    None
}

/// Draws the datagrams of these packets, a row each, between the two ends of the first one.
pub(crate) fn draw_packets<W: Write>(
    alloc: Global,
    ink: Ink,
    packets: &[Packet<'_>],
    out: &mut W,
) -> Result<(), Stop> {
    let Some((begin, first)) = first_of(packets) else {
        return Ok(());
    };
    out.write_all(head_of(alloc, first.addresses)?.as_bytes())?;
    for packet in packets {
        if let Ok(datagram) = packet.found {
            let course = course_of(first.addresses, datagram.addresses);
            let row = row_of(alloc, ink, packet.at.since(begin), course, &datagram)?;
            out.write_all(row.as_bytes())?;
        }
    }
    Ok(())
}
