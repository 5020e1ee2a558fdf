//! Datagrams on their way, in words.
ghost use Rattle.std.specs.Prelude.{◌≡◌, Some};
ghost use Rattle.std.specs.Fmt.{WritesOnOk};
ghost use Rattle.coap_scripts.specs.TrafficWords.{again_text, arrival_text, arrived_text, sent_text};
ghost use Rattle.coap_scripts.specs.TrafficWords.{stranger_text, to_text};

use crate::chart::traffic::Arrival;
use coap_print::{DatagramWords, EndpointWords};
use coap_types::Endpoint;
use std::fmt;

/// A datagram that is given out: its number, the one that it repeats, for whom it is where that isn't the other end,
/// and what it says.
#[derive(Clone, Copy)]
pub(super) struct SentWords<'a> {
    pub(super) number: usize,
    /// The first datagram of the same bytes, where that is another one.
    pub(super) first: Option<usize>,
    /// For whom, where that is no end.
    pub(super) to: Option<Endpoint>,
    pub(super) bytes: &'a [u8],
}

impl<'a> fmt::Display for SentWords<'a> {
    ghost output = { λ words. Some (sent_text words) };

    fn fmt<W: fmt::Write>(&self, f: &mut fmt::Formatter<W>) -> fmt::Result {
        let number = self.number;
        let words = DatagramWords(self.bytes);
        write!(f, "{number}")?;
        write_again(f, self.first)?;
        write_to(f, self.to)?;
        write!(f, ": {words}")
    }
}

// The first datagram of the same bytes, where that is another one.
fn write_again<W: fmt::Write>(f: &mut fmt::Formatter<W>, first: Option<usize>) -> fmt::Result
    ensures { WritesOnOk W.write_str_gives f.old result (again_text first) f.new }
{
    match first {
        Some(first) => write!(f, " ({first} again)"),
        None => Ok(()),
    }
}

// For whom a datagram is, where that is no end.
fn write_to<W: fmt::Write>(f: &mut fmt::Formatter<W>, to: Option<Endpoint>) -> fmt::Result
    ensures { WritesOnOk W.write_str_gives f.old result (to_text to) f.new }
{
    match to {
        Some(to) => {
            let to = EndpointWords(to);
            write!(f, " to {to}")
        }
        None => Ok(()),
    }
}

/// A datagram that arrives: its number, how, and how long it was on its way.
#[derive(Clone, Copy)]
pub(super) struct ArrivedWords {
    pub(super) number: usize,
    pub(super) arrival: Arrival,
    /// So many milliseconds.
    pub(super) ms: u64,
}

impl fmt::Display for ArrivedWords {
    ghost output = { λ words. Some (arrived_text words) };

    fn fmt<W: fmt::Write>(&self, f: &mut fmt::Formatter<W>) -> fmt::Result {
        let number = self.number;
        let ms = self.ms;
        let how = arrival_text(self.arrival);
        write!(f, "{number}{how} after {ms} ms")
    }
}

// How a datagram arrives.
fn arrival_text(arrival: Arrival) -> &'static str
    ensures { result.now ≡ arrival_text arrival }
{
    match arrival {
        Arrival::InOrder => "",
        Arrival::Late => " late,",
        Arrival::Again => " again,",
    }
}

/// A datagram that comes from elsewhere: from where, and what it says.
#[derive(Clone, Copy)]
pub(super) struct StrangerWords<'a> {
    pub(super) from: Endpoint,
    pub(super) bytes: &'a [u8],
}

impl<'a> fmt::Display for StrangerWords<'a> {
    ghost output = { λ words. Some (stranger_text words) };

    fn fmt<W: fmt::Write>(&self, f: &mut fmt::Formatter<W>) -> fmt::Result {
        let from = EndpointWords(self.from);
        let words = DatagramWords(self.bytes);
        write!(f, "from {from}: {words}")
    }
}
