//! What `--trace` prints: a line for each datagram.
ghost use Rattle.std.specs.Prelude.{◌≡◌, IfSome, is_some};
ghost use Rattle.coap_wires.specs.Colours.{way_colour};
ghost use Rattle.coap_wires.specs.Tracings.{is_in_colour, is_traced, tracing_of, way_sign};

use crate::peers::{PeerWords, Peers};
use crate::timekeeper::Timekeeper;
use coap_links::{Teller, Way};
use coap_print::{Colour, DatagramWords};
use coap_types::{Endpoint, Moment};
use std::alloc::{AllocError, Allocator};
use std::cell::RefCell;
use std::io;
use std::io::{ErrorKind, Write};

/// How each datagram is told of.
#[derive(Clone, Copy, Debug, PartialEq, Eq)]
pub enum Tracing {
    /// It is not.
    Off,
    /// In a line.
    Plain,
    /// In a line in colour, of which one stands for each way.
    Coloured,
}

impl Tracing {
    /// Whether lines are wanted, and in colour.
    pub fn of(is_wanted: bool, is_coloured: bool) -> Tracing
        // Each datagram is told of exactly where that is wanted.
        ensures wanted { is_traced result ≡ is_wanted }
        // Datagrams that are told of are told of in colour exactly where colours are wanted.
        ensures exact { result ≡ tracing_of is_wanted is_coloured }
    {
        match (is_wanted, is_coloured) {
            (false, _) => Tracing::Off,
            (true, false) => Tracing::Plain,
            (true, true) => Tracing::Coloured,
        }
    }
}

/// Tells of datagrams on a writer, a line each, at once: the moment, the way, the peer and the datagram in words.
#[derive(Drop)]
pub struct LineTeller<A, T, W, P> {
    alloc: A,
    time: T,
    out: W,
    peers: P,
    is_coloured: bool,
}

// The colour of a line: what goes is cyan, what comes green.
fn colour_of(way: Way, is_coloured: bool) -> Colour
    ensures { result ≡ way_colour way is_coloured }
{
    match (way, is_coloured) {
        (_, false) => Colour::Usual,
        (Way::Goes, true) => Colour::Cyan,
        (Way::Comes, true) => Colour::Green,
    }
}

// What stands for the way of a datagram.
fn way_sign(way: Way) -> &'static str
    ensures { result.now ≡ way_sign way }
{
    match way {
        Way::Goes => ">",
        Way::Comes => "<",
    }
}

// The line of a datagram that goes to this peer (`>`) or comes from it (`<`).
fn line_text<A: Allocator + Copy>(
    alloc: A,
    at: Moment,
    way: Way,
    is_coloured: bool,
    peer: PeerWords,
    bytes: &[u8],
) -> Result<String<A>, AllocError> {
    let at = at.0;
    let colour = colour_of(way, is_coloured);
    let (begin, end) = (colour.sign_before(), colour.sign_behind());
    let way = way_sign(way);
    let words = DatagramWords(bytes);
    format!(in alloc; "{begin}{at} {way} {peer} {words}{end}\n")
}

impl<A: Allocator + Copy, T: Timekeeper, W: Write, P: Peers> LineTeller<A, T, W, P> {
    /// Tells on this writer, by this clock, of these peers; in colour where that is wanted.
    pub fn new(alloc: A, time: T, out: W, peers: P, is_coloured: bool) -> LineTeller<A, T, W, P>
        // A teller of lines tells in colour exactly where that is wanted.
        ensures { result.is_coloured ≡ is_coloured }
    {
        LineTeller {
            alloc,
            time,
            out,
            peers,
            is_coloured,
        }
    }
}

/// A teller on a writer that others have too, where one is wanted.
pub fn teller_on<'a, A: Allocator + Copy, T: Timekeeper + Drop, W: Write, P: Peers + Drop>(
    alloc: A,
    time: T,
    out: &'a RefCell<W>,
    peers: P,
    tracing: Tracing,
) -> Option<LineTeller<A, T, SharedWriter<'a, W>, P>>
    // There is a teller exactly where one is wanted.
    ensures wanted { is_some result ≡ is_traced tracing }
    // It tells in colour where that is wanted.
    ensures coloured { IfSome result (λ teller. teller.is_coloured ≡ is_in_colour tracing) }
{
    let is_coloured = tracing == Tracing::Coloured;
    if tracing == Tracing::Off {
        None
    } else {
        Some(LineTeller::new(alloc, time, SharedWriter(out), peers, is_coloured))
    }
}

impl<A: Allocator + Copy, T: Timekeeper, W: Write, P: Peers> Teller for LineTeller<A, T, W, P> {
    ghost use Rattle.std.specs.Prelude.{⊤};

    ghost tells = { λ _ _ _ _ _ _. ⊤ };

    fn tell(&mut self, way: Way, peer: Endpoint, bytes: &[u8]) -> io::Result<()> {
        let at = self.time.now()?;
        let peer = self.peers.words(peer);
        let line = line_text(self.alloc, at, way, self.is_coloured, peer, bytes)?;
        self.out.write_all(line.as_bytes())
    }
}

/// A writer that more than one has: each writes to the one that the cell holds.
#[derive(Clone, Copy)]
pub struct SharedWriter<'a, W>(pub &'a RefCell<W>);

impl<'a, W> SharedWriter<'a, W> {
    /// A writer to the one that the cell holds.
    pub fn new(cell: &'a RefCell<W>) -> SharedWriter<'a, W> {
        SharedWriter(cell)
    }
}

impl<'a, W: Write> Write for SharedWriter<'a, W> {
    fn write(&mut self, bytes: &[u8]) -> io::Result<usize> {
        match self.0.try_borrow_mut() {
            Ok(mut out) => out.write(bytes),
            Err(_) => Err(io::Error::from(ErrorKind::ResourceBusy)),
        }
    }

    fn flush(&mut self) -> io::Result<()> {
        match self.0.try_borrow_mut() {
            Ok(mut out) => out.flush(),
            Err(_) => Err(io::Error::from(ErrorKind::ResourceBusy)),
        }
    }
}
