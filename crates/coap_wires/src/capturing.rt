//! What `--pcap` writes: a capture of each datagram that is sent and received, as Wireshark and tshark read it.
ghost use Rattle.std.specs.Prelude.{◌≡◌, ℕ, false, IfNone, IfOk, IfSome, OnOk, is_some};
ghost use Rattle.std.specs.Io.KnownBytes.{Appends};
ghost use Rattle.coap_types.specs.declared.endpoint.Endpoint.{Endpoint as EndpointSpec};
ghost use Rattle.coap_links.specs.declared.trace.Way.{Way as WaySpec};
ghost use Rattle.coap_pcap.specs.declared.addresses.Addresses.{Addresses as AddressesSpec};
ghost use Rattle.coap_pcap.specs.Written.{file_head, packet, record_of};
ghost use Rattle.coap_wires.specs.Capturing.{IsCapturedAt, four_addresses, mapped, six_addresses};

use crate::timekeeper::Timekeeper;
use coap_links::{PeerNames, SixPeer, Teller, Way};
use coap_pcap::{Addresses, SixEndpoint, WriteError, head_bytes, record_bytes};
use coap_status::Stop;
use coap_types::{Endpoint, Moment};
use std::alloc::Allocator;
use std::hash::BuildHasher;
use std::io::{ErrorKind, Write};
use std::rt::{Clock, Files};
use std::{fs, io};

/// Who sends the datagrams of a capture, and receives them.
pub trait Standing {
    /// Who it is, which way a datagram goes, its peer, and between which addresses it goes.
    ghost stands: { Self → WaySpec → EndpointSpec → AddressesSpec → Type 0 };

    /// Who it is, and a peer that may be nobody's name.
    ghost lacks: { Self → EndpointSpec → Type 0 };

    /// Between which addresses a datagram goes that is sent to this peer or came from it. None where the peer is
    /// nobody's name.
    fn addresses(&self, way: Way, peer: Endpoint) -> Option<Addresses>
        // A datagram of a capture goes between the two addresses that its own words have.
        ensures some { IfSome result (stands self.now way peer) }
        // A datagram is left out of a capture only where its peer may be nobody's name.
        ensures none { IfNone result (lacks self.now peer) };
}

/// One that is at an endpoint of IPv4.
#[derive(Clone, Copy, Debug)]
pub struct FourStanding {
    /// The endpoint.
    pub own: Endpoint,
}

impl Standing for FourStanding {
    ghost stands = { λ s way peer addresses. addresses ≡ four_addresses s.own way peer };

    ghost lacks = { λ _ _. ⊥ };

    fn addresses(&self, way: Way, peer: Endpoint) -> Option<Addresses> {
        let (from, to) = match way {
            Way::Goes => (self.own, peer),
            Way::Comes => (peer, self.own),
        };
        Some(Addresses::V4 { from, to })
    }
}

/// One that is at an endpoint of IPv6, and whose peers have names of this table.
#[derive(Drop)]
pub struct SixStanding<'n, S: BuildHasher + Copy + Drop, A: Allocator + Copy> {
    own: SixEndpoint,
    names: &'n PeerNames<S, A>,
}

impl<'n, S: BuildHasher + Copy + Drop, A: Allocator + Copy> SixStanding<'n, S, A> {
    /// One at this endpoint, whose peers have names of this table.
    pub fn new(own: SixEndpoint, names: &'n PeerNames<S, A>) -> SixStanding<'n, S, A> {
        SixStanding { own, names }
    }
}

// The endpoint of IPv6 that stands for one of IPv4, ::ffff:a.b.c.d (RFC 4291, section 2.5.5.2).
fn mapped(four: Endpoint) -> SixEndpoint
    ensures { result ≡ mapped four }
{
    let [a, b, c, d] = four.ip;
    SixEndpoint {
        ip: [0, 0, 0, 0, 0, 0, 0, 0, 0, 0, 0xff, 0xff, a, b, c, d],
        port: four.port,
    }
}

// The endpoint of a peer over IPv6.
fn endpoint_of(peer: SixPeer) -> SixEndpoint
    ensures ip { result.ip ≡ peer.ip }
    ensures port { result.port ≡ peer.port }
{
    let (ip, port) = (peer.ip, peer.port);
    SixEndpoint { ip, port }
}

impl<'n, S: BuildHasher + Copy + Drop, A: Allocator + Copy> Standing for SixStanding<'n, S, A> {
    ghost use Rattle.std.specs.Prelude.{◌⊎◌, true};
    ghost use Rattle.coap_links.specs.Sockets.{is_of_this_network};
    ghost use Rattle.coap_pcap.specs.declared.addresses.SixEndpoint.{SixEndpoint as SixEndpointSpec};
    ghost use Rattle.coap_wires.specs.Capturing.{IsOfSix};

    ghost stands = { λ s way peer addresses. IsOfSix s.own way peer addresses };

    ghost lacks = { λ _ peer. is_of_this_network peer.ip ≡ true };

    fn addresses(&self, way: Way, peer: Endpoint) -> Option<Addresses> {
        let six = match peer.ip {
            [0, ..] => endpoint_of(self.names.peer_of(&peer)?),
            _ => mapped(peer),
        };
        let (from, to) = match way {
            Way::Goes => (self.own, six),
            Way::Comes => (six, self.own),
        };
        Some(Addresses::V6 { from, to })
    }
}

/// Writes a record of each datagram on a writer, at once. Once a record could not be written whole, it writes none any
/// more, so that no record stands behind a part of one.
#[derive(Drop)]
pub struct CaptureTeller<P, A, T, W> {
    standing: P,
    alloc: A,
    time: T,
    begin: Moment,
    out: W,
    is_torn: bool,
}

// Why a record can't be written.
fn error_of(error: WriteError) -> io::Error {
    match error {
        WriteError::Memory => io::Error::from(ErrorKind::OutOfMemory),
        WriteError::TooLong | WriteError::TooLate => io::Error::from(ErrorKind::InvalidInput),
    }
}

impl<P: Standing, A: Allocator + Copy, T: Timekeeper, W: Write> CaptureTeller<P, A, T, W> {
    /// Writes on this writer, by this clock, which began at this moment since 1970.
    pub fn new(standing: P, alloc: A, time: T, begin: Moment, out: W) -> CaptureTeller<P, A, T, W>
        // A capture that begins is written on its writer as that is.
        ensures out { result.out ≡ out }
        // Nothing is torn yet in a capture that begins.
        ensures whole { result.is_torn ≡ false }
    {
        CaptureTeller {
            standing,
            alloc,
            time,
            begin,
            out,
            is_torn: false,
        }
    }

    // The record of a datagram that goes or comes now.
    fn record(&mut self, way: Way, peer: Endpoint, bytes: &[u8]) -> io::Result<Vec<u8, A>>
        ensures made { IfOk result (λ made. (at : ℕ)
            × IsCapturedAt T.tells self.old.time self.old.begin.0 self.new.time at × (addresses : AddressesSpec)
            × P.stands self.old.standing way peer addresses
            × (made.items ≡ record_of at (packet addresses bytes.now))) }
        ensures begin { self.new.begin ≡ self.old.begin }
        ensures standing { self.new.standing ≡ self.old.standing }
        ensures out { self.new.out ≡ self.old.out }
        ensures torn { self.new.is_torn ≡ self.old.is_torn }
    {
        let now = self.time.now()?;
        let at = Moment(self.begin.0.saturating_add(now.0));
        let Some(addresses) = self.standing.addresses(way, peer) else {
            return Err(io::Error::from(ErrorKind::AddrNotAvailable));
        };
        match record_bytes(self.alloc, at, &addresses, bytes) {
            Ok(record) => Ok(record),
            Err(error) => Err(error_of(error)),
        }
    }
}

impl<P: Standing, A: Allocator + Copy, T: Timekeeper, W: Write> Teller
    for CaptureTeller<P, A, T, W> {
    ghost use Rattle.std.specs.Prelude.{◌≡◌, ◌⊎◌, true, false};
    ghost use Rattle.coap_wires.specs.Capturing.{IsCaptured, IsCapturedAt};

    ghost tells = { λ t way peer bytes told u. (told ≡ true
        → IsCaptured (IsCapturedAt T.tells t.time t.begin.0 u.time) (P.stands t.standing way peer)
        (W.contents t.out) (W.contents u.out) bytes)
        × (told ≡ false → (u.out ≡ t.out) ⊎ (u.is_torn ≡ true))
        × (t.is_torn ≡ true → (told ≡ false) × (u.out ≡ t.out)) };

    fn tell(&mut self, way: Way, peer: Endpoint, bytes: &[u8]) -> io::Result<()> {
        if self.is_torn {
            return Err(io::Error::from(ErrorKind::BrokenPipe));
        }
        let record = self.record(way, peer, bytes)?;
        let written = self.out.write_all(record.as_slice());
        self.is_torn = written.is_err();
        written
    }
}

/// Writes the head of a capture.
pub fn write_head<W: Write>(out: &mut W) -> io::Result<()>
    // What is written in front of the records of a capture is its head.
    ensures { OnOk result (Appends (W.contents out.old) (W.contents out.new) file_head) }
{
    out.write_all(&head_bytes())
}

/// A file that a capture begins in, where one is named.
pub fn capture_in<R: Files>(rt: &R, name: Option<&str>) -> Result<Option<R::File>, Stop>
    // A capture begins in a file exactly where one is named.
    ensures { IfOk result (λ file. is_some file ≡ is_some name.entry) }
{
    let Some(name) = name else {
        return Ok(None);
    };
    let mut file = fs::create(rt, name)?;
    write_head(&mut file)?;
    Ok(Some(file))
}

/// When a clock began that tells so many milliseconds now, in milliseconds since 1970.
pub fn begin_of<R: Clock>(rt: &R, now: Moment) -> io::Result<Moment> {
    let since = rt.since_1970()?.as_millis();
    let since = u64::try_from(since).unwrap_or(u64::MAX);
    Ok(Moment(since.saturating_sub(now.0)))
}

/// A teller that captures in a file, where there is one.
pub fn capture_on<P: Standing + Drop, A: Allocator + Copy, T: Timekeeper + Drop, W: Write + Drop>(
    standing: P,
    alloc: A,
    time: T,
    begin: Moment,
    file: Option<W>,
) -> Option<CaptureTeller<P, A, T, W>>
    // There is a teller that captures exactly where there is a file.
    ensures { is_some result ≡ is_some file }
{
    match file {
        Some(file) => Some(CaptureTeller::new(standing, alloc, time, begin, file)),
        None => None,
    }
}
