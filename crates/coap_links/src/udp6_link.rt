//! A link over a socket of UDP over IPv6.
ghost use Rattle.std.specs.Prelude.{ℕ, List, Option, Some, None, ◌≡◌, ◌+◌, true, IfOk, IfErr, Result, Ok};
ghost use Rattle.std.specs.Prelude.{length};
ghost use Rattle.std.specs.Net.Addr.{ipv6_segments, segments_of};
ghost use Rattle.std.specs.Net.Socket.{v6_ip, v6_port, v6_scope_id};
ghost use Rattle.std.specs.declared.io.Error.{Error as ErrorSpec};
ghost use Rattle.std.specs.declared.net.socket_addr.SocketAddr.{SocketAddr as SocketAddrSpec};
ghost use Rattle.std.specs.declared.net.socket_addr.SocketAddr.TheVariants.{V6};
ghost use Rattle.coap_links.specs.Addressing.{IsAddressFor, IsCarriedBySix, IsNamed, IsReachedAt, SendsWhere, Told};
ghost use Rattle.coap_links.specs.Bound.{IsBoundAtSix, IsClientAddress, IsClientSix, IsPlacedSix};
ghost use Rattle.coap_links.specs.PeerTables.{NamesPeer};
ghost use Rattle.coap_links.specs.SocketCalls.{ReceivesOn};
ghost use Rattle.coap_links.specs.Sockets.{is_of_this_network};
ghost use Rattle.coap_links.specs.declared.peer_names.SixPeer.{SixPeer as SixPeerSpec};
ghost use Rattle.coap_links.specs.Sources.{IsSource, four_or_nowhere, mapped_segments, peer_at};
ghost use Rattle.coap_links.specs.declared.udp6_link.Source.TheVariants.{Six};
ghost use Rattle.coap_links.specs.declared.link.TheConstants.{MAX_DATAGRAM_LEN as max_datagram_len};

use crate::datagram_socket::{BoundSocket, DatagramSocket};
use crate::lender::{CellLender, Lender};
use crate::link::{Link, MAX_DATAGRAM_LEN};
use crate::peer_names::{PeerNames, SixPeer, is_name};
use crate::six_places::place_of_six;
use crate::socket::Socket;
use crate::timekeeper::Timekeeper;
use crate::udp_link::{ANY_PORT, NO_PORT, endpoint_of, put_in, reached_at};
use coap_types::{Endpoint, Moment};
use std::alloc::Allocator;
use std::hash::BuildHasher;
use std::io;
use std::io::ErrorKind;
use std::net::{Ipv4Addr, Ipv6Addr, Net, SocketAddr, SocketAddrV6, UdpSocket};

/// Where a datagram came from.
#[derive(Clone, Copy, Debug, PartialEq, Eq)]
pub(crate) enum Source {
    /// A peer over IPv4.
    Four(Endpoint),
    /// A peer over IPv6.
    Six(SixPeer),
    /// No answer can be sent there.
    Nowhere,
}

// The source that an endpoint of IPv4 is.
fn source_of_four(endpoint: Option<Endpoint>) -> Source
    ensures { result ≡ four_or_nowhere endpoint }
{
    match endpoint {
        Some(endpoint) => Source::Four(endpoint),
        None => Source::Nowhere,
    }
}

// The peer that has an address of IPv6.
fn peer_at(address: &SocketAddrV6) -> SixPeer
    ensures { result ≡ peer_at address.now }
{
    SixPeer {
        ip: address.ip().octets(),
        port: address.port(),
        scope: address.scope_id(),
    }
}

/// Where a datagram came from that has this address: ::ffff:a.b.c.d is the peer a.b.c.d over IPv4 (RFC 4291, section
/// 2.5.5.2).
pub(crate) fn source_of(address: SocketAddr) -> Source
    ensures { IsSource address result }
{
    let six = match address {
        SocketAddr::V4(_) => return source_of_four(endpoint_of(address)),
        SocketAddr::V6(six) => six,
    };
    match six.ip().to_ipv4_mapped() {
        Some(four) => source_of_four(reached_at(four.octets(), six.port())),
        None if six.port() == NO_PORT => Source::Nowhere,
        None => Source::Six(peer_at(&six)),
    }
}

/// The socket address of a peer over IPv6.
pub(crate) fn address_of_six(peer: SixPeer) -> SocketAddrV6
    ensures ip { ipv6_segments (v6_ip result) ≡ segments_of peer.ip }
    ensures port { v6_port result ≡ peer.port }
    ensures scope { v6_scope_id result ≡ peer.scope }
{
    SocketAddrV6::new(Ipv6Addr::from_octets(peer.ip), peer.port, 0, peer.scope)
}

/// The socket address of a peer over IPv6, where there is one.
pub(crate) fn address_for(peer: Option<SixPeer>) -> Option<SocketAddr>
    ensures { IsAddressFor peer result }
{
    match peer {
        Some(peer) => Some(SocketAddr::V6(address_of_six(peer))),
        None => None,
    }
}

/// The socket address of IPv6 that stands for a peer over IPv4.
pub(crate) fn address_of_four(to: Endpoint) -> SocketAddrV6
    ensures ip { ipv6_segments (v6_ip result) ≡ mapped_segments to.ip }
    ensures port { v6_port result ≡ to.port }
{
    let [a, b, c, d] = to.ip;
    SocketAddrV6::new(Ipv4Addr::new(a, b, c, d).to_ipv6_mapped(), to.port, 0, 0)
}

// The address of a client's socket, by that of its server: ::1 where the server is at ::1.
fn client_ip(server: &Ipv6Addr) -> Ipv6Addr
    ensures { IsClientSix server.now result }
{
    if server.is_loopback() {
        Ipv6Addr::LOCALHOST
    } else {
        Ipv6Addr::UNSPECIFIED
    }
}

// .. its socket address, at a port that is free.
fn client_address(server: &SocketAddrV6) -> SocketAddrV6
    ensures { IsClientAddress server.now result }
{
    SocketAddrV6::new(client_ip(server.ip()), ANY_PORT, 0, server.scope_id())
}

// The name of a peer; want of memory, where the table names none.
fn name_for<S: BuildHasher + Copy + Drop, A: Allocator + Copy, L: Lender + Drop>(
    names: &PeerNames<S, A, L>,
    now: Moment,
    peer: &SixPeer,
) -> io::Result<Endpoint>
    ensures name { IfOk result (λ name. is_of_this_network name.ip ≡ true) }
    ensures named { IfOk result (λ name. NamesPeer L.is_lent now.0 peer.now (Some name)) }
    ensures refused { IfErr result (λ _. NamesPeer L.is_lent now.0 peer.now None) }
{
    match names.name_of(now, peer) {
        Some(name) => Ok(name),
        None => Err(io::Error::from(ErrorKind::OutOfMemory)),
    }
}

// The peer that a socket is to others that is at this address; a failure, where it is none over IPv6.
fn own_peer(at: &SocketAddrV6) -> io::Result<SixPeer>
    ensures { IfOk result (λ own. IsSource (V6 at.now) (Six own)) }
{
    match source_of(SocketAddr::V6(*at)) {
        Source::Six(own) => Ok(own),
        Source::Four(_) | Source::Nowhere => Err(io::Error::from(ErrorKind::AddrNotAvailable)),
    }
}

/// A UDP socket of IPv6. The endpoint of a peer over IPv6 is its name, which is in 0.0.0.0/8; the endpoint of a peer
/// over IPv4 is its address. At `::` the system may hand it what comes over IPv4, too.
#[derive(Drop)]
pub struct Udp6Link<
    'a,
    S: BuildHasher + Copy + Drop,
    A: Allocator + Copy,
    T: Timekeeper + Drop,
    D = UdpSocket,
    L: Lender + Drop = CellLender,
> {
    socket: Socket<D>,
    // Where it is, as the system says, and the name of that.
    at: SocketAddrV6,
    address: Endpoint,
    names: &'a PeerNames<S, A, L>,
    time: T,
}

impl<
    'a,
    S: BuildHasher + Copy + Drop,
    A: Allocator + Copy,
    T: Timekeeper + Drop,
    L: Lender + Drop,
> Udp6Link<'a, S, A, T, UdpSocket, L> {
    /// A socket at an address of this machine; at port 0, at a port of it that is free. Its peers have names of this
    /// table, which forgets them by this clock.
    pub fn bind<R: Net>(
        net: &R,
        address: SocketAddrV6,
        names: &'a PeerNames<S, A, L>,
        time: T,
    ) -> io::Result<Udp6Link<'a, S, A, T, UdpSocket, L>>
        // A link over IPv6 that is bound has failed no call.
        ensures faults { IfOk result (λ link. link.socket.faults ≡ 0) }
        // The endpoint of a link over IPv6 is a name.
        ensures name { IfOk result (λ link. is_of_this_network link.address.ip ≡ true) }
        // A link over IPv6 that is bound is at the address that was asked for, and at the port, but where any would do.
        ensures bound { IfOk result (λ link. IsBoundAtSix address link.at) }
        // A link over IPv6 is over a socket that the system was asked to bind at this address.
        ensures asked { IfOk result (λ link. link.socket.asked ≡ Some (V6 address)) }
        // A link over IPv6 that is bound is where the system said that its socket is.
        ensures said { IfOk result (λ link. link.socket.at ≡ Some (V6 link.at)) }
        // A link over IPv6 that is bound is connected to nobody.
        ensures free { IfOk result (λ link. link.socket.joined ≡ None) }
        // The endpoint of a link over IPv6 is the name that the table gives the address where it is.
        ensures named { IfOk result (λ link. (now : ℕ) × (own : SixPeerSpec) × IsSource (V6 link.at) (Six own)
            × NamesPeer L.is_lent now own (Some link.address)) }
    {
        let socket = Socket::bind(net, SocketAddr::V6(address))?;
        Udp6Link::placed(socket, &address, names, time)
    }

    /// A socket for a client of this server, at a port that is free, and the name of that server. It is at ::1 where
    /// the server is, so that only the machine itself reaches it, and else at `::`; and it is connected, as that of a
    /// client over IPv4 is.
    pub fn client<R: Net>(
        net: &R,
        server: SocketAddrV6,
        names: &'a PeerNames<S, A, L>,
        time: T,
    ) -> io::Result<(Udp6Link<'a, S, A, T, UdpSocket, L>, Endpoint)>
        // A client's link over IPv6 that is bound has failed no call.
        ensures faults { IfOk result (λ bound. bound.0.socket.faults ≡ 0) }
        // The endpoint by which a client knows its server over IPv6 is a name.
        ensures name { IfOk result (λ bound. is_of_this_network bound.1.ip ≡ true) }
        // A client's link over IPv6 is at ::1 where its server is there, and else at `::`.
        ensures bound { IfOk result (λ bound. IsClientSix (v6_ip server) (v6_ip bound.0.at)) }
        // A client's link over IPv6 is over a socket that the system was asked to connect to its server.
        ensures joined { IfOk result (λ bound. bound.0.socket.joined ≡ Some (V6 server)) }
        // A client knows its server over IPv6 by the name that the table gives the server's address.
        ensures named { IfOk result (λ bound. NamesPeer L.is_lent 0 (peer_at server) (Some bound.1)) }
    {
        let mut link = Udp6Link::bind(net, client_address(&server), names, time)?;
        link.socket.connect(SocketAddr::V6(server));
        let name = name_for(names, Moment(0), &peer_at(&server))?;
        Ok((link, name))
    }
}

impl<
    'a,
    S: BuildHasher + Copy + Drop,
    A: Allocator + Copy,
    T: Timekeeper + Drop,
    D: BoundSocket + Drop,
    L: Lender + Drop,
> Udp6Link<'a, S, A, T, D, L> {
    // A link over a socket that was asked to be at this address, where the system says that it is there.
    fn placed(
        socket: Socket<D>,
        asked: &SocketAddrV6,
        names: &'a PeerNames<S, A, L>,
        time: T,
    ) -> io::Result<Udp6Link<'a, S, A, T, D, L>>
        ensures kept { IfOk result (λ link. link.socket ≡ record socket { at = link.socket.at }) }
        ensures said { IfOk result (λ link. link.socket.at ≡ Some (V6 link.at)) }
        ensures placed { IfOk result (λ link. (said : Result SocketAddrSpec ErrorSpec) × D.says socket.socket said
            × IsPlacedSix asked.now said (Ok link.at)) }
        ensures name { IfOk result (λ link. is_of_this_network link.address.ip ≡ true) }
        ensures named { IfOk result (λ link. (now : ℕ) × (own : SixPeerSpec) × IsSource (V6 link.at) (Six own)
            × NamesPeer L.is_lent now own (Some link.address)) }
    {
        let mut socket = socket;
        let at = place_of_six(&mut socket, asked)?;
        let own = own_peer(&at)?;
        let mut time = time;
        let address = name_for(names, time.now()?, &own)?;
        Ok(Udp6Link {
            socket,
            at,
            address,
            names,
            time,
        })
    }
}

impl<
    'a,
    S: BuildHasher + Copy + Drop,
    A: Allocator + Copy,
    T: Timekeeper + Drop,
    D: DatagramSocket + Drop,
    L: Lender + Drop,
> Udp6Link<'a, S, A, T, D, L> {
    // The moment that it is; where the clock fails, none later than the last.
    fn now(&mut self) -> Moment
        ensures told { Told T.tells self.old.time self.new.time result.0 }
        ensures socket { self.new.socket ≡ self.old.socket }
        ensures address { self.new.address ≡ self.old.address }
    {
        match self.time.now() {
            Ok(moment) => moment,
            Err(_) => Moment(0),
        }
    }

    // The endpoint of a source: an address of IPv4, or a name. None where no answer can be sent there, and where no
    // name is left.
    fn named(&mut self, source: Source) -> Option<Endpoint>
        ensures socket { self.new.socket ≡ self.old.socket }
        ensures address { self.new.address ≡ self.old.address }
        ensures named { IsNamed L.is_lent (Told T.tells self.old.time self.new.time) source result }
    {
        match source {
            Source::Four(endpoint) => Some(endpoint),
            Source::Six(peer) => {
                let now = self.now();
                self.names.name_of(now, &peer)
            }
            Source::Nowhere => None,
        }
    }

    // The socket address of an endpoint; None of a name that is nobody's.
    fn address_of(&mut self, to: Endpoint) -> Option<SocketAddr>
        ensures socket { self.new.socket ≡ self.old.socket }
        ensures address { self.new.address ≡ self.old.address }
        ensures reached { IsReachedAt L.is_lent (Told T.tells self.old.time self.new.time) (is_of_this_network to.ip) to
            result }
    {
        if is_name(to) {
            let now = self.now();
            address_for(self.names.sent(now, &to))
        } else {
            Some(SocketAddr::V6(address_of_four(to)))
        }
    }
}

impl<
    'a,
    S: BuildHasher + Copy + Drop,
    A: Allocator + Copy,
    T: Timekeeper + Drop,
    D: DatagramSocket + Drop,
    L: Lender + Drop,
> Link for Udp6Link<'a, S, A, T, D, L> {
    ghost sends = { λ before to bytes after. (address : Option SocketAddrSpec)
        × IsReachedAt L.is_lent (Told T.tells before.time after.time) (is_of_this_network to.ip) to address
        × SendsWhere D.hands before.socket address bytes after.socket × (after.address ≡ before.address) };

    ghost receives = { λ before given after. (found : Option (ℕ × SocketAddrSpec)) × (bytes : List ℕ)
        × ReceivesOn D.takes before.socket bytes found after.socket × (length bytes ≡ max_datagram_len + 1)
        × IsCarriedBySix L.is_lent (Told T.tells before.time after.time) found bytes given
        × (after.address ≡ before.address) };

    ghost fault_count = { λ link. link.socket.faults };

    ghost broken_count = { λ link. link.socket.broken };

    ghost told_loss = { λ link. link.socket.loss };

    ghost own_address = { λ link. link.address };

    ghost hears_refusal = { λ link. link.socket.is_refused };

    fn send(&mut self, to: Endpoint, bytes: &[u8]) {
        // What goes to a name that is nobody's any more is lost.
        if let Some(address) = self.address_of(to) {
            self.socket.send(address, bytes);
        }
    }

    fn receive(&mut self, buf: &mut [u8]) -> Option<(Endpoint, usize)> {
        // One byte more than the longest, so that a longer one is told from it.
        let mut bytes = [0; MAX_DATAGRAM_LEN + 1];
        let (len, from) = self.socket.receive(&mut bytes)?;
        let from = self.named(source_of(from))?;
        put_in(len, from, bytes.as_slice(), buf)
    }

    fn faults(&self) -> u64 {
        self.socket.faults
    }

    fn broken_receives(&self) -> u64 {
        self.socket.broken
    }

    fn loss(&self) -> Option<io::Error> {
        self.socket.loss
    }

    fn address(&self) -> Endpoint {
        self.address
    }

    fn is_refused(&self) -> bool {
        self.socket.is_refused
    }
}
