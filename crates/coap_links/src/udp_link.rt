//! A link over a socket of UDP.
ghost use Rattle.std.specs.Prelude.{ℕ, List, Option, Some, None, ◌≡◌, ◌+◌, ◌<◌, ◌≤◌, ◌⊎◌, ◌↔◌};
ghost use Rattle.std.specs.Prelude.{IfOk, IfErr, IfSome, IfNone, Result, Ok, Err, length, take, true, false};
ghost use Rattle.std.specs.declared.io.Error.{Error as ErrorSpec};
ghost use Rattle.std.specs.declared.net.socket_addr.SocketAddr.{SocketAddr as SocketAddrSpec};
ghost use Rattle.coap_links.specs.Addressing.{IsAddressOf, IsThatOf, carried_from, carried_in};
ghost use Rattle.coap_links.specs.Bound.{IsBoundAt, IsPlaced, IsSaidAt, bound_endpoint, client_ip};
ghost use Rattle.coap_links.specs.Carried.{received};
ghost use Rattle.coap_links.specs.SocketCalls.{ReceivesOn, SendsOn};
ghost use Rattle.coap_links.specs.Sockets.{endpoint_in, is_of_this_network, reached_at};
ghost use Rattle.coap_links.specs.declared.link.TheConstants.{MAX_DATAGRAM_LEN as max_datagram_len};

use crate::datagram_socket::{BoundSocket, DatagramSocket};
use crate::link::{Link, MAX_DATAGRAM_LEN};
use crate::peer_names::is_name;
use crate::socket::Socket;
use coap_types::Endpoint;
use std::io;
use std::io::ErrorKind;
use std::net::{IpAddr, Ipv4Addr, Net, SocketAddr, UdpSocket};

/// The port that stands for one that is free.
pub const ANY_PORT: u16 = 0;

const _: () = prove!(ANY_PORT == 0);

// The port of a sender that takes no reply (RFC 768).
pub(crate) const NO_PORT: u16 = 0;

const _: () = prove!(NO_PORT == 0);

/// The address by which a machine reaches itself, whatever else it is joined to (RFC 1122, section
/// 3.2.1.3).
pub const LOOPBACK: [u8; 4] = [127, 0, 0, 1];

/// The address that stands for each of the machine's (RFC 1122, section 3.2.1.3).
pub const EACH_ADDRESS: [u8; 4] = [0, 0, 0, 0];

/// A UDP socket. What it asks of the system is what `DatagramSocket` says.
#[derive(Drop)]
pub struct UdpLink<D = UdpSocket> {
    socket: Socket<D>,
    address: Endpoint,
}

/// The endpoint at this address and port of IPv4, where an answer can be sent there.
pub(crate) fn reached_at(ip: [u8; 4], port: u16) -> Option<Endpoint>
    ensures exact { result ≡ reached_at ip port }
    ensures port { IfSome result (λ endpoint. NO_PORT < endpoint.port) }
    // No endpoint of IPv4 is in 0.0.0.0/8, so that none is the name of a peer of IPv6.
    ensures apart { IfSome result (λ endpoint. is_of_this_network endpoint.ip ≡ false) }
{
    let endpoint = Endpoint { ip, port };
    if port == NO_PORT || is_name(endpoint) {
        None
    } else {
        Some(endpoint)
    }
}

/// The endpoint of a socket address of IPv4, to which an answer can be sent.
pub(crate) fn endpoint_of(address: SocketAddr) -> Option<Endpoint>
    ensures exact { result ≡ endpoint_in address }
    ensures port { IfSome result (λ endpoint. NO_PORT < endpoint.port) }
    ensures apart { IfSome result (λ endpoint. is_of_this_network endpoint.ip ≡ false) }
{
    match address {
        SocketAddr::V4(address) => reached_at(address.ip().octets(), address.port()),
        SocketAddr::V6(_) => None,
    }
}

// Where a socket of IPv4 is.
fn bound_endpoint(address: SocketAddr) -> Option<Endpoint>
    ensures { result ≡ bound_endpoint address }
{
    match address {
        SocketAddr::V4(address) => Some(Endpoint {
            ip: address.ip().octets(),
            port: address.port(),
        }),
        SocketAddr::V6(_) => None,
    }
}

// The socket address of an endpoint.
fn socket_address(to: Endpoint) -> SocketAddr
    ensures { IsAddressOf to result }
{
    let [a, b, c, d] = to.ip;
    SocketAddr::new(IpAddr::V4(Ipv4Addr::new(a, b, c, d)), to.port)
}

// Whether a socket is where it was asked to be; at `ANY_PORT`, at whichever port.
fn is_bound_at(asked: Endpoint, address: Endpoint) -> bool
    ensures { (result ≡ true) ↔ IsBoundAt asked address }
{
    address.ip == asked.ip && (asked.port == ANY_PORT || address.port == asked.port)
}

// Where a socket is that was asked to be there, as the system says.
fn place_of<D: BoundSocket>(socket: &mut Socket<D>, asked: Endpoint) -> io::Result<Endpoint>
    ensures placed { (said : Result SocketAddrSpec ErrorSpec) × D.says socket.old.socket said
        × IsPlaced asked said result }
    ensures said { IfOk result (λ address. IsSaidAt address socket.new.at) }
    ensures kept { socket.new ≡ record socket.old { at = socket.new.at } }
{
    match bound_endpoint(socket.place()?) {
        Some(bound) if is_bound_at(asked, bound) => Ok(bound),
        _ => Err(io::Error::from(ErrorKind::AddrNotAvailable)),
    }
}

// The address of a client's socket, by that of its server.
fn client_ip(server: [u8; 4]) -> [u8; 4]
    ensures { result ≡ client_ip server }
{
    match server {
        [127, ..] => LOOPBACK,
        _ => EACH_ADDRESS,
    }
}

impl UdpLink<UdpSocket> {
    /// A socket at an address of this machine; at `ANY_PORT`, at a port of it that is free.
    ///
    /// At `LOOPBACK` only the machine itself reaches it. At `EACH_ADDRESS` whoever reaches one of the machine's
    /// addresses does. A server there does not know to which of them a request came, and its answer
    /// leaves from the one that the system chooses for the way back. On a machine with several addresses
    /// that may be another one: the client then has an answer from an endpoint that it did not ask,
    /// and does not take it (RFC 7252, section 5.3.2). Such a server is bound to the one address that
    /// its clients ask.
    pub fn bind<R: Net>(net: &R, address: Endpoint) -> io::Result<UdpLink<UdpSocket>>
        // A link that is bound has failed no call.
        ensures faults { IfOk result (λ link. link.socket.faults ≡ 0) }
        // A link that is bound has the address that was asked for, and the port, but where any would do.
        ensures bound { IfOk result (λ link. IsBoundAt address link.address) }
        // A link is over a socket that the system was asked to bind at this address.
        ensures asked { IfOk result (λ link. IsThatOf address link.socket.asked) }
        // A link that is bound has the address where the system said that its socket is.
        ensures said { IfOk result (λ link. IsSaidAt link.address link.socket.at) }
        // A link that is bound is connected to nobody.
        ensures free { IfOk result (λ link. link.socket.joined ≡ None) }
    {
        let socket = Socket::bind(net, socket_address(address))?;
        UdpLink::placed(socket, address)
    }

    /// A socket for a client of this server, at a port that is free. It is at `LOOPBACK` where the server is at
    /// an address of 127.0.0.0/8, so that only the machine itself reaches it; else at `EACH_ADDRESS`, and each
    /// datagram leaves from the address that the system chooses for its way. It is connected, where there is a way to
    /// the server: the system then drops what comes from elsewhere, and says where nobody listens (RFC 1122, section
    /// 4.1.3.3).
    pub fn client<R: Net>(net: &R, server: Endpoint) -> io::Result<UdpLink<UdpSocket>>
        // A client's link that is bound has failed no call.
        ensures faults { IfOk result (λ link. link.socket.faults ≡ 0) }
        // A client's link is at 127.0.0.1 where its server is in 127.0.0.0/8, and else at 0.0.0.0.
        ensures bound { IfOk result (λ link. link.address.ip ≡ client_ip server.ip) }
        // A client's link is over a socket that the system was asked to connect to its server.
        ensures joined { IfOk result (λ link. IsThatOf server link.socket.joined) }
    {
        let address = Endpoint {
            ip: client_ip(server.ip),
            port: ANY_PORT,
        };
        let mut link = UdpLink::bind(net, address)?;
        link.socket.connect(socket_address(server));
        Ok(link)
    }
}

impl<D: BoundSocket + Drop> UdpLink<D> {
    // A link over a socket that was asked to be at this address, where the system says that it is there.
    fn placed(socket: Socket<D>, asked: Endpoint) -> io::Result<UdpLink<D>>
        ensures kept { IfOk result (λ link. link.socket ≡ record socket { at = link.socket.at }) }
        ensures said { IfOk result (λ link. IsSaidAt link.address link.socket.at) }
        ensures placed { IfOk result (λ link. (said : Result SocketAddrSpec ErrorSpec) × D.says socket.socket said
            × IsPlaced asked said (Ok link.address)) }
        ensures refused { IfErr result (λ error. (said : Result SocketAddrSpec ErrorSpec) × D.says socket.socket said
            × IsPlaced asked said (Err error)) }
    {
        let mut socket = socket;
        let address = place_of(&mut socket, asked)?;
        Ok(UdpLink { socket, address })
    }
}

impl<D> UdpLink<D> {
    /// A link over a socket that is there.
    pub fn over(socket: D, address: Endpoint) -> UdpLink<D>
        // A link over a socket has failed no call, and is where it is said to be.
        ensures { result ≡ record {
          socket = record {
            socket = socket;
            asked = None;
            at = None;
            joined = None;
            faults = 0;
            broken = 0;
            loss = None;
            is_refused = false;
          };
          address = address;
        } }
    {
        UdpLink {
            socket: Socket::over(socket),
            address,
        }
    }
}

/// Copies what came to the front of a buffer, and answers from where and how long it is; None where it is too long.
pub(crate) fn put_in(
    len: usize,
    from: Endpoint,
    bytes: &[u8],
    buf: &mut [u8],
) -> Option<(Endpoint, usize)>
    requires held { len ≤ length bytes.now }
    requires room { MAX_DATAGRAM_LEN ≤ length buf.old }
    ensures some { IfSome result (λ came. (came ≡ (from, len)) × (len ≤ MAX_DATAGRAM_LEN)
        × (take len buf.new ≡ take len bytes.now)) }
    ensures none { IfNone result (MAX_DATAGRAM_LEN < len) }
    ensures carried { received result buf.new ≡ carried_from (Some from) len bytes.now }
    ensures room { length buf.new ≡ length buf.old }
{
    if len > MAX_DATAGRAM_LEN {
        return None;
    }
    buf[..len].copy_from_slice(&bytes[..len]);
    Some((from, len))
}

/// .. of what came from this address; None, too, where no answer can go there.
pub(crate) fn arrived(
    len: usize,
    from: SocketAddr,
    bytes: &[u8],
    buf: &mut [u8],
) -> Option<(Endpoint, usize)>
    requires held { len ≤ length bytes.now }
    requires room { MAX_DATAGRAM_LEN ≤ length buf.old }
    ensures some { IfSome result (λ came. (endpoint_in from ≡ Some came.0) × (came.1 ≡ len) × (len ≤ MAX_DATAGRAM_LEN)
        × (take len buf.new ≡ take len bytes.now)) }
    ensures none { IfNone result ((endpoint_in from ≡ None) ⊎ (MAX_DATAGRAM_LEN < len)) }
    ensures carried { received result buf.new ≡ carried_in (Some (len, from)) bytes.now }
    ensures room { length buf.new ≡ length buf.old }
{
    let from = endpoint_of(from)?;
    put_in(len, from, bytes, buf)
}

impl<D: DatagramSocket + Drop> Link for UdpLink<D> {
    ghost sends = { λ before to bytes after. (address : SocketAddrSpec) × IsAddressOf to address
        × SendsOn D.hands before.socket address bytes after.socket × (after.address ≡ before.address) };

    ghost receives = { λ before given after. (found : Option (ℕ × SocketAddrSpec)) × (bytes : List ℕ)
        × ReceivesOn D.takes before.socket bytes found after.socket × (length bytes ≡ max_datagram_len + 1)
        × (given ≡ carried_in found bytes) × (after.address ≡ before.address) };

    ghost fault_count = { λ link. link.socket.faults };

    ghost broken_count = { λ link. link.socket.broken };

    ghost told_loss = { λ link. link.socket.loss };

    ghost own_address = { λ link. link.address };

    ghost hears_refusal = { λ link. link.socket.is_refused };

    fn send(&mut self, to: Endpoint, bytes: &[u8]) {
        self.socket.send(socket_address(to), bytes);
    }

    fn receive(&mut self, buf: &mut [u8]) -> Option<(Endpoint, usize)> {
        // One byte more than the longest, so that a longer one is told from it.
        let mut bytes = [0; MAX_DATAGRAM_LEN + 1];
        let (len, from) = self.socket.receive(&mut bytes)?;
        arrived(len, from, bytes.as_slice(), buf)
    }

    fn faults(&self) -> u64 {
        self.socket.faults
    }

    fn broken_receives(&self) -> u64 {
        self.socket.broken
    }

    fn loss(&self) -> Option<io::Error> {
        self.socket.loss
    }

    fn address(&self) -> Endpoint {
        self.address
    }

    fn is_refused(&self) -> bool {
        self.socket.is_refused
    }
}
