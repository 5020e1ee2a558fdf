//! Where a server is that is asked: by its address, or by its name, which the system looks up.
ghost use Rattle.std.specs.Prelude.{◌≡◌, IfOk};
ghost use Rattle.coap_arguments.specs.declared.hosts.Address.TheVariants as addresses;
ghost use Rattle.coap_wires.specs.Hosts.{IsAmong, IsOfAddress, IsOfServer, IsOfSocket, chosen, is_four};

use coap_arguments::{Address, Host, Server};
use coap_status::{Stop, stop_of};
use coap_types::Endpoint;
use std::io;
use std::io::Write;
use std::net::{Ipv4Addr, Ipv6Addr, Net, SocketAddr, SocketAddrV6, ToSocketAddrs};

/// Where a server is that is asked.
#[derive(Clone, Copy, Debug, PartialEq, Eq)]
pub enum Peer {
    /// At this endpoint of IPv4.
    Four(Endpoint),
    /// At this address of IPv6.
    Six(SocketAddrV6),
}

// The endpoint at an address of IPv4.
fn four_at(ip: Ipv4Addr, port: u16) -> Peer
    ensures { IsOfAddress (addresses.Four ip) port result }
{
    Peer::Four(Endpoint {
        ip: ip.octets(),
        port,
    })
}

// The peer at an address of IPv6: ::ffff:a.b.c.d is a.b.c.d of IPv4 (RFC 4291, section 2.5.5.2).
fn six_at(ip: Ipv6Addr, port: u16, scope: u32) -> Peer
    ensures { IsOfAddress (addresses.Six ip scope) port result }
{
    match ip.to_ipv4_mapped() {
        Some(four) => Peer::Four(Endpoint {
            ip: four.octets(),
            port,
        }),
        None => Peer::Six(SocketAddrV6::new(ip, port, 0, scope)),
    }
}

/// The peer at this address, and this port of it.
pub fn peer_at(address: Address, port: u16) -> Peer
    // The peer is at this address and port; that of ::ffff:a.b.c.d is at a.b.c.d (RFC 4291, section 2.5.5.2).
    ensures { IsOfAddress address port result }
{
    match address {
        Address::Four(ip) => four_at(ip, port),
        Address::Six { ip, scope } => six_at(ip, port, scope),
    }
}

// The peer at a socket address.
fn peer_at_socket(address: SocketAddr) -> Peer
    ensures { IsOfSocket address result }
{
    match address {
        SocketAddr::V4(four) => four_at(*four.ip(), four.port()),
        SocketAddr::V6(six) => six_at(*six.ip(), six.port(), six.scope_id()),
    }
}

// Whether an address is one of IPv4.
fn is_four(address: &SocketAddr) -> bool
    ensures { result ≡ is_four address.now }
{
    match address {
        SocketAddr::V4(_) => true,
        SocketAddr::V6(_) => false,
    }
}

/// The address that is asked, of those that the system names: the first one of IPv4, or else the first.
#[tactic(auto, using(crate::proofs::ChosenAddresses::found_four, crate::proofs::ChosenAddresses::passed_by))]
pub fn chosen(addresses: &[SocketAddr]) -> Option<SocketAddr>
    // Of the addresses of a name the first one of IPv4 is asked, and else the first.
    ensures { result ≡ chosen addresses.now }
{
    let mut left = addresses;
    'addresses: while let Some((address, rest)) = left.split_first() {
        if is_four(address) {
            return Some(*address);
        }
        left = rest;
    }
    addresses.first().copied()
}

// The addresses that the system names.
fn looked_up<R: AllocGlobal + Net>(rt: &R, name: &str, port: u16) -> io::Result<Vec<SocketAddr>> {
    Ok((name, port).to_socket_addrs(rt)?.collect(rt.alloc())?)
}

// Where the server of this name is, which standard error says.
fn peer_named<R: AllocGlobal + Net, E: Write>(
    rt: &R,
    name: &str,
    port: u16,
    err: &mut E,
) -> Result<Peer, Stop> {
    match looked_up(rt, name, port) {
        Ok(addresses) => peer_among(name, addresses.as_slice(), err),
        Err(error) => {
            let _ = writeln!(err, "{name}: {error}");
            Err(stop_of(&error))
        }
    }
}

// Where the server of this name is, of which the system names these addresses.
fn peer_among<E: Write>(name: &str, addresses: &[SocketAddr], err: &mut E) -> Result<Peer, Stop>
    ensures { IfOk result (IsAmong addresses.now) }
{
    match chosen(addresses) {
        Some(address) => {
            let _ = writeln!(err, "{name} is at {address}");
            Ok(peer_at_socket(address))
        }
        None => {
            let _ = writeln!(err, "{name}: the system names no address");
            Err(Stop::Failed)
        }
    }
}

/// Where a server is. That of a name the system is asked, and standard error says which address is taken.
pub fn peer_of<R: AllocGlobal + Net, E: Write>(
    rt: &R,
    server: Server<'_>,
    err: &mut E,
) -> Result<Peer, Stop>
    // The peer of a server is at the address and the port that the words say; where they say a name, anywhere.
    ensures { IfOk result (IsOfServer server.entry) }
{
    match server.host {
        Host::At(address) => Ok(peer_at(address, server.port)),
        Host::Name(name) => peer_named(rt, name, server.port, err),
    }
}
