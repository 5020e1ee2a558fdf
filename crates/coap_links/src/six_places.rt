//! Where a socket of IPv6 is, by what the system says.
ghost use Rattle.std.specs.Prelude.{◌≡◌, ◌↔◌, true, IfOk, Result, Some};
ghost use Rattle.std.specs.Net.Addr.{ipv6_segments};
ghost use Rattle.std.specs.Net.Socket.{v6_ip, v6_scope_id};
ghost use Rattle.std.specs.declared.io.Error.{Error as ErrorSpec};
ghost use Rattle.std.specs.declared.net.socket_addr.SocketAddr.{SocketAddr as SocketAddrSpec};
ghost use Rattle.std.specs.declared.net.socket_addr.SocketAddr.TheVariants.{V6};
ghost use Rattle.coap_links.specs.Bound.{IsBoundAtSix, IsLinkLocal, IsPlacedSix};

use crate::datagram_socket::BoundSocket;
use crate::socket::Socket;
use crate::udp_link::ANY_PORT;
use std::io;
use std::io::ErrorKind;
use std::net::{Ipv6Addr, SocketAddr, SocketAddrV6};

// Whether two addresses of IPv6 are one.
fn is_same_ip(asked: &Ipv6Addr, at: &Ipv6Addr) -> bool
    ensures { (result ≡ true) ↔ (ipv6_segments at.now ≡ ipv6_segments asked.now) }
{
    at.segments() == asked.segments()
}

// Whether a socket is in the zone that was asked for, where its address is one of a single link.
fn is_in_zone(asked: &SocketAddrV6, at: &SocketAddrV6) -> bool
    ensures { (result ≡ true) ↔ (IsLinkLocal (v6_ip asked.now) → v6_scope_id at.now ≡ v6_scope_id asked.now) }
{
    if asked.ip().is_unicast_link_local() {
        at.scope_id() == asked.scope_id()
    } else {
        true
    }
}

/// Whether a socket is where it was asked to be; at `ANY_PORT`, at whichever port.
pub(crate) fn is_bound_at_six(asked: &SocketAddrV6, at: &SocketAddrV6) -> bool
    ensures { (result ≡ true) ↔ IsBoundAtSix asked.now at.now }
{
    is_same_ip(asked.ip(), at.ip())
        && (asked.port() == ANY_PORT || at.port() == asked.port())
        && is_in_zone(asked, at)
}

/// Where a socket is that was asked to be there, as the system says.
pub(crate) fn place_of_six<D: BoundSocket>(
    socket: &mut Socket<D>,
    asked: &SocketAddrV6,
) -> io::Result<SocketAddrV6>
    ensures placed { (said : Result SocketAddrSpec ErrorSpec) × D.says socket.old.socket said
        × IsPlacedSix asked.now said result }
    ensures said { IfOk result (λ at. socket.new.at ≡ Some (V6 at)) }
    ensures kept { socket.new ≡ record socket.old { at = socket.new.at } }
{
    match socket.place()? {
        SocketAddr::V6(at) if is_bound_at_six(asked, &at) => Ok(at),
        _ => Err(io::Error::from(ErrorKind::AddrNotAvailable)),
    }
}
