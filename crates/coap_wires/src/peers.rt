//! Peers in print: an endpoint of IPv4 is told as it is, one that is a name by the address of IPv6 that it names.

use coap_links::{PeerNames, SixPeer};
use coap_print::EndpointWords;
use coap_types::Endpoint;
use std::alloc::Allocator;
use std::fmt;
use std::hash::BuildHasher;
use std::net::Ipv6Addr;

/// A peer in words, as 127.0.0.1:5683 or [fe80::1%2]:5683.
#[derive(Clone, Copy, Debug, PartialEq, Eq)]
pub enum PeerWords {
    /// A peer over IPv4.
    Four(Endpoint),
    /// A peer over IPv6.
    Six(SixPeer),
}

// An address of IPv6 with its zone, where it has one (RFC 4007, section 11), and a port.
fn write_six<W: fmt::Write>(f: &mut fmt::Formatter<W>, peer: &SixPeer) -> fmt::Result {
    let ip = Ipv6Addr::from_octets(peer.ip);
    let scope = peer.scope;
    let port = peer.port;
    if scope == 0 {
        write!(f, "[{ip}]:{port}")
    } else {
        write!(f, "[{ip}%{scope}]:{port}")
    }
}

impl fmt::Display for PeerWords {
    fn fmt<W: fmt::Write>(&self, f: &mut fmt::Formatter<W>) -> fmt::Result {
        match self {
            PeerWords::Four(endpoint) => {
                let words = EndpointWords(*endpoint);
                write!(f, "{words}")
            }
            PeerWords::Six(peer) => write_six(f, peer),
        }
    }
}

/// Who the peers of a link are.
pub trait Peers {
    /// A peer in words.
    fn words(&self, peer: Endpoint) -> PeerWords;
}

/// The peers of a link over IPv4.
#[derive(Clone, Copy, Debug)]
pub struct FourPeers;

impl Peers for FourPeers {
    fn words(&self, peer: Endpoint) -> PeerWords {
        PeerWords::Four(peer)
    }
}

/// The peers of a link over IPv6, by the table of their names.
#[derive(Drop)]
pub struct SixPeers<'n, S: BuildHasher + Copy + Drop, A: Allocator + Copy> {
    names: &'n PeerNames<S, A>,
}

impl<'n, S: BuildHasher + Copy + Drop, A: Allocator + Copy> SixPeers<'n, S, A> {
    /// By this table.
    pub fn new(names: &'n PeerNames<S, A>) -> SixPeers<'n, S, A> {
        SixPeers { names }
    }
}

impl<'n, S: BuildHasher + Copy + Drop, A: Allocator + Copy> Peers for SixPeers<'n, S, A> {
    fn words(&self, peer: Endpoint) -> PeerWords {
        match self.names.peer_of(&peer) {
            Some(six) => PeerWords::Six(six),
            None => PeerWords::Four(peer),
        }
    }
}
