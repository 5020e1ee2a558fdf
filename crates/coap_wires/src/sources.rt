//! Links over sockets of IPv4 and of IPv6.
ghost use Rattle.std.specs.Prelude.{◌≡◌, true};
ghost use Rattle.coap_links.specs.Sockets.{is_of_this_network};

use crate::capturing::{FourStanding, SixStanding, Standing};
use crate::link_source::LinkSource;
use crate::peers::{FourPeers, PeerWords, Peers, SixPeers};
use crate::timekeeper::ProgramTime;
use coap_links::{PeerNames, SixPeer, Udp6Link, UdpLink};
use coap_names::Places;
use coap_pcap::SixEndpoint;
use coap_status::Stop;
use coap_types::Endpoint;
use std::alloc::{Allocator, Global};
use std::hash::{BuildHasher, RandomState};
use std::io;
use std::net::{Net, SocketAddrV6};
use std::random::RandomSource;
use std::rt::Clock;

/// How many peers over IPv6 have names at once: the server, and each endpoint at which a client of it was in the last
/// 247 s.
pub const MAX_PEERS: u32 = 1_024;

const _: () = prove!(MAX_PEERS == 1_024);

/// Names for so many peers over IPv6 at once.
pub fn names_for<R: AllocGlobal + RandomSource>(
    rt: &R,
    most: u32,
) -> Result<PeerNames<RandomState, Global>, Stop> {
    let Some(places) = Places::new(most) else {
        return Err(Stop::Memory);
    };
    Ok(PeerNames::new(rt.alloc(), places, RandomState::new(rt)?)?)
}

/// Who the ends of a source's links are.
pub trait Ends: LinkSource {
    /// Between which addresses the datagrams of a link go.
    type Own: Standing + Drop;

    /// Who its peers are.
    type Peers: Peers + Drop;

    /// Between which addresses the datagrams of a link go that is there.
    fn own(&self, address: Endpoint) -> Self::Own;

    /// Who its peers are.
    fn peers(&self) -> Self::Peers;

    /// The server in words.
    fn server(&self) -> PeerWords;
}

/// Links over IPv4.
#[derive(Drop)]
pub struct FourSource<'r, R> {
    /// The sockets of the system.
    pub net: &'r R,
    /// The server.
    pub server: Endpoint,
}

impl<'r, R: Net> LinkSource for FourSource<'r, R> {
    type Link = UdpLink;

    ghost reaches = { λ source endpoint. endpoint ≡ source.server };

    fn open(&self) -> io::Result<(UdpLink, Endpoint)> {
        let link = UdpLink::client(self.net, self.server)?;
        Ok((link, self.server))
    }
}

impl<'r, R: Net> Ends for FourSource<'r, R> {
    type Own = FourStanding;

    type Peers = FourPeers;

    fn own(&self, address: Endpoint) -> FourStanding {
        FourStanding { own: address }
    }

    fn peers(&self) -> FourPeers {
        FourPeers
    }

    fn server(&self) -> PeerWords {
        PeerWords::Four(self.server)
    }
}

/// Links over IPv6.
#[derive(Drop)]
pub struct SixSource<'r, 'n, R: Clock, S: BuildHasher + Copy + Drop, A: Allocator + Copy> {
    /// The sockets of the system.
    pub net: &'r R,
    /// The server.
    pub server: SocketAddrV6,
    /// The names of the links' peers.
    pub names: &'n PeerNames<S, A>,
    /// The clock by which names are forgotten.
    pub time: ProgramTime<'r, R>,
}

impl<'r, 'n, R: Net + Clock, S: BuildHasher + Copy + Drop, A: Allocator + Copy> LinkSource
    for SixSource<'r, 'n, R, S, A> {
    type Link = Udp6Link<'n, S, A, ProgramTime<'r, R>>;

    ghost reaches = { λ _ endpoint. is_of_this_network endpoint.ip ≡ true };

    fn open(&self) -> io::Result<(Udp6Link<'n, S, A, ProgramTime<'r, R>>, Endpoint)> {
        Udp6Link::client(self.net, self.server, self.names, self.time.again())
    }
}

// An endpoint of IPv6 that no datagram comes from.
const NOWHERE: SixEndpoint = SixEndpoint {
    ip: [0; 16],
    port: 0,
};

/// The endpoint of IPv6 that has this name, as a link's own.
pub fn own_six<S: BuildHasher + Copy + Drop, A: Allocator + Copy>(
    names: &PeerNames<S, A>,
    name: Endpoint,
) -> SixEndpoint {
    match names.peer_of(&name) {
        Some(own) => {
            let ip = own.ip;
            let port = own.port;
            SixEndpoint { ip, port }
        }
        None => NOWHERE,
    }
}

impl<'r, 'n, R: Net + Clock, S: BuildHasher + Copy + Drop, A: Allocator + Copy> Ends
    for SixSource<'r, 'n, R, S, A> {
    type Own = SixStanding<'n, S, A>;

    type Peers = SixPeers<'n, S, A>;

    fn own(&self, address: Endpoint) -> SixStanding<'n, S, A> {
        SixStanding::new(own_six(self.names, address), self.names)
    }

    fn peers(&self) -> SixPeers<'n, S, A> {
        SixPeers::new(self.names)
    }

    fn server(&self) -> PeerWords {
        let ip = self.server.ip().octets();
        let port = self.server.port();
        let scope = self.server.scope_id();
        PeerWords::Six(SixPeer { ip, port, scope })
    }
}
