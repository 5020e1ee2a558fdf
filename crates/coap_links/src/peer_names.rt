//! Names for the peers of a socket of IPv6. An end compares endpoints and reads nothing in them: so the endpoint of
//! such a peer is a name of it, from 0.0.0.0/8, where no IPv4 datagram comes from.
ghost use Rattle.std.specs.Prelude.{◌≡◌, true, IfOk, IfSome};
ghost use Rattle.coap_names.specs.Tables.{start};
ghost use Rattle.coap_names.specs.declared.numbering.Numbering.TheVariants.{ThisNetwork};
ghost use Rattle.coap_links.specs.PeerTables.{Answers, IsNameOf, NamesPeer, SendsToName, TellsPeer, name_in};
ghost use Rattle.coap_links.specs.Sockets.{is_of_this_network};

use crate::lender::{CellLender, Lender};
use coap_names::{Names, NamesRefusal, Numbering, Places};
use coap_types::{Endpoint, Moment};
use std::alloc::{AllocError, Allocator};
use std::cell::RefCell;
use std::hash::BuildHasher;

/// The peer of a datagram over IPv6.
#[derive(Clone, Copy, Debug, PartialEq, Eq, Hash)]
pub struct SixPeer {
    /// Its address.
    pub ip: [u8; 16],
    /// Its port.
    pub port: u16,
    /// The zone of a link-local address, 0 for others (RFC 4007, section 6).
    pub scope: u32,
}

/// Whether an endpoint is in 0.0.0.0/8, "this network" (RFC 1122, section 3.2.1.3): then it is a name.
pub(crate) fn is_name(endpoint: Endpoint) -> bool
    ensures { result ≡ is_of_this_network endpoint.ip }
{
    match endpoint.ip {
        [0, ..] => true,
        _ => false,
    }
}

// A table of so many names of "this network", of which none is given yet.
fn table_of<S: BuildHasher + Copy + Drop, A: Allocator + Copy>(
    alloc: A,
    most: Places,
    hasher: S,
) -> Result<Names<SixPeer, S, A>, AllocError>
    ensures { IfOk result (λ names. names ≡ start (record { most = most; numbering = ThisNetwork })) }
{
    Names::with_hasher(alloc, most, Numbering::ThisNetwork, hasher)
}

// The name of an answer, where it is a name of "this network".
fn name_in(answer: Result<Endpoint, NamesRefusal>) -> Option<Endpoint>
    ensures exact { result ≡ name_in answer }
    ensures name { IfSome result (λ name. is_of_this_network name.ip ≡ true) }
{
    match answer {
        Ok(name) if is_name(name) => Some(name),
        Ok(_) | Err(_) => None,
    }
}

// What a table answers where a datagram came from a peer.
fn answer_of<S: BuildHasher + Copy + Drop, A: Allocator + Copy>(
    names: &mut Names<SixPeer, S, A>,
    now: Moment,
    peer: &SixPeer,
) -> Result<Endpoint, NamesRefusal>
    ensures { Answers names.old now.0 peer.now result names.new }
{
    names.name_of(now, peer)
}

// The name that a table gives a peer from which a datagram came.
fn name_by<S: BuildHasher + Copy + Drop, A: Allocator + Copy>(
    names: &mut Names<SixPeer, S, A>,
    now: Moment,
    peer: &SixPeer,
) -> Option<Endpoint>
    ensures exact { IsNameOf names.old now.0 peer.now result names.new }
    ensures name { IfSome result (λ name. is_of_this_network name.ip ≡ true) }
{
    name_in(answer_of(names, now, peer))
}

/// The names of the peers of a socket of IPv6, which its link and those who tell of it share. A peer keeps its name for
/// 247 s after the last datagram from it or to it, and no name is given again (`coap_names`).
#[derive(Drop)]
pub struct PeerNames<
    S: BuildHasher + Copy + Drop,
    A: Allocator + Copy,
    L: Lender + Drop = CellLender,
> {
    names: RefCell<Names<SixPeer, S, A>>,
    lender: L,
}

impl<S: BuildHasher + Copy + Drop, A: Allocator + Copy> PeerNames<S, A> {
    /// Names for so many peers at once, of which none is named yet.
    pub fn new(alloc: A, most: Places, hasher: S) -> Result<PeerNames<S, A>, AllocError> {
        let names = table_of(alloc, most, hasher)?;
        Ok(PeerNames {
            names: RefCell::new(names),
            lender: CellLender,
        })
    }
}

impl<S: BuildHasher + Copy + Drop, A: Allocator + Copy, L: Lender + Drop> PeerNames<S, A, L> {
    /// The name of a peer from which a datagram came at this moment. None where each place is taken, or there is no
    /// memory.
    pub fn name_of(&self, now: Moment, peer: &SixPeer) -> Option<Endpoint>
        // A name is in 0.0.0.0/8, so that it is no endpoint of IPv4.
        ensures name { IfSome result (λ name. is_of_this_network name.ip ≡ true) }
        // A peer has the name that the table gives it; none where the table refuses it one, or is lent to another.
        ensures named { NamesPeer L.is_lent now.0 peer.now result }
    {
        match self.lender.lend(&self.names) {
            Some(mut names) => name_by(&mut *names, now, peer),
            None => None,
        }
    }

    /// The peer of a name, to which a datagram goes at this moment. None where the name is nobody's.
    pub fn sent(&self, now: Moment, name: &Endpoint) -> Option<SixPeer>
        // A datagram goes to the peer that has this name in the table; to none where none has, or the table is lent.
        ensures { SendsToName L.is_lent now.0 name.now result }
    {
        match self.lender.lend(&self.names) {
            Some(mut names) => names.sent(now, name),
            None => None,
        }
    }

    /// The peer of a name. None where the name is nobody's.
    pub fn peer_of(&self, name: &Endpoint) -> Option<SixPeer>
        // The peer that is told is the one that has this name in the table; none where none has, or the table is lent.
        ensures { TellsPeer L.is_lent name.now result }
    {
        match self.lender.show(&self.names) {
            Some(names) => names.key_of(name).copied(),
            None => None,
        }
    }
}
