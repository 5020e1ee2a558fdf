//! The link types of a capture, and the datagram in what a link carried.
ghost use Rattle.std.specs.Prelude.{◌≡◌, ◌≤◌, ◌<◌, ◌+◌, length, drop};
ghost use Rattle.coap_pcap.specs.Files.{datagram_seen};
ghost use Rattle.coap_pcap.specs.Links.{behind_tags, by_cooked, by_family, by_version, datagram_in, in_frame};
ghost use Rattle.coap_pcap.specs.Links.{is_inet6, is_tag, link_of, of_protocol};
ghost use Rattle.coap_pcap.specs.Packets.{Gives};

use crate::fields::{Order, half_at, word_at};
use crate::ip::{ipv4_datagram, ipv6_datagram, version};
use crate::packets::Datagram;
use crate::reasons::Skip;

/// LINKTYPE_NULL.
const NULL: u32 = 0;
/// LINKTYPE_ETHERNET.
const ETHERNET: u32 = 1;
/// LINKTYPE_RAW.
const RAW: u32 = 101;
/// LINKTYPE_LINUX_SLL.
const LINUX_SLL: u32 = 113;
/// LINKTYPE_LINUX_SLL2.
const LINUX_SLL2: u32 = 276;

// The EtherType of IPv4, of IPv6, and of two tags of a VLAN.
const IPV4: u16 = 0x0800;

const IPV6: u16 = 0x86dd;

const VLAN: u16 = 0x8100;

const SERVICE_VLAN: u16 = 0x88a8;

// The address families: of IPv4, and of IPv6 in NetBSD and OpenBSD, in FreeBSD, in macOS.
const AF_INET: u32 = 2;

const AF_INET6: [u32; 3] = [24, 28, 30];

const FAMILY_LEN: usize = 4;

// The addresses in front of the EtherType of a frame.
const ETHERNET_ADDRESSES_LEN: usize = 12;

// Where the protocol stands in the two cooked headers, and how long they are.
const SLL_PROTOCOL_AT: usize = 14;

const SLL_LEN: usize = 16;

const SLL2_PROTOCOL_AT: usize = 0;

const SLL2_LEN: usize = 20;

/// What the packets of a capture begin with.
#[derive(Clone, Copy, Debug, PartialEq, Eq)]
pub enum Link {
    /// An address family, of a loopback of BSD or macOS (LINKTYPE_NULL, 0).
    Null,
    /// A header of Ethernet, with tags of VLANs or without (LINKTYPE_ETHERNET, 1).
    Ethernet,
    /// A header of IPv4 or IPv6 (LINKTYPE_RAW, 101).
    Raw,
    /// A "cooked" header of Linux (LINKTYPE_LINUX_SLL, 113).
    Cooked,
    /// A newer one (LINKTYPE_LINUX_SLL2, 276).
    Cooked2,
}

/// The link type of a number.
pub(crate) fn link_of(number: u32) -> Option<Link>
    ensures { result ≡ link_of number }
{
    match number {
        NULL => Some(Link::Null),
        ETHERNET => Some(Link::Ethernet),
        RAW => Some(Link::Raw),
        LINUX_SLL => Some(Link::Cooked),
        LINUX_SLL2 => Some(Link::Cooked2),
        _ => None,
    }
}

// The datagram in a packet of this EtherType.
#[tactic(auto, unfolding(crate::specs::Links::of_protocol))]
fn of_protocol(protocol: u16, bytes: &[u8]) -> Result<Datagram<'_>, Skip>
    ensures { Gives datagram_seen result (of_protocol protocol bytes.now) }
{
    match protocol {
        IPV4 => ipv4_datagram(bytes),
        IPV6 => ipv6_datagram(bytes),
        _ => Err(Skip::NotUdp),
    }
}

#[tactic(auto, unfolding(crate::specs::Links::is_tag))]
fn is_tag(protocol: u16) -> bool
    ensures { result ≡ is_tag protocol }
{
    protocol == VLAN || protocol == SERVICE_VLAN
}

// The datagram behind an EtherType, and any tags in front of it.
fn behind_tags(bytes: &[u8]) -> Result<Datagram<'_>, Skip>
    ensures { Gives datagram_seen result (behind_tags bytes.now) }
{
    let mut rest = bytes;
    while let [a, b, _, _, more @ ..] = rest {
        let protocol = u16::from_be_bytes([*a, *b]);
        if !is_tag(protocol) {
            return of_protocol(protocol, &rest[2..]);
        }
        rest = more;
    }
    Err(Skip::Cut)
}

// The datagram in a packet that begins with an IP header.
#[tactic(auto, unfolding(crate::specs::Links::by_version))]
fn by_version(bytes: &[u8]) -> Result<Datagram<'_>, Skip>
    ensures { Gives datagram_seen result (by_version bytes.now) }
{
    if bytes.is_empty() {
        return Err(Skip::Cut);
    }
    match version(bytes) {
        4 => ipv4_datagram(bytes),
        6 => ipv6_datagram(bytes),
        _ => Err(Skip::NotUdp),
    }
}

fn is_inet6(family: u32) -> bool
    ensures { result ≡ is_inet6 family }
{
    family == AF_INET6[0] || family == AF_INET6[1] || family == AF_INET6[2]
}

// The datagram in a packet that begins with an address family, in the byte order of some host.
#[tactic(auto, unfolding(crate::specs::Links::by_family))]
fn by_family(bytes: &[u8]) -> Result<Datagram<'_>, Skip>
    ensures { Gives datagram_seen result (by_family bytes.now) }
{
    if bytes.len() < FAMILY_LEN {
        return Err(Skip::Cut);
    }
    let little = word_at(Order::Little, bytes, 0);
    let big = word_at(Order::Big, bytes, 0);
    if little == AF_INET || big == AF_INET {
        ipv4_datagram(&bytes[FAMILY_LEN..])
    } else if is_inet6(little) || is_inet6(big) {
        ipv6_datagram(&bytes[FAMILY_LEN..])
    } else {
        Err(Skip::NotUdp)
    }
}

// The datagram behind a cooked header of this length, with the protocol at this place.
#[tactic(auto, unfolding(crate::specs::Links::by_cooked))]
fn by_cooked(at: usize, len: usize, bytes: &[u8]) -> Result<Datagram<'_>, Skip>
    requires { at + 2 ≤ len }
    ensures { Gives datagram_seen result (by_cooked at len bytes.now) }
{
    if bytes.len() < len {
        return Err(Skip::Cut);
    }
    of_protocol(half_at(Order::Big, bytes, at), &bytes[len..])
}

// The datagram in an Ethernet frame.
fn in_frame(bytes: &[u8]) -> Result<Datagram<'_>, Skip>
    ensures { Gives datagram_seen result (in_frame bytes.now) }
{
    if bytes.len() < ETHERNET_ADDRESSES_LEN {
        return Err(Skip::Cut);
    }
    behind_tags(&bytes[ETHERNET_ADDRESSES_LEN..])
}

/// The datagram in what a link of this type carried.
#[tactic(auto, unfolding(crate::specs::Links::datagram_in))]
pub(crate) fn datagram_in(link: Link, bytes: &[u8]) -> Result<Datagram<'_>, Skip>
    ensures { Gives datagram_seen result (datagram_in link bytes.now) }
{
    match link {
        Link::Null => by_family(bytes),
        Link::Ethernet => in_frame(bytes),
        Link::Raw => by_version(bytes),
        Link::Cooked => by_cooked(SLL_PROTOCOL_AT, SLL_LEN, bytes),
        Link::Cooked2 => by_cooked(SLL2_PROTOCOL_AT, SLL2_LEN, bytes),
    }
}
