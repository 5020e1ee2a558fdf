//! The datagram in an IP packet: IPv4 (RFC 791, section 3.1), IPv6 (RFC 8200, sections 3 and 4).
ghost use Rattle.std.specs.Prelude.{◌≡◌, ◌≤◌, ◌<◌, ◌+◌, ◌∷◌, [], length, take, drop, OnOk};
ghost use Rattle.coap_pcap.specs.Files.{datagram_seen};
ghost use Rattle.coap_pcap.specs.Packets.{Gives, behind_extensions, extension_len, ipv4_body, ipv4_datagram};
ghost use Rattle.coap_pcap.specs.Packets.{ipv4_header, ipv6_body, ipv6_datagram, is_extension, is_fragment, is_ipv4};
ghost use Rattle.coap_pcap.specs.Packets.{version};

use crate::addresses::{Addresses, SixEndpoint};
use crate::fields::{Order, half_at};
use crate::packets::Datagram;
use crate::reasons::Skip;
use crate::udp::udp_at;
use coap_types::Endpoint;

/// The length of an IPv4 header without options.
pub(crate) const IPV4_HEADER_LEN: usize = 20;
/// The length of an IPv6 header.
pub(crate) const IPV6_HEADER_LEN: usize = 40;
/// The protocol number of UDP.
pub(crate) const UDP: u8 = 17;

// The places of the fields of an IPv4 header.
const TOTAL_AT: usize = 2;

const FRAGMENT_AT: usize = 6;

const PROTOCOL_AT: usize = 9;

const SOURCE_AT: usize = 12;

const DESTINATION_AT: usize = 16;
// Whether more fragments follow and the place of this one, beside the two bits in front.
const FRAGMENT_BITS: u16 = 1 << 14;

// The places of the fields of an IPv6 header.
const SIX_LENGTH_AT: usize = 4;

const SIX_NEXT_AT: usize = 6;

const SIX_SOURCE_AT: usize = 8;

const SIX_DESTINATION_AT: usize = 24;

// The kinds of extension headers.
const HOP_BY_HOP: u8 = 0;

const ROUTING: u8 = 43;

const FRAGMENT: u8 = 44;

const DESTINATION_OPTIONS: u8 = 60;
// The least length of one, and how many there may be: each once, and destination options twice (RFC 8200, section 4.1).
const EXTENSION_LEN: usize = 8;

const MAX_EXTENSIONS: u8 = 8;

/// The version of an IP packet.
pub(crate) fn version(bytes: &[u8]) -> u8
    requires { 1 ≤ length bytes.now }
    ensures { result ≡ version bytes.now }
{
    bytes[0] / 16
}

fn ipv4_header(bytes: &[u8]) -> usize
    requires { 1 ≤ length bytes.now }
    ensures { result ≡ ipv4_header bytes.now }
{
    4 * (bytes[0] % 16) as usize
}

#[tactic(auto, unfolding(crate::specs::Packets::is_ipv4))]
fn is_ipv4(bytes: &[u8]) -> bool
    requires { 20 ≤ length bytes.now }
    ensures { result ≡ is_ipv4 bytes.now }
{
    version(bytes) == 4 && IPV4_HEADER_LEN <= ipv4_header(bytes)
}

#[tactic(auto, unfolding(crate::specs::Packets::is_fragment))]
fn is_fragment(bytes: &[u8]) -> bool
    requires { 20 ≤ length bytes.now }
    ensures { result ≡ is_fragment bytes.now }
{
    half_at(Order::Big, bytes, FRAGMENT_AT) % FRAGMENT_BITS != 0
}

// What is behind the header of an IPv4 packet that carries UDP.
#[tactic(auto, unfolding(crate::specs::Packets::ipv4_body))]
fn ipv4_body(bytes: &[u8]) -> Result<&[u8], Skip>
    ensures body { Gives (λ body. body.now) result (ipv4_body bytes.now) }
    ensures long { OnOk result (20 ≤ length bytes.now) }
{
    if bytes.len() < IPV4_HEADER_LEN {
        return Err(Skip::Cut);
    }
    if !is_ipv4(bytes) {
        return Err(Skip::NotUdp);
    }
    let header = ipv4_header(bytes);
    let total = half_at(Order::Big, bytes, TOTAL_AT) as usize;
    if total < header {
        return Err(Skip::NotUdp);
    }
    if bytes[PROTOCOL_AT] != UDP {
        return Err(Skip::NotUdp);
    }
    if is_fragment(bytes) {
        return Err(Skip::Fragment);
    }
    if bytes.len() < total {
        return Err(Skip::Cut);
    }
    Ok(&bytes[header..total])
}

fn ipv4_address(bytes: &[u8], at: usize) -> [u8; 4]
    requires { at + 4 ≤ length bytes.now }
    ensures { result ≡ take 4 (drop at bytes.now) }
{
    let mut ip = [0; 4];
    ip.copy_from_slice(&bytes[at..at + 4]);
    ip
}

fn ipv6_address(bytes: &[u8], at: usize) -> [u8; 16]
    requires { at + 16 ≤ length bytes.now }
    ensures { result ≡ take 16 (drop at bytes.now) }
{
    let mut ip = [0; 16];
    ip.copy_from_slice(&bytes[at..at + 16]);
    ip
}

/// The datagram in an IPv4 packet.
#[tactic(auto, unfolding(crate::specs::Packets::ipv4_datagram))]
pub(crate) fn ipv4_datagram(bytes: &[u8]) -> Result<Datagram<'_>, Skip>
    ensures { Gives datagram_seen result (ipv4_datagram bytes.now) }
{
    let body = ipv4_body(bytes)?;
    let udp = udp_at(body)?;
    let from = Endpoint {
        ip: ipv4_address(bytes, SOURCE_AT),
        port: udp.source,
    };
    let to = Endpoint {
        ip: ipv4_address(bytes, DESTINATION_AT),
        port: udp.destination,
    };
    Ok(Datagram {
        addresses: Addresses::V4 { from, to },
        payload: udp.payload,
    })
}

#[tactic(auto, unfolding(crate::specs::Packets::is_extension))]
fn is_extension(kind: u8) -> bool
    ensures { result ≡ is_extension kind }
{
    kind == HOP_BY_HOP || kind == ROUTING || kind == DESTINATION_OPTIONS
}

fn extension_len(bytes: &[u8]) -> usize
    requires { 2 ≤ length bytes.now }
    ensures { result ≡ extension_len bytes.now }
{
    EXTENSION_LEN * (bytes[1] as usize + 1)
}

// What is behind at most so many extension headers, of which the first is of this kind.
#[tactic(auto, unfolding(crate::specs::Packets::behind_extensions))]
fn behind_extensions(most: u8, kind: u8, bytes: &[u8]) -> Result<&[u8], Skip>
    ensures { Gives (λ body. body.now) result (behind_extensions most kind bytes.now) }
{
    if most == 0 {
        return Err(Skip::NotUdp);
    }
    if kind == UDP {
        return Ok(bytes);
    }
    if kind == FRAGMENT {
        return Err(Skip::Fragment);
    }
    if !is_extension(kind) {
        return Err(Skip::NotUdp);
    }
    if bytes.len() < EXTENSION_LEN {
        return Err(Skip::Cut);
    }
    let len = extension_len(bytes);
    if bytes.len() < len {
        return Err(Skip::Cut);
    }
    behind_extensions(most - 1, bytes[0], &bytes[len..])
}

// So many bytes behind an IPv6 header, or all where there are fewer.
fn behind_header(len: usize, bytes: &[u8]) -> &[u8]
    requires { IPV6_HEADER_LEN ≤ length bytes.now }
    ensures { result.now ≡ take len (drop 40 bytes.now) }
{
    if bytes.len() - IPV6_HEADER_LEN < len {
        &bytes[IPV6_HEADER_LEN..]
    } else {
        &bytes[IPV6_HEADER_LEN..IPV6_HEADER_LEN + len]
    }
}

// What is behind the headers of an IPv6 packet that carries UDP.
#[tactic(auto, unfolding(crate::specs::Packets::ipv6_body))]
fn ipv6_body(bytes: &[u8]) -> Result<&[u8], Skip>
    ensures body { Gives (λ body. body.now) result (ipv6_body bytes.now) }
    ensures long { OnOk result (40 ≤ length bytes.now) }
{
    if bytes.len() < IPV6_HEADER_LEN {
        return Err(Skip::Cut);
    }
    if version(bytes) != 6 {
        return Err(Skip::NotUdp);
    }
    let len = half_at(Order::Big, bytes, SIX_LENGTH_AT) as usize;
    let body = behind_header(len, bytes);
    behind_extensions(MAX_EXTENSIONS, bytes[SIX_NEXT_AT], body)
}

/// The datagram in an IPv6 packet.
#[tactic(auto, unfolding(crate::specs::Packets::ipv6_datagram))]
pub(crate) fn ipv6_datagram(bytes: &[u8]) -> Result<Datagram<'_>, Skip>
    ensures { Gives datagram_seen result (ipv6_datagram bytes.now) }
{
    let body = ipv6_body(bytes)?;
    let udp = udp_at(body)?;
    let from = SixEndpoint {
        ip: ipv6_address(bytes, SIX_SOURCE_AT),
        port: udp.source,
    };
    let to = SixEndpoint {
        ip: ipv6_address(bytes, SIX_DESTINATION_AT),
        port: udp.destination,
    };
    Ok(Datagram {
        addresses: Addresses::V6 { from, to },
        payload: udp.payload,
    })
}
