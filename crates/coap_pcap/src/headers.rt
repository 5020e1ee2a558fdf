//! The headers of what is written: made up, but with right lengths and checksums.
ghost use Rattle.std.specs.Prelude.{◌≡◌, ◌<◌, ◌+◌, ◌++◌, ◌^◌, length, OnOk};
ghost use Rattle.coap_pcap.specs.Written.{ipv4_head, ipv4_summed, ipv6_head, pseudo, udp_head, udp_summed};

use crate::checksum::{complement, complement_of_udp, sum_on};
use crate::ip::{IPV4_HEADER_LEN, UDP};
use crate::udp::UDP_HEADER_LEN;
use std::alloc::{AllocError, Allocator};

// Version 4 and five words; version 6.
const IPV4_FRONT: u8 = 0x45;

const IPV6_FRONT: u8 = 0x60;
// The flag that says: not to be fragmented.
const DONT_FRAGMENT: u8 = 0x40;
// How many hosts may pass a packet on.
const HOPS: u8 = 64;

// An IPv4 header with this checksum.
#[tactic(auto, unfolding(crate::specs::Written::ipv4_head))]
fn ipv4_head(sum: u16, len: u16, from: [u8; 4], to: [u8; 4]) -> [u8; IPV4_HEADER_LEN]
    ensures { result ≡ ipv4_head sum len from to }
{
    let len = len.to_be_bytes();
    let sum = sum.to_be_bytes();
    [
        IPV4_FRONT,
        0,
        len[0],
        len[1],
        0,
        0,
        DONT_FRAGMENT,
        0,
        HOPS,
        UDP,
        sum[0],
        sum[1],
        from[0],
        from[1],
        from[2],
        from[3],
        to[0],
        to[1],
        to[2],
        to[3],
    ]
}

/// An IPv4 header with its checksum, for a packet of this length.
#[tactic(auto, unfolding(crate::specs::Written::ipv4_summed))]
pub(crate) fn ipv4_summed(len: u16, from: [u8; 4], to: [u8; 4]) -> [u8; IPV4_HEADER_LEN]
    ensures { result ≡ ipv4_summed len from to }
{
    let bare = ipv4_head(0, len, from, to);
    ipv4_head(complement(sum_on(0, &bare)), len, from, to)
}

// The header of UDP with this checksum.
#[tactic(auto, unfolding(crate::specs::Written::udp_head))]
fn udp_head(source: u16, destination: u16, len: u16, sum: u16) -> [u8; UDP_HEADER_LEN]
    ensures { result ≡ udp_head source destination len sum }
{
    let source = source.to_be_bytes();
    let destination = destination.to_be_bytes();
    let len = len.to_be_bytes();
    let sum = sum.to_be_bytes();
    [
        source[0],
        source[1],
        destination[0],
        destination[1],
        len[0],
        len[1],
        sum[0],
        sum[1],
    ]
}

/// The header of UDP with its checksum, which goes on from the sum of a pseudo header.
#[tactic(auto, unfolding(crate::specs::Written::udp_summed))]
pub(crate) fn udp_summed(
    pseudo: u16,
    source: u16,
    destination: u16,
    payload: &[u8],
) -> [u8; UDP_HEADER_LEN]
    requires { UDP_HEADER_LEN + length payload.now < 2 ^ 16 }
    ensures { result ≡ udp_summed pseudo source destination payload.now }
{
    let len = (UDP_HEADER_LEN + payload.len()) as u16;
    let bare = udp_head(source, destination, len, 0);
    let sum = sum_on(sum_on(pseudo, &bare), payload);
    udp_head(source, destination, len, complement_of_udp(sum))
}

/// The sum of a pseudo header.
#[tactic(auto, unfolding(crate::specs::Written::pseudo))]
pub(crate) fn pseudo(from: &[u8], to: &[u8], len: u16) -> u16
    ensures { result ≡ pseudo from.now to.now len }
{
    let len = len.to_be_bytes();
    sum_on(sum_on(sum_on(0, from), to), &[0, UDP, len[0], len[1]])
}

/// An IPv6 header, for this length behind it.
#[tactic(auto, unfolding(crate::specs::Written::ipv6_head))]
pub(crate) fn put_ipv6_head<A: Allocator + Copy>(
    out: &mut Vec<u8, A>,
    len: u16,
    from: &[u8; 16],
    to: &[u8; 16],
) -> Result<(), AllocError>
    ensures added { OnOk result (out.new.items ≡ out.old.items ++ ipv6_head len from.now to.now) }
    ensures length { OnOk result (length out.new.items ≡ length out.old.items + 40) }
{
    let len = len.to_be_bytes();
    out.extend_from_slice(&[IPV6_FRONT, 0, 0, 0, len[0], len[1], UDP, HOPS])?;
    out.extend_from_slice(from)?;
    out.extend_from_slice(to)
}
