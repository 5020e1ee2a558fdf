//! Writing a capture file.
ghost use Rattle.std.specs.Prelude.{◌≡◌, ◌≤◌, ◌<◌, ◌+◌, ◌/◌, ◌^◌, ◌++◌, length, IfOk, OnOk, IsErrOf};
ghost use Rattle.coap_pcap.specs.Numbers.{low_word};
ghost use Rattle.coap_pcap.specs.Written.{file_head, packet, record_of};
ghost use Rattle.coap_pcap.specs.declared.addresses.Addresses.TheVariants.{V4, V6};
ghost use Rattle.coap_pcap.specs.declared.reasons.WriteError.TheVariants.{TooLate, TooLong};

use crate::addresses::{Addresses, SixEndpoint};
use crate::head::HEAD_LEN;
use crate::headers::{ipv4_summed, pseudo, put_ipv6_head, udp_summed};
use crate::ip::IPV4_HEADER_LEN;
use crate::reasons::WriteError;
use crate::records::MS_PER_SECOND;
use crate::udp::UDP_HEADER_LEN;
use coap_types::{Endpoint, Moment};
use std::alloc::{AllocError, Allocator};

/// The most bytes of a datagram in a packet of IPv4 (RFC 791, section 3.1; RFC 768).
pub const MAX_PAYLOAD_LEN: usize = 65_507;

const _: () = prove!(MAX_PAYLOAD_LEN == 65_535 - 20 - 8);

// A millisecond has so many microseconds.
const MICROS_PER_MS: u64 = 1_000;
// The last moment of a record, in seconds.
const LAST_SECOND: u64 = 0xffff_ffff;

// The head of a file, field by field, the lowest byte of each number first.
const FILE_HEAD: [u8; HEAD_LEN] = [
    0xd4, 0xc3, 0xb2, 0xa1, // moments are in microseconds
    2, 0, 4, 0, // version 2.4
    0, 0, 0, 0, 0, 0, 0, 0, // two fields that are 0
    0, 0, 4, 0, // the snap length, 262,144
    101, 0, 0, 0, // LINKTYPE_RAW
];

/// The head of a capture file, behind which the records stand.
#[tactic(auto, unfolding(crate::specs::Written::file_head))]
pub fn head_bytes() -> [u8; HEAD_LEN]
    // The head says version 2.4, microseconds, LINKTYPE_RAW, and numbers with the lowest byte first.
    ensures { result ≡ file_head }
{
    FILE_HEAD
}

// Adds the packet of a datagram over IPv4.
#[tactic(auto, unfolding(crate::specs::Written::packet))]
fn put_ipv4<A: Allocator + Copy>(
    out: &mut Vec<u8, A>,
    from: Endpoint,
    to: Endpoint,
    payload: &[u8],
) -> Result<(), AllocError>
    requires { length payload.now ≤ MAX_PAYLOAD_LEN }
    ensures added { OnOk result (out.new.items ≡ out.old.items ++ packet (V4 from to) payload.now) }
    ensures short { OnOk result (length out.new.items ≤ length out.old.items + 65555) }
{
    let len = (UDP_HEADER_LEN + payload.len()) as u16;
    let pseudo = pseudo(&from.ip, &to.ip, len);
    out.extend_from_slice(&ipv4_summed(IPV4_HEADER_LEN as u16 + len, from.ip, to.ip))?;
    out.extend_from_slice(&udp_summed(pseudo, from.port, to.port, payload))?;
    out.extend_from_slice(payload)
}

// Adds the packet of a datagram over IPv6.
#[tactic(auto, unfolding(crate::specs::Written::packet))]
fn put_ipv6<A: Allocator + Copy>(
    out: &mut Vec<u8, A>,
    from: SixEndpoint,
    to: SixEndpoint,
    payload: &[u8],
) -> Result<(), AllocError>
    requires { length payload.now ≤ MAX_PAYLOAD_LEN }
    ensures added { OnOk result (out.new.items ≡ out.old.items ++ packet (V6 from to) payload.now) }
    ensures short { OnOk result (length out.new.items ≤ length out.old.items + 65555) }
{
    let len = (UDP_HEADER_LEN + payload.len()) as u16;
    let pseudo = pseudo(&from.ip, &to.ip, len);
    put_ipv6_head(out, len, &from.ip, &to.ip)?;
    out.extend_from_slice(&udp_summed(pseudo, from.port, to.port, payload))?;
    out.extend_from_slice(payload)
}

fn packet_of<A: Allocator + Copy>(
    alloc: A,
    addresses: &Addresses,
    payload: &[u8],
) -> Result<Vec<u8, A>, AllocError>
    requires { length payload.now ≤ MAX_PAYLOAD_LEN }
    ensures packet { IfOk result (λ v. v.items ≡ packet addresses.now payload.now) }
    ensures short { IfOk result (λ v. length v.items ≤ 65555) }
{
    let mut out = Vec::new(alloc);
    match *addresses {
        Addresses::V4 { from, to } => put_ipv4(&mut out, from, to, payload)?,
        Addresses::V6 { from, to } => put_ipv6(&mut out, from, to, payload)?,
    }
    Ok(out)
}

// Adds a number, its lowest byte first.
fn put_word<A: Allocator>(out: &mut Vec<u8, A>, n: u32) -> Result<(), AllocError>
    ensures { OnOk result (out.new.items ≡ out.old.items ++ low_word n) }
{
    out.extend_from_slice(&n.to_le_bytes())
}

// A record of a packet.
#[tactic(auto, unfolding(crate::specs::Written::record_of))]
fn record_of<A: Allocator + Copy>(
    alloc: A,
    at: Moment,
    packet: &[u8],
) -> Result<Vec<u8, A>, AllocError>
    requires short { length packet.now < 2 ^ 32 }
    requires early { at.0 / 1000 < 2 ^ 32 }
    ensures { IfOk result (λ v. v.items ≡ record_of at.0 packet.now) }
{
    let seconds = (at.0 / MS_PER_SECOND) as u32;
    let micros = (at.0 % MS_PER_SECOND * MICROS_PER_MS) as u32;
    let len = packet.len() as u32;
    let mut out = Vec::new(alloc);
    put_word(&mut out, seconds)?;
    put_word(&mut out, micros)?;
    put_word(&mut out, len)?;
    put_word(&mut out, len)?;
    out.extend_from_slice(packet)?;
    Ok(out)
}

/// The record of a datagram, in milliseconds since 1970: a packet of IPv4 or IPv6 and UDP, with made-up headers.
pub fn record_bytes<A: Allocator + Copy>(
    alloc: A,
    at: Moment,
    addresses: &Addresses,
    payload: &[u8],
) -> Result<Vec<u8, A>, WriteError>
    // The bytes are the record of the datagram's packet, with its moment.
    ensures ok { IfOk result (λ v. v.items ≡ record_of at.0 (packet addresses.now payload.now)) }
    // A datagram is too long where no packet of IPv4 has room for it.
    ensures long { IsErrOf result TooLong → MAX_PAYLOAD_LEN < length payload.now }
    // A moment is too late where its seconds don't fit 32 bits.
    ensures late { IsErrOf result TooLate → 2 ^ 32 ≤ at.0 / 1000 }
    // Where there is a record, neither holds.
    ensures fits { OnOk result ((length payload.now ≤ MAX_PAYLOAD_LEN) × (at.0 / 1000 < 2 ^ 32)) }
{
    if payload.len() > MAX_PAYLOAD_LEN {
        return Err(WriteError::TooLong);
    }
    if at.0 / MS_PER_SECOND > LAST_SECOND {
        return Err(WriteError::TooLate);
    }
    let packet = packet_of(alloc, addresses, payload)?;
    let record = record_of(alloc, at, &packet)?;
    Ok(record)
}
