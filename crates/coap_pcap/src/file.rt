//! Reading a capture file.
ghost use Rattle.std.specs.Prelude.{◌≡◌, ◌≤◌, ◌+◌, length, map, Ok, IfOk, IfErr, OnErr};
ghost use Rattle.coap_pcap.specs.Files.{Fails, IsFaulty, Tells, count, head_of, is_skipped, left_out_of, seen};

use crate::head::{HEAD_LEN, Head, read_head};
use crate::link::datagram_in;
use crate::packets::Packet;
use crate::reasons::{ReadError, Skip};
use crate::records::{RECORD_HEAD_LEN, record_at};
use std::alloc::Allocator;

// The packets behind a head.
fn read_packets<'a, A: Allocator + Copy>(
    alloc: A,
    head: &Head,
    bytes: &'a [u8],
) -> Result<Vec<Packet<'a>, A>, ReadError>
    requires long { HEAD_LEN ≤ length bytes.now }
    requires head { head_of bytes.now ≡ Ok head.now }
    ensures found { IfOk result (λ v. Tells bytes.now (map seen v.items)) }
    ensures faulty { IfErr result (Fails bytes.now) }
{
    let mut packets = Vec::new(alloc);
    let mut place = HEAD_LEN;
    let mut rest = &bytes[HEAD_LEN..];
    while !rest.is_empty() {
        let taken = match record_at(head, place, rest) {
            Ok(taken) => taken,
            Err(fault) => return Err(ReadError::Fault(fault)),
        };
        let at = taken.at;
        let found = datagram_in(head.link, taken.packet);
        packets.push(Packet { at, found })?;
        place += RECORD_HEAD_LEN + taken.packet.len();
        rest = taken.rest;
    }
    Ok(packets)
}

/// Reads a capture file: what each of its packets is found to be, in their order, or the first fault of the file.
pub fn read<A: Allocator + Copy>(alloc: A, bytes: &[u8]) -> Result<Vec<Packet<'_>, A>, ReadError>
    // What is read are the packets of the file, each once and in their order.
    ensures found { IfOk result (λ v. Tells bytes.now (map seen v.items)) }
    // A file is refused only for its first fault, or for want of memory.
    ensures faulty { IfErr result (Fails bytes.now) }
{
    match read_head(bytes) {
        Ok(head) => read_packets(alloc, &head, bytes),
        Err(fault) => Err(ReadError::Fault(fault)),
    }
}

/// How many packets of a capture are left out, by the reason.
#[derive(Clone, Copy, Debug, PartialEq, Eq)]
pub struct LeftOut {
    /// That aren't UDP.
    pub not_udp: usize,
    /// That are fragments.
    pub fragments: usize,
    /// That were captured in part.
    pub cut: usize,
}

// Whether a packet is left out for this reason.
fn is_skipped(skip: Skip, packet: &Packet<'_>) -> bool
    ensures { result ≡ is_skipped skip (seen packet.now) }
{
    match (packet.found, skip) {
        (Err(Skip::NotUdp), Skip::NotUdp) => true,
        (Err(Skip::Fragment), Skip::Fragment) => true,
        (Err(Skip::Cut), Skip::Cut) => true,
        _ => false,
    }
}

// How many packets are.
fn count(skip: Skip, packets: &[Packet<'_>]) -> usize
    ensures { result ≡ count skip (map seen packets.now) }
{
    let mut n = 0;
    for packet in packets {
        if is_skipped(skip, packet) {
            n += 1;
        }
    }
    n
}

/// How many packets of a capture are left out.
pub fn left_out(packets: &[Packet<'_>]) -> LeftOut
    // Each packet that is left out is counted once, under its reason.
    ensures { result ≡ left_out_of (map seen packets.now) }
{
    LeftOut {
        not_udp: count(Skip::NotUdp, packets),
        fragments: count(Skip::Fragment, packets),
        cut: count(Skip::Cut, packets),
    }
}
