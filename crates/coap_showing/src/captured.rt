//! `dump --pcap`: the datagrams of a capture in words.
ghost use Rattle.std.specs.Prelude.{◌≡◌, ℕ, List, true, false, IfOk, IfSome, map};
ghost use Rattle.coap_pcap.specs.Files.{seen};
ghost use Rattle.coap_showing.specs.Captured.{IsCaptureStatus, IsPacketsStatus, IsSpelled};
ghost use Rattle.coap_print.specs.Spelled.{Spelled};
ghost use Rattle.coap_status.specs.declared.status.Status.TheVariants as statuses;

use crate::captured_chart::draw_packets;
use crate::dumping::dump_datagram;
use coap_codec::decode;
use coap_pcap::{Fault, LeftOut, Packet, ReadError, left_out, read};
use coap_print::Printing;
use coap_status::{Status, Stop, stop_of};
use std::alloc::Global;
use std::fs;
use std::io::{Read, Write};
use std::rt::Files;

// Whether a packet is no datagram, or one that spells a message.
fn is_spelled(packet: &Packet<'_>) -> bool
    ensures yes { result ≡ true → IsSpelled (seen packet.now) }
    ensures no { result ≡ false → IsSpelled (seen packet.now) → ⊥ }
{
    match packet.found {
        Ok(datagram) => spells(datagram.payload),
        Err(_) => true,
    }
}

// Whether bytes spell a message.
fn spells(bytes: &[u8]) -> bool
    ensures yes { result ≡ true → Spelled bytes.now }
    ensures no { result ≡ false → Spelled bytes.now → ⊥ }
{
    match decode(bytes) {
        Ok(_) => true,
        Err(_) => false,
    }
}

// The status of packets: done where each datagram spells a message.
fn status_of(packets: &[Packet<'_>]) -> Status
    ensures { IsPacketsStatus (map seen packets.now) result }
{
    for packet in packets {
        if !is_spelled(packet) {
            return Status::Refused;
        }
    }
    Status::Done
}

// Prints each datagram of these packets, behind the number of its packet.
fn print_packets<W: Write>(alloc: Global, packets: &[Packet<'_>], out: &mut W) -> Result<(), Stop> {
    let mut number: u64 = 0;
    for packet in packets {
        number = number.saturating_add(1);
        if let Ok(datagram) = packet.found {
            dump_datagram(alloc, number, datagram.payload, out)?;
        }
    }
    Ok(())
}

// Says how many packets were left out, and why, where any were.
fn tell_left_out<W: Write>(left_out: LeftOut, out: &mut W) -> Result<(), Stop> {
    let reasons = [
        (left_out.not_udp, "not UDP"),
        (left_out.fragments, "fragments"),
        (left_out.cut, "cut"),
    ];
    for (count, reason) in reasons {
        if count > 0 {
            writeln!(out, "left out: {count} {reason}")?;
        }
    }
    Ok(())
}

// Prints what the datagrams of these packets say, a line each or as a chart, and how many packets are left out.
fn show_packets<W: Write>(
    alloc: Global,
    packets: &[Packet<'_>],
    printing: Printing,
    out: &mut W,
) -> Result<Status, Stop>
    ensures { IfOk result (IsPacketsStatus (map seen packets.now)) }
{
    match printing {
        Printing::Lines => print_packets(alloc, packets, out)?,
        Printing::Chart(ink) => draw_packets(alloc, ink, packets, out)?,
    }
    tell_left_out(left_out(packets), out)?;
    out.flush()?;
    Ok(status_of(packets))
}

// Says what is wrong with a file.
fn tell_fault<W: Write>(fault: Fault, out: &mut W) -> Result<Status, Stop>
    ensures { IfOk result (λ status. status ≡ statuses.Words) }
{
    writeln!(out, "bad capture: {fault}")?;
    Ok(Status::Words)
}

/// Prints what the datagrams of a capture say, each behind the number of its packet, or draws them as a chart; and how
/// many packets are left out. Of a file that is no capture nothing is printed but what is wrong with it.
pub fn show_capture<W: Write>(
    alloc: Global,
    bytes: &[u8],
    printing: Printing,
    out: &mut W,
) -> Result<Status, Stop>
    // A capture is shown with status 0 where each datagram of it spells a message, with 1 where one is at fault, and
    // with 2 where the bytes are no capture.
    ensures { IfOk result (IsCaptureStatus bytes.now) }
{
    match read(alloc, bytes) {
        Ok(packets) => show_packets(alloc, packets.as_slice(), printing, out),
        Err(ReadError::Fault(fault)) => tell_fault(fault, out),
        Err(ReadError::Memory) => Err(Stop::Memory),
    }
}

/// Prints what the datagrams say of the capture that is in a file.
pub fn dump_capture<R: AllocGlobal + Files, W: Write>(
    rt: &R,
    name: &str,
    printing: Printing,
    out: &mut W,
) -> Result<Status, Stop>
    // The status of a capture in a file is that of some bytes: 0 where each datagram of theirs spells a message, 1
    // where one doesn't, 2 where they are no capture.
    ensures some { IfOk result (λ status. (bytes : List ℕ) × IsCaptureStatus bytes status) }
    // Where it is known what the file of a capture has, the status is that of these bytes.
    ensures exact { IfOk result (λ status. (file : R.File) × IfSome (R.File.remaining file)
        (λ bytes. IsCaptureStatus bytes status)) }
{
    match fs::open(rt, name) {
        Ok(file) => dump_capture_in(rt.alloc(), file, printing, out),
        Err(error) => Err(stop_of(&error)),
    }
}

// Prints what the datagrams say of the capture that a file has.
fn dump_capture_in<F: Read + Drop, W: Write>(
    alloc: Global,
    file: F,
    printing: Printing,
    out: &mut W,
) -> Result<Status, Stop>
    ensures some { IfOk result (λ status. (bytes : List ℕ) × IsCaptureStatus bytes status) }
    ensures exact { IfOk result (λ status. IfSome (F.remaining file) (λ bytes. IsCaptureStatus bytes status)) }
{
    let mut file = file;
    let mut bytes = Vec::new(alloc);
    match file.read_to_end(&mut bytes) {
        Ok(_) => show_capture(alloc, bytes.as_slice(), printing, out),
        Err(error) => Err(stop_of(&error)),
    }
}
