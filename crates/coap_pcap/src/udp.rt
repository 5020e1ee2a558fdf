//! The datagram in the body of an IP packet (RFC 768).
ghost use Rattle.std.specs.Prelude.{◌≡◌};
ghost use Rattle.coap_pcap.specs.Packets.{Gives, udp_at};

use crate::fields::{Order, half_at};
use crate::reasons::Skip;

/// The length of a header.
pub(crate) const UDP_HEADER_LEN: usize = 8;

// The places of the fields of a header.
const SOURCE_AT: usize = 0;

const DESTINATION_AT: usize = 2;

const LENGTH_AT: usize = 4;

// A payload, between two ports.
#[derive(Clone, Copy)]
pub(crate) struct Udp<'a> {
    pub source: u16,
    pub destination: u16,
    pub payload: &'a [u8],
}

/// The ports and the payload.
#[tactic(auto, unfolding(crate::specs::Packets::udp_at))]
pub(crate) fn udp_at(bytes: &[u8]) -> Result<Udp<'_>, Skip>
    ensures { Gives (λ d. (d.source, d.destination, d.payload.now)) result (udp_at bytes.now) }
{
    if bytes.len() < UDP_HEADER_LEN {
        return Err(Skip::Cut);
    }
    let len = half_at(Order::Big, bytes, LENGTH_AT) as usize;
    if len < UDP_HEADER_LEN {
        return Err(Skip::NotUdp);
    }
    if bytes.len() < len {
        return Err(Skip::Cut);
    }
    Ok(Udp {
        source: half_at(Order::Big, bytes, SOURCE_AT),
        destination: half_at(Order::Big, bytes, DESTINATION_AT),
        payload: &bytes[UDP_HEADER_LEN..len],
    })
}
