//! The records of a capture file (draft-ietf-opsawg-pcap, section 5).
ghost use Rattle.std.specs.Prelude.{◌≡◌, ◌<◌, ◌≤◌, ◌+◌, ◌*◌, ◌/◌, ◌^◌, length, IfOk};
ghost use Rattle.coap_pcap.specs.Files.{per_ms, record_at};
ghost use Rattle.coap_pcap.specs.Numbers.{word_at};
ghost use Rattle.coap_pcap.specs.Packets.{Gives};

use crate::fields::word_at;
use crate::head::Head;
use crate::reasons::{Fault, Reason};
use coap_types::Moment;

/// The length of what stands in front of a packet.
pub(crate) const RECORD_HEAD_LEN: usize = 16;

// The places of the fields in front of a packet.
const SECONDS_AT: usize = 0;

const FRACTION_AT: usize = 4;

const CAPTURED_AT: usize = 8;

const ORIGINAL_AT: usize = 12;

/// A second has so many milliseconds.
pub(crate) const MS_PER_SECOND: u64 = 1_000;

// A packet, its moment, and what is behind it.
#[derive(Clone, Copy)]
pub(crate) struct Taken<'a> {
    pub at: Moment,
    pub packet: &'a [u8],
    pub rest: &'a [u8],
}

// The fault at the end of so many bytes, the first of which is at this place.
fn torn(place: usize, len: usize) -> Fault
    requires { place + len < 2 ^ 64 }
    ensures reason { result.reason ≡ Reason.Torn }
    ensures at { result.at ≡ place + len }
{
    let reason = Reason::Torn;
    let at = (place + len) as u64;
    Fault { reason, at }
}

// The moment of a record.
fn moment(head: &Head, bytes: &[u8]) -> Moment
    requires { RECORD_HEAD_LEN ≤ length bytes.now }
    ensures { result.0 ≡ word_at head.now.order bytes.now 0 * 1000
        + word_at head.now.order bytes.now 4 / per_ms head.now.unit }
{
    let seconds = u64::from(word_at(head.order, bytes, SECONDS_AT));
    let fraction = word_at(head.order, bytes, FRACTION_AT) / head.unit.per_ms();
    Moment(seconds * MS_PER_SECOND + u64::from(fraction))
}

/// The record in front of these bytes, of which the first is at this place of the file, and what follows it.
#[tactic(auto, unfolding(crate::specs::Files::record_at))]
pub(crate) fn record_at<'a>(head: &Head, place: usize, bytes: &'a [u8]) -> Result<Taken<'a>, Fault>
    requires { place + length bytes.now < 2 ^ 64 }
    ensures taken { Gives (λ t. (record { at = t.at.0; packet = t.packet.now }, t.rest.now)) result
        (record_at head.now place bytes.now) }
    ensures left { IfOk result (λ t. length bytes.now ≡ (16 + length t.packet.now) + length t.rest.now) }
{
    if bytes.len() < RECORD_HEAD_LEN {
        return Err(torn(place, bytes.len()));
    }
    if word_at(head.order, bytes, FRACTION_AT) >= head.unit.per_second() {
        let (reason, at) = (Reason::Fraction, (place + FRACTION_AT) as u64);
        return Err(Fault { reason, at });
    }
    let captured = word_at(head.order, bytes, CAPTURED_AT);
    if word_at(head.order, bytes, ORIGINAL_AT) < captured {
        let (reason, at) = (Reason::Lengths, (place + CAPTURED_AT) as u64);
        return Err(Fault { reason, at });
    }
    let end = RECORD_HEAD_LEN + captured as usize;
    if bytes.len() < end {
        return Err(torn(place, bytes.len()));
    }
    Ok(Taken {
        at: moment(head, bytes),
        packet: &bytes[RECORD_HEAD_LEN..end],
        rest: &bytes[end..],
    })
}
