//! The head of a capture file (draft-ietf-opsawg-pcap, section 4).
ghost use Rattle.std.specs.Prelude.{◌≡◌, ◌≤◌, length, OnOk};
ghost use Rattle.coap_pcap.specs.Files.{fault, head_behind, head_of, kind_of, per_ms, per_second};

use crate::fields::{Order, half_at, word_at};
use crate::link::{Link, link_of};
use crate::reasons::{Fault, Reason};

/// The length of a head.
pub(crate) const HEAD_LEN: usize = 24;
/// The magic number of moments in microseconds.
const MAGIC_MICROS: u32 = 0xa1b2_c3d4;
/// The magic number of moments in nanoseconds.
const MAGIC_NANOS: u32 = 0xa1b2_3c4d;
/// What a pcapng file begins with, in either byte order.
const PCAPNG: u32 = 0x0a0d_0d0a;
/// The version of the format.
const MAJOR: u16 = 2;

const MINOR: u16 = 4;

const MAGIC_LEN: usize = 4;
// The places of the fields of a head.
const MAGIC_AT: usize = 0;

const MAJOR_AT: usize = 4;

const MINOR_AT: usize = 6;

const LINK_AT: usize = 20;
// The link type is in the lower half of its field.
const LINK_TYPES: u32 = 1 << 16;

/// What the moments of a capture are counted in, behind the seconds.
#[derive(Clone, Copy, Debug, PartialEq, Eq)]
pub enum Unit {
    /// Microseconds.
    Micros,
    /// Nanoseconds.
    Nanos,
}

impl Unit {
    /// How many a second has.
    pub(crate) fn per_second(self) -> u32
        ensures { result ≡ per_second self }
    {
        match self {
            Unit::Micros => 1_000_000,
            Unit::Nanos => 1_000_000_000,
        }
    }

    /// How many a millisecond has.
    pub(crate) fn per_ms(self) -> u32
        ensures { result ≡ per_ms self }
    {
        match self {
            Unit::Micros => 1_000,
            Unit::Nanos => 1_000_000,
        }
    }
}

/// What the head of a capture says.
#[derive(Clone, Copy, Debug, PartialEq, Eq)]
pub struct Head {
    /// The byte order of the numbers of its records.
    pub order: Order,
    /// What the moments are counted in.
    pub unit: Unit,
    /// What the packets begin with.
    pub link: Link,
}

// What the magic number says.
#[tactic(auto, unfolding(crate::specs::Files::kind_of))]
fn kind_of(bytes: &[u8]) -> Option<(Order, Unit)>
    requires { MAGIC_LEN ≤ length bytes.now }
    ensures { result ≡ kind_of bytes.now }
{
    match word_at(Order::Little, bytes, MAGIC_AT) {
        MAGIC_MICROS => return Some((Order::Little, Unit::Micros)),
        MAGIC_NANOS => return Some((Order::Little, Unit::Nanos)),
        _ => {}
    }
    match word_at(Order::Big, bytes, MAGIC_AT) {
        MAGIC_MICROS => Some((Order::Big, Unit::Micros)),
        MAGIC_NANOS => Some((Order::Big, Unit::Nanos)),
        _ => None,
    }
}

fn fault(reason: Reason, at: usize) -> Fault
    ensures { result ≡ fault reason at }
{
    let at = at as u64;
    Fault { reason, at }
}

// The head behind a magic number.
#[tactic(auto, unfolding(crate::specs::Files::head_behind))]
fn head_behind(kind: Option<(Order, Unit)>, bytes: &[u8]) -> Result<Head, Fault>
    ensures read { result ≡ head_behind kind bytes.now }
    ensures long { OnOk result (HEAD_LEN ≤ length bytes.now) }
{
    let Some((order, unit)) = kind else {
        return Err(fault(Reason::Magic, MAGIC_AT));
    };
    if bytes.len() < HEAD_LEN {
        return Err(fault(Reason::Short, bytes.len()));
    }
    if !(half_at(order, bytes, MAJOR_AT) == MAJOR && half_at(order, bytes, MINOR_AT) == MINOR) {
        return Err(fault(Reason::Version, MAJOR_AT));
    }
    match link_of(word_at(order, bytes, LINK_AT) % LINK_TYPES) {
        Some(link) => Ok(Head { order, unit, link }),
        None => Err(fault(Reason::UnknownLink, LINK_AT)),
    }
}

/// Reads the head of a capture file.
#[tactic(auto, unfolding(crate::specs::Files::head_of))]
pub fn read_head(bytes: &[u8]) -> Result<Head, Fault>
    // What is read is what the head says, and a fault is the first one.
    ensures read { result ≡ head_of bytes.now }
    // Where there is a head, it has 24 bytes.
    ensures long { OnOk result (HEAD_LEN ≤ length bytes.now) }
{
    if bytes.len() < MAGIC_LEN {
        return Err(fault(Reason::Short, bytes.len()));
    }
    if word_at(Order::Big, bytes, MAGIC_AT) == PCAPNG {
        return Err(fault(Reason::Pcapng, MAGIC_AT));
    }
    head_behind(kind_of(bytes), bytes)
}
