//! Why a file is no capture, why a packet of one is no datagram, and why a datagram gets no record.

use std::alloc::{AllocError, AllocFailed};
use thiserror::Error;

/// Why bytes are no capture in the format pcap.
#[derive(Clone, Copy, Debug, PartialEq, Eq, Error)]
pub enum Reason {
    /// It ends within the 24 bytes of its head.
    #[error("the head is cut off")]
    Short,
    /// It is a capture in the format pcapng.
    #[error("a pcapng file: `tshark -F pcap` makes a pcap file of it")]
    Pcapng,
    /// It doesn't begin with a magic number of the format.
    #[error("no pcap file")]
    Magic,
    /// Its version isn't 2.4.
    #[error("a version other than 2.4")]
    Version,
    /// Its link type isn't one of [`Link`](crate::Link).
    #[error("a link type that isn't known")]
    UnknownLink,
    /// It ends within a record.
    #[error("a record is cut off")]
    Torn,
    /// The moment of a record has a fraction of a second that is a second or more.
    #[error("a moment whose fraction is no fraction")]
    Fraction,
    /// A record has more bytes than its packet had.
    #[error("a record with more bytes than its packet")]
    Lengths,
}

/// What is wrong with a file, and where.
#[derive(Clone, Copy, Debug, PartialEq, Eq, Error)]
#[error("{reason} at byte {at}")]
pub struct Fault {
    /// What it is.
    pub reason: Reason,
    /// Where: how many bytes of the file are in front of it.
    pub at: u64,
}

/// Why a capture wasn't read.
#[derive(Clone, Copy, Debug, PartialEq, Eq, Error)]
pub enum ReadError {
    /// The bytes are no capture.
    #[error("{0}")]
    Fault(Fault),
    /// An allocation was refused.
    #[error("no memory")]
    Memory,
}

impl<T: Drop> From<AllocFailed<T>> for ReadError {
    ghost use Rattle.std.specs.Prelude.{◌≡◌};
    ghost use Rattle.coap_pcap.specs.declared.reasons.ReadError.TheVariants.{Memory};

    ghost from_gives = { λ _ e. e ≡ Memory };

    fn from(_: AllocFailed<T>) -> ReadError {
        ReadError::Memory
    }
}

/// Why a packet of a capture is left out.
#[derive(Clone, Copy, Debug, PartialEq, Eq)]
pub enum Skip {
    /// It isn't UDP over IPv4 or IPv6.
    NotUdp,
    /// It is a fragment of a packet (RFC 791, section 3.2; RFC 8200, section 4.5).
    Fragment,
    /// It was captured only in part.
    Cut,
}

/// Why a datagram gets no record.
#[derive(Clone, Copy, Debug, PartialEq, Eq, Error)]
pub enum WriteError {
    /// It is longer than a packet can be: over 65,507 bytes.
    #[error("a datagram of over 65,507 bytes")]
    TooLong,
    /// Its moment has more seconds than a record's 32 bits say.
    #[error("a moment after the last one of a capture")]
    TooLate,
    /// An allocation was refused.
    #[error("no memory")]
    Memory,
}

impl From<AllocError> for WriteError {
    ghost use Rattle.std.specs.Prelude.{◌≡◌};
    ghost use Rattle.coap_pcap.specs.declared.reasons.WriteError.TheVariants.{Memory};

    ghost from_gives = { λ _ e. e ≡ Memory };

    fn from(_error: AllocError) -> WriteError {
        WriteError::Memory
    }
}
