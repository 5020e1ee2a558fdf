//! Why a datagram spells no message, and where.
ghost use Rattle.std.specs.Prelude.{◌≡◌};
ghost use Rattle.coap_codec.specs.Faulty.{reason_number};

use coap_types::{Id, Kind};
use std::fmt;

/// Why a datagram spells no message (RFC 7252, section 3).
#[derive(Clone, Copy, Debug, PartialEq, Eq)]
pub enum Reason {
    /// Fewer than the 4 bytes of a header.
    Short,
    /// A version other than 1.
    Version,
    /// A token length of 9 to 15, which are reserved.
    TokenLength,
    /// Fewer bytes than the token length says.
    TokenCut,
    /// Code 0.00 with a token length, or with bytes behind the Message ID (section 4.1).
    EmptyNotBare,
    /// A delta nibble 15 in a byte that is no payload marker (section 3.1).
    DeltaReserved,
    /// A length nibble 15 (section 3.1).
    LengthReserved,
    /// The bytes end inside an option.
    OptionCut,
    /// The deltas sum up to an option number above 65,535.
    NumberTooLarge,
    /// The payload marker is the last byte.
    NoPayload,
}

impl Reason {
    /// The number of the reason, 1 to 10, in the order of the variants.
    pub fn number(self) -> u8
        // The number of a fault is its place among the ten.
        ensures { result ≡ reason_number self }
    {
        match self {
            Reason::Short => 1,
            Reason::Version => 2,
            Reason::TokenLength => 3,
            Reason::TokenCut => 4,
            Reason::EmptyNotBare => 5,
            Reason::DeltaReserved => 6,
            Reason::LengthReserved => 7,
            Reason::OptionCut => 8,
            Reason::NumberTooLarge => 9,
            Reason::NoPayload => 10,
        }
    }
}

/// The variant's name.
impl fmt::Display for Reason {
    ghost use Rattle.std.specs.Prelude.{Some};
    ghost use Rattle.coap_codec.specs.Faulty.{reason_name};

    ghost output = { λ r. Some (reason_name r) };

    fn fmt<W: fmt::Write>(&self, f: &mut fmt::Formatter<W>) -> fmt::Result {
        f.write_str(match self {
            Reason::Short => "Short",
            Reason::Version => "Version",
            Reason::TokenLength => "TokenLength",
            Reason::TokenCut => "TokenCut",
            Reason::EmptyNotBare => "EmptyNotBare",
            Reason::DeltaReserved => "DeltaReserved",
            Reason::LengthReserved => "LengthReserved",
            Reason::OptionCut => "OptionCut",
            Reason::NumberTooLarge => "NumberTooLarge",
            Reason::NoPayload => "NoPayload",
        })
    }
}

/// The first fault of a datagram: the first that holds of the header, then of the token, then of the
/// options from left to right.
#[derive(Clone, Copy, Debug, PartialEq, Eq)]
pub struct Fault {
    /// What was found.
    pub reason: Reason,
    /// The place of the fault, in bytes from the start: 0 where the first byte is at fault, 4 where an
    /// Empty message goes on, that of an option's first byte where it is at fault, and the datagram's
    /// length where bytes are missing.
    pub at: usize,
    /// The type and the Message ID, by which the datagram can be rejected (RFC 7252, section 4.2).
    /// `None` for [`Reason::Short`] and [`Reason::Version`].
    pub head: Option<(Kind, Id)>,
}
