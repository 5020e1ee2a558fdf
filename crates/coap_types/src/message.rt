//! Types, codes and Message IDs (RFC 7252, section 3).
ghost use Rattle.std.specs.Prelude.{◌≡◌, ◌/◌, ◌%◌, ◌<◌, Some};
ghost use Rattle.coap_types.specs.Text.{code_text, kind_text};

use std::fmt;

/// The type of a message (RFC 7252, section 3): whether it is to be acknowledged, or acknowledges
/// or rejects another.
#[derive(Clone, Copy, Debug, PartialEq, Eq, PartialOrd, Ord, Hash)]
pub enum Kind {
    /// Confirmable (section 4.2).
    Con,
    /// Non-confirmable (section 4.3).
    Non,
    /// Acknowledgement (section 4.2).
    Ack,
    /// Reset (section 4.2).
    Rst,
}

/// As the standard abbreviates it: CON, NON, ACK or RST.
impl fmt::Display for Kind {
    ghost output = { λ kind. Some (kind_text kind) };

    fn fmt<W: fmt::Write>(&self, f: &mut fmt::Formatter<W>) -> fmt::Result {
        match self {
            Kind::Con => f.write_str("CON"),
            Kind::Non => f.write_str("NON"),
            Kind::Ack => f.write_str("ACK"),
            Kind::Rst => f.write_str("RST"),
        }
    }
}

// How many details a class of codes has: 5 bits of them (RFC 7252, section 3).
const DETAILS: u8 = 32;

/// What a message asks or answers, as one byte: the class in the upper 3 bits, the detail in the
/// lower 5 (RFC 7252, section 3). Written `c.dd`, as 2.05.
#[derive(Clone, Copy, Debug, PartialEq, Eq, PartialOrd, Ord, Hash)]
pub struct Code(pub u8);

impl Code {
    /// 0.00, an Empty message (RFC 7252, section 4.1).
    pub const EMPTY: Code = Code(0x00);

    /// 0.01 GET (RFC 7252, section 5.8.1).
    pub const GET: Code = Code(0x01);
    /// 0.02 POST (RFC 7252, section 5.8.2).
    pub const POST: Code = Code(0x02);
    /// 0.03 PUT (RFC 7252, section 5.8.3).
    pub const PUT: Code = Code(0x03);
    /// 0.04 DELETE (RFC 7252, section 5.8.4).
    pub const DELETE: Code = Code(0x04);

    /// 2.01 Created (RFC 7252, section 5.9.1.1).
    pub const CREATED: Code = Code(0x41);
    /// 2.02 Deleted (RFC 7252, section 5.9.1.2).
    pub const DELETED: Code = Code(0x42);
    /// 2.03 Valid (RFC 7252, section 5.9.1.3).
    pub const VALID: Code = Code(0x43);
    /// 2.04 Changed (RFC 7252, section 5.9.1.4).
    pub const CHANGED: Code = Code(0x44);
    /// 2.05 Content (RFC 7252, section 5.9.1.5).
    pub const CONTENT: Code = Code(0x45);
    /// 2.31 Continue (RFC 7959, section 2.9.1).
    pub const CONTINUE: Code = Code(0x5f);

    /// 4.00 Bad Request (RFC 7252, section 5.9.2.1).
    pub const BAD_REQUEST: Code = Code(0x80);
    /// 4.02 Bad Option (RFC 7252, section 5.9.2.3).
    pub const BAD_OPTION: Code = Code(0x82);
    /// 4.04 Not Found (RFC 7252, section 5.9.2.5).
    pub const NOT_FOUND: Code = Code(0x84);
    /// 4.05 Method Not Allowed (RFC 7252, section 5.9.2.6).
    pub const METHOD_NOT_ALLOWED: Code = Code(0x85);
    /// 4.06 Not Acceptable (RFC 7252, section 5.9.2.7).
    pub const NOT_ACCEPTABLE: Code = Code(0x86);
    /// 4.08 Request Entity Incomplete (RFC 7959, section 2.9.2).
    pub const REQUEST_ENTITY_INCOMPLETE: Code = Code(0x88);
    /// 4.12 Precondition Failed (RFC 7252, section 5.9.2.8).
    pub const PRECONDITION_FAILED: Code = Code(0x8c);
    /// 4.13 Request Entity Too Large (RFC 7252, section 5.9.2.9, and RFC 7959, section 2.9.3).
    pub const REQUEST_ENTITY_TOO_LARGE: Code = Code(0x8d);

    /// 5.03 Service Unavailable (RFC 7252, section 5.9.3.4).
    pub const SERVICE_UNAVAILABLE: Code = Code(0xa3);
    /// 5.05 Proxying Not Supported (RFC 7252, section 5.9.3.6).
    pub const PROXYING_NOT_SUPPORTED: Code = Code(0xa5);

    /// The class, 0 to 7: 0 for a request, 2 to 5 for a response (RFC 7252, section 3).
    pub fn class(self) -> u8
        // The class of a code is its three high bits (RFC 7252, section 3).
        ensures class { result ≡ self.0 / 32 }
        // A class is below 8.
        ensures few { result < 8 }
    {
        self.0 / DETAILS
    }

    /// The detail, 0 to 31: which method or response of its class (RFC 7252, section 3).
    pub fn detail(self) -> u8
        // The detail of a code is its five low bits (RFC 7252, section 3).
        ensures detail { result ≡ self.0 % 32 }
        // A detail is below 32.
        ensures few { result < 32 }
    {
        self.0 % DETAILS
    }
}

// The bytes of the codes, by their classes and details.
const _: () = prove!(Code::EMPTY.0 == 0);

const _: () = prove!(Code::GET.0 == 1 && Code::POST.0 == 2);

const _: () = prove!(Code::PUT.0 == 3 && Code::DELETE.0 == 4);

const _: () = prove!(Code::CREATED.0 == 2 * 32 + 1 && Code::DELETED.0 == 2 * 32 + 2);

const _: () = prove!(Code::VALID.0 == 2 * 32 + 3 && Code::CHANGED.0 == 2 * 32 + 4);

const _: () = prove!(Code::CONTENT.0 == 2 * 32 + 5 && Code::CONTINUE.0 == 2 * 32 + 31);

const _: () = prove!(Code::BAD_REQUEST.0 == 4 * 32 && Code::BAD_OPTION.0 == 4 * 32 + 2);

const _: () = prove!(Code::NOT_FOUND.0 == 4 * 32 + 4 && Code::METHOD_NOT_ALLOWED.0 == 4 * 32 + 5);

const _: () = prove!(Code::NOT_ACCEPTABLE.0 == 4 * 32 + 6);

const _: () = prove!(Code::REQUEST_ENTITY_INCOMPLETE.0 == 4 * 32 + 8);

const _: () = prove!(Code::PRECONDITION_FAILED.0 == 4 * 32 + 12);

const _: () = prove!(Code::REQUEST_ENTITY_TOO_LARGE.0 == 4 * 32 + 13);

const _: () = prove!(Code::SERVICE_UNAVAILABLE.0 == 5 * 32 + 3);

const _: () = prove!(Code::PROXYING_NOT_SUPPORTED.0 == 5 * 32 + 5);

/// The class, a dot and the detail in two digits, as 2.05 (RFC 7252, section 3).
impl fmt::Display for Code {
    ghost output = { λ code. Some (code_text code) };

    fn fmt<W: fmt::Write>(&self, f: &mut fmt::Formatter<W>) -> fmt::Result {
        let class = self.class();
        let tens = self.detail() / 10;
        let ones = self.detail() % 10;
        write!(f, "{class}.{tens}{ones}")
    }
}

/// A Message ID, which ties an acknowledgement or a Reset to its message (RFC 7252, section 4.4).
#[derive(Clone, Copy, Debug, PartialEq, Eq, PartialOrd, Ord, Hash)]
pub struct Id(pub u16);

/// How many Message IDs there are: they have 16 bits (RFC 7252, section 3).
pub const MESSAGE_IDS: u32 = 1 << 16;

const _: () = prove!(MESSAGE_IDS == 65_536);
