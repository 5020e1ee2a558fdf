//! The four bytes of the header (RFC 7252, section 3).
ghost use Rattle.std.specs.Prelude.{◌≡◌, ◌≤◌, ◌<◌, ◌/◌, ◌%◌, [], length};
ghost use Rattle.coap_codec.specs.Header.{kind_of, id_of};
ghost use Rattle.coap_codec.specs.Message.{header, kind_number, message};

use byteorder::{BigEndian, ByteOrder};
use coap_types::{Code, Id, Kind, Token};

/// How many bytes stand in front of the token (RFC 7252, section 3).
pub(crate) const HEADER_LEN: usize = 4;
/// The version of CoAP, in the upper 2 bits of the first byte (RFC 7252, section 3).
pub(crate) const VERSION: u8 = 1;
// Where the Message ID stands, in 2 bytes, most significant first (RFC 7252, section 3).
const ID_AT: usize = 2;
// The version counts this many times in the first byte.
const VERSION_UNIT: u8 = 64;
// The type, of 2 bits, counts this many times in the first byte; the token length is below it.
const KIND_UNIT: u8 = 16;
// How many types there are.
const KINDS: u8 = 4;

/// What a message begins with: the header, of 4 bytes, and the token (RFC 7252, section 3).
#[derive(Drop)]
pub struct Head {
    /// The type.
    pub kind: Kind,
    /// The code.
    pub code: Code,
    /// The Message ID.
    pub id: Id,
    /// The token, of 0 to 8 bytes.
    pub token: Token,
}

/// The version in the first byte of a header.
pub(crate) fn version_of(first: u8) -> u8
    ensures { result ≡ first / 64 }
{
    first / VERSION_UNIT
}

/// The type in the first byte of a header.
pub(crate) fn kind_of(first: u8) -> Kind
    ensures { result ≡ kind_of first }
{
    match first / KIND_UNIT % KINDS {
        0 => Kind::Con,
        1 => Kind::Non,
        2 => Kind::Ack,
        _ => Kind::Rst,
    }
}

/// The token length in the first byte of a header.
pub(crate) fn token_len_of(first: u8) -> usize
    ensures exact { result ≡ first % 16 }
    ensures small { result < 16 }
{
    (first % KIND_UNIT) as usize
}

/// The Message ID in a header.
pub(crate) fn id_of(bytes: &[u8]) -> Id
    requires { 4 ≤ length bytes.now }
    ensures { result.0 ≡ id_of bytes.now }
{
    Id(BigEndian::read_u16(&bytes[ID_AT..]))
}

// The 2 bits of a type.
fn kind_number(kind: Kind) -> u8
    ensures exact { result ≡ kind_number kind }
    ensures small { result ≤ 3 }
{
    match kind {
        Kind::Con => 0,
        Kind::Non => 1,
        Kind::Ack => 2,
        Kind::Rst => 3,
    }
}

/// The header of a message.
pub(crate) fn header(head: &Head) -> [u8; 4]
    ensures { result ≡ header (message head.now [] []) }
{
    let token_len = head.token.as_slice().len() as u8;
    let first = VERSION * VERSION_UNIT + kind_number(head.kind) * KIND_UNIT + token_len;
    let mut bytes = [first, head.code.0, 0, 0];
    BigEndian::write_u16(&mut bytes[ID_AT..], head.id.0);
    bytes
}
