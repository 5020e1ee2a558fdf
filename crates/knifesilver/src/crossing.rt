//! What crosses to C beside numbers: addresses, formats, tokens, bytes.
ghost use Rattle.std.specs.Prelude.{◌≡◌, ◌<◌, ◌≤◌, true, false, length, take};
ghost use Rattle.knifesilver.specs.Formats.{format_in, number_of};
ghost use Rattle.knifesilver.specs.ShortBytes.{AreIn};

use coap_types::{Endpoint, Tag, Token};

/// C's `ks_address`: an IPv4 address, most significant byte first, and a UDP port.
#[repr(C)]
#[derive(Clone, Copy)]
pub struct KsAddress {
    /// The address.
    pub ip: [u8; 4],
    /// The port.
    pub port: u16,
}

/// The endpoint of an address.
pub(crate) fn endpoint(address: &KsAddress) -> Endpoint
    ensures { result ≡ record { ip = address.now.ip; port = address.now.port } }
{
    let ip = address.ip;
    Endpoint {
        ip,
        port: address.port,
    }
}

/// The address of an endpoint.
pub(crate) fn address(endpoint: Endpoint) -> KsAddress
    ensures { result ≡ record { ip = endpoint.ip; port = endpoint.port } }
{
    let ip = endpoint.ip;
    KsAddress {
        ip,
        port: endpoint.port,
    }
}

/// No format is told.
pub(crate) const NO_FORMAT: i32 = -1;

/// The format of a number; None where it is none.
pub(crate) fn format_of(number: i32) -> Option<u16>
    ensures { result ≡ format_in number }
{
    match u16::try_from(number) {
        Ok(format) => Some(format),
        Err(_) => None,
    }
}

/// The number of a format.
pub(crate) fn format_number(format: Option<u16>) -> i32
    ensures { result ≡ number_of format }
{
    match format {
        Some(format) => i32::from(format),
        None => NO_FORMAT,
    }
}

/// Copies the bytes to the front of the room; false where they do not fit.
pub(crate) fn copy_out(room: &mut [u8], bytes: &[u8]) -> bool
    ensures copied { result ≡ true → take (length bytes.now) room.new ≡ bytes.now }
    ensures long { result ≡ false → length room.old < length bytes.now }
{
    if bytes.len() > room.len() {
        return false;
    }
    room[..bytes.len()].copy_from_slice(bytes);
    true
}

/// At most 8 bytes in 8, and how many of them count.
pub(crate) fn short_bytes(given: &[u8]) -> ([u8; 8], u8)
    requires few { length given.now ≤ 8 }
    ensures { AreIn given.now result.0 result.1 }
{
    let mut bytes = [0; 8];
    bytes[..given.len()].copy_from_slice(given);
    (bytes, given.len() as u8)
}

/// A token in 8 bytes, and how many of them count.
pub(crate) fn token_of(token: &Token) -> ([u8; 8], u8)
    ensures { AreIn token.now result.0 result.1 }
{
    short_bytes(token.as_slice())
}

/// An entity-tag, likewise.
pub(crate) fn tag_of(tag: &Tag) -> ([u8; 8], u8)
    ensures { AreIn tag.now result.0 result.1 }
{
    short_bytes(tag.as_slice())
}
