//! What crosses to C beside numbers: addresses, tokens, bytes, requests.
ghost use Rattle.std.specs.Prelude.{◌≡◌, ◌<◌, ◌≤◌, true, false, length, take, IfSome, IfNone};
ghost use Rattle.coap_codec.specs.Message.{kind_number};
ghost use Rattle.knifesilver_exchange.specs.Crossing.{AreAsked, IsNoRequest, IsRequest};
ghost use Rattle.knifesilver_exchange.specs.ShortBytes.{AreIn};

use coap_codec::View;
use coap_exchange::Asked;
use coap_types::{Endpoint, Id, Kind, Token};

/// C's `ks_address`: an IPv4 address, most significant byte first, and a UDP port.
#[repr(C)]
#[derive(Clone, Copy)]
pub struct KsAddress {
    /// The address.
    pub ip: [u8; 4],
    /// The port.
    pub port: u16,
}

/// The endpoint of an address.
pub(crate) fn endpoint(address: &KsAddress) -> Endpoint
    ensures { result ≡ record { ip = address.now.ip; port = address.now.port } }
{
    let ip = address.ip;
    Endpoint {
        ip,
        port: address.port,
    }
}

/// The address of an endpoint.
pub(crate) fn address(endpoint: Endpoint) -> KsAddress
    ensures { result ≡ record { ip = endpoint.ip; port = endpoint.port } }
{
    let ip = endpoint.ip;
    KsAddress {
        ip,
        port: endpoint.port,
    }
}

/// Copies the bytes to the front of the room; false where they do not fit.
pub(crate) fn copy_out(room: &mut [u8], bytes: &[u8]) -> bool
    ensures copied { result ≡ true → take (length bytes.now) room.new ≡ bytes.now }
    ensures long { result ≡ false → length room.old < length bytes.now }
{
    if bytes.len() > room.len() {
        return false;
    }
    room[..bytes.len()].copy_from_slice(bytes);
    true
}

/// At most 8 bytes in 8, and how many of them count.
pub(crate) fn short_bytes(given: &[u8]) -> ([u8; 8], u8)
    requires few { length given.now ≤ 8 }
    ensures { AreIn given.now result.0 result.1 }
{
    let mut bytes = [0; 8];
    bytes[..given.len()].copy_from_slice(given);
    (bytes, given.len() as u8)
}

/// A token in 8 bytes, and how many of them count.
pub(crate) fn token_of(token: &Token) -> ([u8; 8], u8)
    ensures { AreIn token.now result.0 result.1 }
{
    short_bytes(token.as_slice())
}

/// C's `ks_asked`: a request that was handed up, as its answer needs it.
#[repr(C)]
#[derive(Clone, Copy)]
pub struct KsAsked {
    /// Where it came from.
    pub from: KsAddress,
    /// Its Message ID.
    pub id: u16,
    /// Its type: 0 Confirmable, 1 Non-confirmable.
    pub kind: u8,
    /// How many bytes of the token count.
    pub token_len: u8,
    /// Its token.
    pub token: [u8; 8],
}

/// C's `ks_request`: a request, and what it asks.
#[repr(C)]
#[derive(Clone, Copy)]
pub struct KsRequest {
    /// How many bytes the payload has: the last ones of the datagram.
    pub payload_len: usize,
    /// What its answer needs of it.
    pub asked: KsAsked,
    /// Its code.
    pub code: u8,
}

// The number of a type (RFC 7252, section 3).
fn kind_number(kind: Kind) -> u8
    ensures { result ≡ kind_number kind }
{
    match kind {
        Kind::Con => 0,
        Kind::Non => 1,
        Kind::Ack => 2,
        Kind::Rst => 3,
    }
}

/// What C is told of a request.
pub(crate) fn told_asked(asked: &Asked) -> KsAsked
    ensures { AreAsked result asked.now }
{
    let (token, token_len) = token_of(&asked.token);
    KsAsked {
        from: address(asked.from),
        id: asked.id.0,
        kind: kind_number(asked.kind),
        token_len,
        token,
    }
}

/// .. with what it asks.
pub(crate) fn told_request(asked: &Asked, request: &View<'_>) -> KsRequest
    ensures { IsRequest result asked.now request.now }
{
    KsRequest {
        payload_len: request.payload().len(),
        asked: told_asked(asked),
        code: request.code().0,
    }
}

/// The first so many of 8 bytes, as a token; None where they are no token.
pub(crate) fn token_in(token: &[u8; 8], len: u8) -> Option<Token>
    ensures some { IfSome result (λ t. AreIn t token.now len) }
    ensures none { IfNone result (8 < len) }
{
    let len = usize::from(len);
    if len > token.len() {
        return None;
    }
    Token::new(&token[..len])
}

/// The request that C tells; None where it is no request.
pub(crate) fn asked_in(asked: &KsAsked) -> Option<Asked>
    ensures some { IfSome result (λ a. AreAsked asked.now a) }
    ensures none { IfNone result (IsNoRequest asked.now) }
{
    let kind = match asked.kind {
        0 => Kind::Con,
        1 => Kind::Non,
        _ => return None,
    };
    let token = token_in(&asked.token, asked.token_len)?;
    Some(Asked {
        from: endpoint(&asked.from),
        kind,
        id: Id(asked.id),
        token,
    })
}

/// C's `ks_token`: at most 8 bytes.
#[repr(C)]
#[derive(Clone, Copy)]
pub struct KsToken {
    /// How many bytes count.
    pub len: u8,
    /// The bytes.
    pub bytes: [u8; 8],
}

/// What C is told of a token.
pub(crate) fn told_token(token: &Token) -> KsToken
    ensures { AreIn token.now result.bytes result.len }
{
    let (bytes, len) = token_of(token);
    KsToken { len, bytes }
}

/// C's `ks_answer`: what came of a request.
#[repr(C)]
#[derive(Clone, Copy)]
pub struct KsAnswer {
    /// How many bytes the payload has: the last ones of the datagram.
    pub payload_len: usize,
    /// What it is.
    pub kind: u8,
    /// The code of a response.
    pub code: u8,
    /// How many bytes of its token count.
    pub token_len: u8,
    /// Its token.
    pub token: [u8; 8],
}

/// C's `ks_block`: the value of a Block option (RFC 7959, section 2.2).
#[repr(C)]
#[derive(Clone, Copy)]
pub struct KsBlock {
    /// Its number.
    pub num: u32,
    /// Whether more follows.
    pub more: bool,
    /// Its size exponent.
    pub szx: u8,
}
