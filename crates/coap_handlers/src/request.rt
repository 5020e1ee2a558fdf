//! What may be asked.
ghost use Rattle.std.specs.Prelude.{◌≡◌, ◌↔◌, true, length};
ghost use Rattle.coap_types.specs.declared.limits.TheConstants.{MAX_MESSAGE_LEN as max_message_len};
ghost use Rattle.coap_exchange.specs.Machine.AskerShown.{IsAskable};

use coap_codec::{Head, encode};
use coap_exchange::Ask;
use coap_types::limits::MAX_MESSAGE_LEN;
use coap_types::{Id, Kind, MAX_TOKEN_LEN, Token};

// A token of as many bytes as one has at most.
fn longest_token() -> Token
    ensures { length result ≡ MAX_TOKEN_LEN }
{
    match Token::new(&[0; MAX_TOKEN_LEN]) {
        Some(token) => token,
        None => unreachable!("8 bytes are a token"),
    }
}

// Whether the request has a spelling that the buffer takes, with any token.
fn is_spelled(ask: &Ask<'_>, buffer: &mut [u8]) -> bool
    requires room { length buffer.old ≡ max_message_len }
    ensures { (result ≡ true) ↔ IsAskable ask.now }
{
    let head = Head {
        kind: Kind::Con,
        code: ask.method.code(),
        id: Id(0),
        token: longest_token(),
    };
    match encode(&head, ask.options, ask.payload, buffer) {
        Ok(_) => true,
        Err(_) => false,
    }
}

/// Whether this may be asked: its options rise, and as a message with a token of 8 bytes it has at most 1,152 bytes
/// (RFC 7252, sections 4.6 and 5.8).
pub fn is_request(ask: &Ask<'_>) -> bool
    // A request is one exactly where the exchanges may be handed it, whatever its token.
    ensures { (result ≡ true) ↔ IsAskable ask.now }
{
    let mut buffer = [0; MAX_MESSAGE_LEN];
    is_spelled(ask, &mut buffer)
}
