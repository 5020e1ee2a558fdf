//! What may be sent as an answer.
ghost use Rattle.std.specs.Prelude.{◌≡◌, ◌↔◌, true, length};
ghost use Rattle.coap_types.specs.declared.limits.TheConstants.{MAX_MESSAGE_LEN as max_message_len};
ghost use Rattle.coap_types.specs.Roles.{role_of};
ghost use Rattle.coap_types.specs.declared.role.Role.TheVariants as role;
ghost use Rattle.coap_layer.specs.Sendable.{IsSendable};
ghost use Rattle.coap_exchange.specs.AnswererSteps.{content_with};
ghost use Rattle.coap_exchange.specs.Machine.AnswererShown.{IsAnswerWith};

use coap_codec::{Head, encode};
use coap_exchange::Response;
use coap_types::limits::MAX_MESSAGE_LEN;
use coap_types::{Id, Kind, Role, Token};

// Whether the message with this token has a spelling that the buffer takes.
fn is_spelled(token: &Token, response: &Response<'_>, buffer: &mut [u8]) -> bool
    requires role { role_of response.now.code ≡ role.Response }
    requires room { length buffer.old ≡ max_message_len }
    ensures { (result ≡ true) ↔ IsSendable (content_with token.now response.now) }
{
    let head = Head {
        kind: Kind::Con,
        code: response.code,
        id: Id(0),
        token: token.copy(),
    };
    match encode(&head, response.options, response.payload, buffer) {
        Ok(_) => true,
        Err(_) => false,
    }
}

// Whether the message with this token has a spelling of at most 1,152 bytes.
fn fits(token: &Token, response: &Response<'_>) -> bool
    requires { role_of response.now.code ≡ role.Response }
    ensures { (result ≡ true) ↔ IsSendable (content_with token.now response.now) }
{
    let mut buffer = [0; MAX_MESSAGE_LEN];
    is_spelled(token, response, &mut buffer)
}

/// Whether this may be sent as an answer to a request of this token: its code is of class 2 to 5, its options rise, and
/// as a message it has at most 1,152 bytes (RFC 7252, sections 4.6 and 5.9).
pub fn is_response(token: &Token, response: &Response<'_>) -> bool
    // A response is one exactly where the exchanges may be handed it.
    ensures { (result ≡ true) ↔ IsAnswerWith token.now response.now }
{
    match Role::of(response.code) {
        Role::Response => fits(token, response),
        Role::Empty | Role::Request | Role::Reserved => false,
    }
}
