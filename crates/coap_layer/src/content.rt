//! A message that is to be sent, but for its type and its Message ID.
ghost use Rattle.std.specs.Prelude.{◌≡◌, ◌≤◌, take, length};
ghost use Rattle.coap_types.specs.CoapOption.{options_of};
ghost use Rattle.coap_codec.specs.Spelling.{message_bytes};
ghost use Rattle.coap_layer.specs.Trace.{with_head};
ghost use Rattle.coap_layer.specs.Sendable.{IsSendable};
ghost use Rattle.coap_types.specs.declared.limits.TheConstants.{MAX_MESSAGE_LEN as max_message_len};

use coap_codec::{Head, encode, one_spelling};
use coap_types::{Code, Id, Kind, Opt, Token};
use std::marker::Model;

/// What is to be sent: a message but for its type and its Message ID, which the layer gives it
/// (RFC 7252, section 3).
#[derive(Drop)]
pub struct Content<'a> {
    /// The code, other than 0.00.
    pub code: Code,
    /// The token.
    pub token: &'a Token,
    /// The options, in the order of their numbers.
    pub options: &'a [Opt<'a>],
    /// The payload; empty where there is none.
    pub payload: &'a [u8],
}

impl<'a> Model for Content<'a> {
    ghost use Rattle.coap_types.specs.CoapOption.{options_of};
    ghost use Rattle.coap_layer.specs.Trace.{Content};

    ghost Value = { Content };

    ghost view = { λ c. record {
      code = c.code.0;
      token = c.token.now;
      options = options_of c.options.now;
      payload = c.payload.now;
    } };
}

// The head of the message with this type and Message ID.
fn head_of(content: &Content<'_>, kind: Kind, id: Id) -> Head
    ensures kind { result.kind ≡ kind }
    ensures code { result.code.0 ≡ content.now.code }
    ensures id { result.id ≡ id }
    ensures token { result.token ≡ content.now.token }
{
    Head {
        kind,
        code: content.code,
        id,
        token: content.token.copy(),
    }
}

/// Spells the message with this type and Message ID from the start of the buffer on, and answers
/// its length.
pub(crate) fn spell(content: &Content<'_>, kind: Kind, id: Id, buffer: &mut [u8]) -> usize
    requires sendable { IsSendable content.now }
    requires room { length buffer.old ≡ max_message_len }
    ensures bytes { take result buffer.new ≡ message_bytes (with_head kind id.0 content.now) }
    ensures within { result ≤ length buffer.new }
    ensures len { length buffer.new ≡ length buffer.old }
{
    one_spelling();
    let head = head_of(content, kind, id);
    match encode(&head, content.options, content.payload, buffer) {
        Ok(len) => len,
        Err(_) => unreachable!("what is sendable has a spelling that fits"),
    }
}
