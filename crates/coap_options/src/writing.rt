//! Options that are written in rising order (RFC 7252, section 3.1).
ghost use Rattle.std.specs.Prelude.{◌≡◌, ◌≤◌, ◌-◌, ◌++◌, ◌∷◌, [], ℕ, drop, List, length, take, IfOk, IfErr, OnErr};
ghost use Rattle.std.specs.Prelude.{IfSome, IfNone};
ghost use Rattle.coap_types.specs.CoapOption.{option};
ghost use Rattle.coap_types.specs.declared.limits.TheConstants.{MAX_MESSAGE_LEN as max_message_len};
ghost use Rattle.coap_codec.specs.Options.{Options};
ghost use Rattle.coap_options.specs.Refusals.{IsRefused, IsTooLong};

use coap_codec::{Head, encode};
use coap_types::limits::MAX_MESSAGE_LEN;
use coap_types::{Code, Id, Kind, Opt, Token};

// How many bytes the header of a message has (RFC 7252, section 3).
const HEADER_LEN: usize = 4;

/// Why an option is not written.
#[derive(Clone, Copy, Debug, PartialEq, Eq)]
pub enum AddRefusal {
    /// Its number is below that of the option before it.
    Order,
    /// A message with it alone has over 1,152 bytes.
    TooLong,
    /// It is longer than what is left of the room.
    NoRoom,
}

// A header, by which an option is spelled as the first of a message.
fn head() -> Head
    ensures code { result.code.0 ≡ 1 }
    ensures id { result.id.0 ≡ 0 }
    ensures token { result.token ≡ [] }
{
    Head {
        kind: Kind::Con,
        code: Code(1),
        id: Id(0),
        token: Token::empty(),
    }
}

// Spells the option behind one of number `last`, from byte 4 on: where it ends. None where it is too long.
fn spell(last: u16, number: u16, value: &[u8], buffer: &mut [u8]) -> Option<usize>
    requires order { last ≤ number }
    requires room { length buffer.old ≡ max_message_len }
    ensures some { IfSome result (λ end. (4 ≤ end) × (end ≤ length buffer.new)
        × Options last (take (end - 4) (drop 4 buffer.new)) (option number value.now ∷ [])) }
    ensures none { IfNone result (IsTooLong last number value.now) }
    ensures len { length buffer.new ≡ length buffer.old }
{
    let options = [Opt {
        number: number - last,
        value,
    }];
    match encode(&head(), &options, &[], buffer) {
        Ok(end) => Some(end),
        Err(_) => None,
    }
}

/// Writes an option into the room, behind `len` bytes whose last option has the number `last` (0 where they have none):
/// how many bytes there are then (RFC 7252, section 3.1).
pub fn add_option(
    room: &mut [u8],
    len: usize,
    last: u16,
    number: u16,
    value: &[u8],
) -> Result<usize, AddRefusal>
    requires { len ≤ length room.old }
    // What is written behind the bytes that stood there is that option, behind one of that number.
    ensures added { IfOk result (λ end. (end ≤ length room.new) × (more : List ℕ)
        × (take end room.new ≡ take len room.old ++ more) × Options last more (option number value.now ∷ [])) }
    // An option is refused for its number, its length or the room, in this order.
    ensures why { IfErr result (λ why. IsRefused why len last number value.now (length room.old)) }
    // Where an option is refused, the room is as it was.
    ensures err { OnErr result (room.new ≡ room.old) }
{
    if number < last {
        return Err(AddRefusal::Order);
    }
    let mut buffer = [0; MAX_MESSAGE_LEN];
    let Some(stop) = spell(last, number, value, &mut buffer) else {
        return Err(AddRefusal::TooLong);
    };
    let more = &buffer[HEADER_LEN..stop];
    if room.len() - len < more.len() {
        return Err(AddRefusal::NoRoom);
    }
    let end = len + more.len();
    room[len..end].copy_from_slice(more);
    Ok(end)
}
