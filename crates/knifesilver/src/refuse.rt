//! The answer of a request that is refused and not fed.
ghost use Rattle.std.specs.Prelude.{◌≡◌, ◌≢◌, ◌≤◌, ◌↔◌, ◌⊎◌, pos, true, false, length, take, IfSome, IfNone, []};
ghost use Rattle.coap_codec.specs.Message.{Message, Spells};
ghost use Rattle.coap_codec.specs.Refused.{HasNoSpelling};
ghost use Rattle.knifesilver.specs.Refusing.{IsAsked, IsRefusal, is_error, refusal_of};

use crate::answers::{BAD_ARGUMENT, DONE, NOTHING, SMALL_ROOM};
use coap_codec::{Head, View, decode, encode};
use coap_types::{Code, Id, Kind, Role, Token};

// How many codes a class has; and the classes of errors of a client and of a server (RFC 7252, section 3).
const DETAILS: u8 = 32;

const CLIENT_ERROR: u8 = 4;

const SERVER_ERROR: u8 = 5;

// Whether the code is of class 4 or 5.
fn is_error(code: u8) -> bool
    ensures { result ≡ is_error code }
{
    code / DETAILS == CLIENT_ERROR || code / DETAILS == SERVER_ERROR
}

// By what a Confirmable request is told from others: its Message ID and its token. None where it is none.
fn asked(view: &View<'_>) -> Option<(Id, Token)>
    ensures some { IfSome result (λ it. IsAsked view.now × (it.0.0 ≡ view.now.id) × (it.1 ≡ view.now.token)) }
    ensures none { IfNone result (IsAsked view.now → ⊥) }
{
    if view.kind() != Kind::Con || Role::of(view.code()) != Role::Request {
        return None;
    }
    match Token::new(view.token()) {
        Some(token) => Some((view.id(), token)),
        None => None,
    }
}

// Writes the answer of a request to the front of the room: how many bytes it has. None where it does not fit.
fn answer(id: Id, token: Token, code: u8, room: &mut [u8]) -> Option<usize>
    requires { is_error code ≡ true }
    ensures some { IfSome result (λ len. (len ≤ length room.old) × (length room.new ≡ length room.old)
        × Spells (take len room.new)
        (record { kind = Kind.Ack; code = code; id = id.0; token = token; options = []; payload = [] })) }
    ensures none { IfNone result (HasNoSpelling
        (record { kind = Kind.Ack; code = code; id = id.0; token = token; options = []; payload = [] })
        (length room.old)) }
{
    let head = Head {
        kind: Kind::Ack,
        code: Code(code),
        id,
        token,
    };
    match encode(&head, &[], &[], room) {
        Ok(len) => Some(len),
        Err(_) => None,
    }
}

/// The answer of a Confirmable request that is not fed: the acknowledgement with its Message ID, its token and the code, and
/// nothing else. 1 with its length, and its bytes at the front of the room; 0 where the datagram gets none. It changes
/// nothing else.
#[unsafe(no_mangle)]
pub extern "C" fn ks_refuse(datagram: &[u8], code: u8, room: &mut [u8], len: &mut usize) -> i32
    // What is written is the answer, by that code, of the Confirmable request that the datagram spells.
    ensures answered { result ≡ pos 1 → IsRefusal datagram.now code room.new len.new }
    // A datagram gets no answer only where it spells no Confirmable request.
    ensures nothing { result ≡ pos 0 → (m : Message) → Spells datagram.now m → IsAsked m → ⊥ }
    // The code of an answer is refused exactly where it is not of class 4 or 5.
    ensures argument { (result ≡ BAD_ARGUMENT) ↔ (is_error code ≡ false) }
    // Where the room is too small for the answer of a request, no spelling of that answer fits the room.
    ensures long { result ≡ SMALL_ROOM → (m : Message) → Spells datagram.now m
        → IsAsked m × HasNoSpelling (refusal_of m code) (length room.old) }
    // To ask for the answer of a request is refused for its code or a room that is too small, and for nothing else.
    ensures only { (result ≡ pos 0) ⊎ ((result ≡ pos 1) ⊎ ((result ≡ BAD_ARGUMENT) ⊎ (result ≡ SMALL_ROOM))) }
{
    if !is_error(code) {
        return BAD_ARGUMENT;
    }
    match decode(datagram) {
        Ok(view) => match asked(&view) {
            Some((id, token)) => match answer(id, token, code, room) {
                Some(written) => {
                    *len = written;
                    DONE
                }
                None => SMALL_ROOM,
            },
            None => NOTHING,
        },
        Err(_) => NOTHING,
    }
}
