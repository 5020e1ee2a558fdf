//! From a datagram to the message that it spells, or to its fault (RFC 7252, section 3).
ghost use Rattle.std.specs.Prelude.{◌≡◌, ◌≤◌, ◌⊎◌, length, IfOk, IfErr, OnErr};
ghost use Rattle.coap_codec.specs.Faulty.{Faulty, IsFramed, place, head_of};
ghost use Rattle.coap_codec.specs.Message.{Message, Spells};
ghost use Rattle.coap_codec.specs.Decoded.{Reads};
ghost use Rattle.coap_codec.specs.Reading.{ReadsBody, frame_fault};

use crate::fault::{Fault, Reason};
use crate::head::{HEADER_LEN, VERSION, id_of, kind_of, token_len_of, version_of};
use crate::option_walk::behind_options;
use crate::payload::payload_at;
use crate::view::View;
use coap_types::{Code, MAX_TOKEN_LEN};

// The first fault in front of the options, and its place.
#[tactic(auto, unfolding(crate::specs::Reading::frame_fault))]
fn frame_fault(bytes: &[u8]) -> Option<(Reason, usize)>
    ensures { result ≡ frame_fault bytes.now }
{
    if bytes.len() < HEADER_LEN {
        return Some((Reason::Short, bytes.len()));
    }
    if version_of(bytes[0]) != VERSION {
        return Some((Reason::Version, 0));
    }
    let token_len = token_len_of(bytes[0]);
    if token_len > MAX_TOKEN_LEN {
        return Some((Reason::TokenLength, 0));
    }
    if Code(bytes[1]) == Code::EMPTY {
        if token_len == 0 && bytes.len() == HEADER_LEN {
            return None;
        }
        return Some((Reason::EmptyNotBare, HEADER_LEN));
    }
    if bytes.len() < HEADER_LEN + token_len {
        return Some((Reason::TokenCut, bytes.len()));
    }
    None
}

// The place of a fault, in `len` bytes of which what is behind the options begins at `start`.
fn place(reason: Reason, start: usize, len: usize) -> usize
    ensures { result ≡ place reason start len }
{
    match reason {
        Reason::OptionCut | Reason::NoPayload => len,
        _ => start,
    }
}

// The fault for this reason at this place.
fn fault(bytes: &[u8], reason: Reason, at: usize) -> Fault
    requires { reason ≡ Reason.Short ⊎ 4 ≤ length bytes.now }
    ensures reason { result.reason ≡ reason }
    ensures at { result.at ≡ at }
    ensures head { result.head ≡ head_of reason bytes.now }
{
    let head = match reason {
        Reason::Short | Reason::Version => None,
        _ => Some((kind_of(bytes[0]), id_of(bytes))),
    };
    Fault { reason, at, head }
}

// The message of bytes whose header and token are sound.
#[tactic(auto, unfolding(crate::specs::Reading::body_at))]
fn body(bytes: &[u8]) -> Result<View<'_>, Fault>
    requires { IsFramed bytes.now }
    ensures { ReadsBody bytes.now result }
{
    let (_, behind) = bytes.split_at(HEADER_LEN);
    let (token, options) = behind.split_at(token_len_of(bytes[0]));
    let (rest, reason) = behind_options(options);
    match payload_at(reason, rest) {
        Ok(payload) => Ok(View {
            kind: kind_of(bytes[0]),
            code: Code(bytes[1]),
            id: id_of(bytes),
            token,
            options,
            payload,
        }),
        Err(reason) => {
            let at = place(reason, bytes.len() - rest.len(), bytes.len());
            Err(fault(bytes, reason, at))
        }
    }
}

// The message of the bytes, or their first fault.
fn read(bytes: &[u8]) -> Result<View<'_>, Fault>
    ensures { Reads bytes.now result }
{
    if let Some((reason, at)) = frame_fault(bytes) {
        return Err(fault(bytes, reason, at));
    }
    body(bytes)
}

/// The message that a datagram spells, lent from it, or the datagram's first fault (RFC 7252,
/// section 3).
pub fn decode(bytes: &[u8]) -> Result<View<'_>, Fault>
    // What is read is spelled so.
    ensures found { IfOk result (λ m. Spells bytes.now m) }
    // What is spelled so is read.
    ensures only { (m : Message) → Spells bytes.now m → result ≡ Ok m }
    // Where there is a fault, no message is spelled.
    ensures none { OnErr result ((m : Message) → Spells bytes.now m → ⊥) }
    // The fault is the first, at its place.
    ensures fault { IfErr result (λ f. Faulty bytes.now f.reason f.at) }
    // From the third fault on the answer has the type and the Message ID of the datagram too.
    ensures head { IfErr result (λ f. f.head ≡ head_of f.reason bytes.now) }
{
    read(bytes)
}
