//! From a message to the datagram that spells it (RFC 7252, section 3).
ghost use Rattle.std.specs.Prelude.{◌≡◌, ◌≤◌, true, length, take, drop, nat_le, IsTrue, IfSome, IfNone, IfOk, IfErr};
ghost use Rattle.std.specs.Prelude.{OnErr, ◌↔◌};
ghost use Rattle.std.specs.List.{list_all};
ghost use Rattle.coap_types.specs.CoapOption.{options_of};
ghost use Rattle.coap_types.specs.declared.token.TheConstants.{MAX_TOKEN_LEN as max_token_len};
ghost use Rattle.coap_codec.specs.Message.{Spells, message};
ghost use Rattle.coap_codec.specs.Refused.{HasNoSpelling, IsEmptyNotBare, Refused, ascends, is_short, refusal_number};
ghost use Rattle.coap_codec.specs.Writing.{Puts, IsWritable, spelled_length};
ghost use Rattle.coap_codec.specs.Spelling.{message_bytes};

use crate::head::{HEADER_LEN, Head, header};
use crate::option_list::{are_short, ascends};
use crate::option_put::{put_options, room_behind};
use crate::payload::put_payload;
use crate::put::put;
use coap_types::{Code, Opt};
use std::fmt;

/// Why a message was not written.
#[derive(Clone, Copy, Debug, PartialEq, Eq)]
pub enum Refusal {
    /// The message has a spelling, and it is longer than the room.
    NoRoom,
    /// An option's number is below that of the option before it (RFC 7252, section 3.1).
    OptionOrder,
    /// An option's value is longer than 65,804 bytes (RFC 7252, section 3.1).
    OptionTooLong,
    /// Code 0.00 with a token, an option or a payload (RFC 7252, section 4.1).
    EmptyNotBare,
}

impl Refusal {
    /// The number of the refusal, 1 to 4, in the order of the variants.
    pub fn number(self) -> u8
        // The number of a refusal is its place among the four.
        ensures { result ≡ refusal_number self }
    {
        match self {
            Refusal::NoRoom => 1,
            Refusal::OptionOrder => 2,
            Refusal::OptionTooLong => 3,
            Refusal::EmptyNotBare => 4,
        }
    }
}

/// The variant's name.
impl fmt::Display for Refusal {
    ghost use Rattle.std.specs.Prelude.{Some};
    ghost use Rattle.coap_codec.specs.Refused.{refusal_name};

    ghost output = { λ r. Some (refusal_name r) };

    fn fmt<W: fmt::Write>(&self, f: &mut fmt::Formatter<W>) -> fmt::Result {
        f.write_str(match self {
            Refusal::NoRoom => "NoRoom",
            Refusal::OptionOrder => "OptionOrder",
            Refusal::OptionTooLong => "OptionTooLong",
            Refusal::EmptyNotBare => "EmptyNotBare",
        })
    }
}

// The code's byte, which fits its type.
fn code_of(head: &Head) -> u8
    ensures { result ≡ head.now.code.0 }
{
    head.code.0
}

// The Message ID's number, which fits its type.
fn id_of(head: &Head) -> u16
    ensures { result ≡ head.now.id.0 }
{
    head.id.0
}

// The message is Empty by its code, and has more than a header.
fn is_empty_not_bare(head: &Head, options: &[Opt<'_>], payload: &[u8]) -> bool
    ensures { IsTrue result ↔ IsEmptyNotBare (message head.now options.now payload.now) }
{
    let bare = head.token.as_slice().is_empty() && options.is_empty() && payload.is_empty();
    head.code == Code::EMPTY && !bare
}

// There is room for a message with this token.
fn has_room(token: &[u8], options: &[Opt<'_>], payload: &[u8], room: usize) -> bool
    requires token { length token.now ≤ max_token_len }
    requires order { ascends 0 (options_of options.now) ≡ true }
    requires short { list_all is_short (options_of options.now) ≡ true }
    ensures { result ≡ nat_le (spelled_length token.now (options_of options.now) payload.now) room }
{
    let front = HEADER_LEN + token.len();
    if room < front {
        return false;
    }
    match room_behind(options, room - front) {
        None => false,
        Some(left) => payload.is_empty() || payload.len() < left,
    }
}

// Why a message is not to be written into this room.
#[inline(always)]
fn refuses(head: &Head, options: &[Opt<'_>], payload: &[u8], room: usize) -> Option<Refusal>
    ensures refused { IfSome result (λ r. Refused r (message head.now options.now payload.now) room) }
    ensures none { IfNone result (IsWritable (message head.now options.now payload.now) room) }
{
    // A number behind a reference is known to fit its type once a call has answered it.
    let _code = code_of(head);
    let _id = id_of(head);
    if is_empty_not_bare(head, options, payload) {
        return Some(Refusal::EmptyNotBare);
    }
    if !ascends(options) {
        return Some(Refusal::OptionOrder);
    }
    if !are_short(options) {
        return Some(Refusal::OptionTooLong);
    }
    if !has_room(head.token.as_slice(), options, payload, room) {
        return Some(Refusal::NoRoom);
    }
    None
}

// Writes a message from the start on, and answers its length.
#[inline(always)]
fn put_message(out: &mut [u8], head: &Head, options: &[Opt<'_>], payload: &[u8]) -> usize
    requires { IsWritable (message head.now options.now payload.now) (length out.old) }
    ensures written { Puts out.old 0 (message_bytes (message head.now options.now payload.now)) out.new }
    ensures end { result ≡ length (message_bytes (message head.now options.now payload.now)) }
{
    let token = head.token.as_slice();
    let at = put(out, 0, &header(head));
    let at = put(out, at, token);
    let at = put_options(out, at, options);
    put_payload(out, at, payload)
}

/// Writes the spelling of a message from the start of `out` on, and answers its length in bytes
/// (RFC 7252, section 3).
///
/// A message is refused with the first that holds of [`Refusal::EmptyNotBare`],
/// [`Refusal::OptionOrder`], [`Refusal::OptionTooLong`] and [`Refusal::NoRoom`].
#[inline(always)]
pub fn encode(
    head: &Head,
    options: &[Opt<'_>],
    payload: &[u8],
    out: &mut [u8],
) -> Result<usize, Refusal>
    // The front of the buffer, as long as the answer says, spells the message (RFC 7252, section 3).
    ensures spelled { IfOk result (λ n. (n ≤ length out.old)
        × Spells (take n out.new) (message head.now options.now payload.now)) }
    // What is behind the spelling stays.
    ensures behind { IfOk result (λ n. drop n out.new ≡ drop n out.old) }

    // The refusal is the first that holds, in a fixed order.
    ensures refused { IfErr result (λ r. Refused r (message head.now options.now payload.now) (length out.old)) }
    // A message is refused only where no spelling of it has room in the buffer.
    ensures none { OnErr result (HasNoSpelling (message head.now options.now payload.now) (length out.old)) }
    // Where a message is refused, the buffer is as it was.
    ensures unchanged { OnErr result (out.new ≡ out.old) }
{
    if let Some(refusal) = refuses(head, options, payload, out.len()) {
        return Err(refusal);
    }
    Ok(put_message(out, head, options, payload))
}
