//! What a datagram says, before it is fed.
ghost use Rattle.std.specs.Prelude.{◌≡◌, ◌≢◌, ◌<◌, ◌+◌, pos, length, IfSome, IfNone};
ghost use Rattle.coap_types.specs.RequestPath.{path_of};
ghost use Rattle.coap_codec.specs.Message.{kind_number};
ghost use Rattle.coap_codec.specs.Faulty.{reason_number};
ghost use Rattle.coap_codec.specs.declared.fault.Reason.{Reason as ReasonSpec};
ghost use Rattle.knifesilver.specs.Answers.{IsAnswered, IsRefused};
ghost use Rattle.coap_paths.specs.PathTexts.{IsText, text_of};
ghost use Rattle.knifesilver.specs.Peeks.{IsBare, IsFault, IsHead, IsTold, IsTooLong, Tells};

use crate::answers::{NOTHING, SMALL_ROOM};
use crate::crossing::short_bytes;
use crate::numbers::fault_number;
use coap_codec::{Fault, Options, View, decode};
use coap_paths::put_segment;
use coap_types::Kind;
use coap_types::option_number::URI_PATH;

/// C's `ks_message`: what a datagram says, or its first fault.
#[repr(C)]
#[derive(Clone, Copy)]
pub struct KsMessage {
    /// Where the fault is, in bytes from the start; 0 where there is none.
    pub fault_at: usize,
    /// How many bytes the path has as text.
    pub path_len: usize,
    /// How many bytes the payload has.
    pub payload_len: usize,
    /// The Message ID; 0 where a fault hides it.
    pub id: u16,
    /// The type: 0 Confirmable, 1 Non-confirmable, 2 Acknowledgement, 3 Reset; 255 where a fault hides it.
    pub kind: u8,
    /// The code, class and detail in one byte; 0 at a fault.
    pub code: u8,
    /// How many bytes of the token count.
    pub token_len: u8,
    /// The token.
    pub token: [u8; 8],
}

// No type: a fault hides it.
const NO_KIND: u8 = 255;

// The number of a type (RFC 7252, section 3).
fn kind_number(kind: Kind) -> u8
    ensures { result ≡ kind_number kind }
{
    match kind {
        Kind::Con => 0,
        Kind::Non => 1,
        Kind::Ack => 2,
        Kind::Rst => 3,
    }
}

// Writes the values of Uri-Path, with a `/` before each: how many bytes they take. None where they do not fit.
fn put_uri_path(options: Options<'_>, room: &mut [u8]) -> Option<usize>
    ensures put { IfSome result (λ len. IsText (path_of options.entry) room.new len) }
    ensures none { IfNone result (length room.old < length (text_of (path_of options.entry))) }
{
    let mut len = 0usize;
    for option in options {
        if option.number == URI_PATH {
            len = put_segment(room, len, option.value)?;
        }
    }
    Some(len)
}

// What a message says; None where its path does not fit.
fn message(view: &View<'_>, room: &mut [u8]) -> Option<KsMessage>
    ensures told { IfSome result (λ told. IsTold told room.new view.now) }
    ensures long { IfNone result (length room.old < length (text_of (path_of view.now.options))) }
{
    let (token, token_len) = short_bytes(view.token());
    let path_len = put_uri_path(view.options(), room)?;
    Some(KsMessage {
        fault_at: 0,
        path_len,
        payload_len: view.payload().len(),
        id: view.id().0,
        kind: kind_number(view.kind()),
        code: view.code().0,
        token_len,
        token,
    })
}

// What is known of a datagram that is at fault.
fn fault(fault: Fault) -> KsMessage
    ensures at { result.fault_at ≡ fault.at }
    ensures head { IsHead result fault.head }
    ensures bare { IsBare result }
{
    let token = [0; 8];
    let (kind, id) = match fault.head {
        Some((kind, id)) => (kind_number(kind), id.0),
        None => (NO_KIND, 0),
    };
    KsMessage {
        fault_at: fault.at,
        path_len: 0,
        payload_len: 0,
        id,
        kind,
        code: 0,
        token_len: 0,
        token,
    }
}

/// What a datagram says, with its path as text: 0, or the number of its first fault. It changes nothing else.
#[unsafe(no_mangle)]
pub extern "C" fn ks_peek(datagram: &[u8], shown: &mut KsMessage, room: &mut [u8]) -> i32
    // What is told of a datagram is the message that it spells.
    ensures told { result ≡ pos 0 → Tells datagram.now shown.new room.new }
    // A datagram that is answered with a number is at fault, and that is 80 and the number of its first fault.
    ensures fault { IsAnswered result → result ≢ pos 0
        → (reason : ReasonSpec) × (result ≡ pos (80 + reason_number reason)) × IsFault datagram.now shown.new reason }
    // Where the room is too small for it, a datagram spells a message with a longer path, and nothing is told.
    ensures long { IsRefused result → (result ≡ SMALL_ROOM) × IsTooLong datagram.now (length room.old)
        × (shown.new ≡ shown.old) }
{
    match decode(datagram) {
        Ok(view) => match message(&view, room) {
            Some(message) => {
                *shown = message;
                NOTHING
            }
            None => SMALL_ROOM,
        },
        Err(why) => {
            *shown = fault(why);
            fault_number(why.reason)
        }
    }
}
