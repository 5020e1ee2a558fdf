//! How a message is sent: its Message ID, its bytes and its first timeout (RFC 7252, section 4.2).
ghost use Rattle.std.specs.Prelude.{◌≡◌, ◌<◌, ◌+◌, ◌%◌, ◌++◌, ◌∷◌, [], false};
ghost use Rattle.std.specs.Vec.{vec_len, vec_capacity};
ghost use Rattle.coap_types.specs.declared.message.Kind.TheVariants.{Con, Non};
ghost use Rattle.coap_codec.specs.Spelling.{message_bytes};
ghost use Rattle.coap_layer.specs.Machine.Parts.{open_before};
ghost use Rattle.coap_layer.specs.Sendable.{IsSendable};
ghost use Rattle.coap_layer.specs.Machine.Sendings.{open_now};
ghost use Rattle.coap_layer.specs.Machine.Sound.{IsReady};
ghost use Rattle.coap_layer.specs.Trace.{with_head};
ghost use Rattle.coap_layer.specs.Machine.Ups.{refusal_of};
ghost use Rattle.coap_types.specs.declared.transmission.TheConstants.{ACK_TIMEOUT_MS as ack_timeout};
ghost use Rattle.coap_types.specs.declared.transmission.TheConstants.{TIMEOUT_VALUES as timeout_values};

use crate::SendRefusal;
use crate::content::{Content, spell};
use crate::datagram::{Datagram, push_within};
use crate::lists::Lists;
use crate::retransmission::Sending;
use crate::room::{Room, copied};
use coap_types::limits::MAX_MESSAGE_LEN;
use coap_types::transmission::{ACK_TIMEOUT_MS, TIMEOUT_VALUES};
use coap_types::{Endpoint, Id, Kind, Moment};
use std::alloc::Allocator;
use std::hash::BuildHasher;

/// Why a message is not sent, but for want of memory.
pub(crate) fn refusal(busy: bool, free: bool) -> Option<SendRefusal>
    ensures { result ≡ refusal_of busy free }
{
    if busy {
        return Some(SendRefusal::Outstanding);
    }
    if !free {
        return Some(SendRefusal::NoIds);
    }
    None
}

// The initial timeout that the word picks, in milliseconds.
fn initial_timeout(word: u64) -> u16
    ensures { result ≡ ack_timeout + word % timeout_values }
{
    (ACK_TIMEOUT_MS + word % TIMEOUT_VALUES) as u16
}

// Keeps a Confirmable message that is sent now, for which there is room.
fn keep<A: Allocator + Copy, S: BuildHasher>(lists: &mut Lists<A, S>, sending: Sending<A>)
    requires { vec_len lists.old.sendings < vec_capacity lists.old.sendings }
    ensures sendings { lists.new.sendings.items ≡ lists.old.sendings.items ++ sending ∷ [] }
    ensures entries { lists.new.entries ≡ lists.old.entries }
    ensures waiting { lists.new.waiting ≡ lists.old.waiting }
{
    let _ = lists.sendings.push(sending);
}

/// When a Confirmable message is sent first, and the word that picks its initial timeout (RFC 7252,
/// section 4.2).
#[derive(Clone, Copy)]
pub(crate) struct FirstSending {
    pub(crate) at: Moment,
    pub(crate) word: u64,
}

/// Sends a Confirmable message, for which there is room (RFC 7252, section 4.2).
pub(crate) fn send_con<A: Allocator + Copy, S: BuildHasher>(
    room: &mut Room<A>,
    begun: FirstSending,
    to: Endpoint,
    id: Id,
    content: &Content<'_>,
    lists: &mut Lists<A, S>,
)
    requires sendable { IsSendable content.now }
    requires room { IsReady room.old lists.old }
    ensures open { open_now lists.new.sendings.items ≡ open_now lists.old.sendings.items
        ++ record {
          to = to;
          id = id.0;
          bytes = message_bytes (with_head Con id.0 content.now);
          timeout = ack_timeout + begun.word % timeout_values;
          first = begun.at.0;
          last = begun.at.0;
        } ∷ [] }
    ensures before { open_before lists.new.sendings.items ≡ open_before lists.old.sendings.items }
    ensures waiting { lists.new.waiting.items ≡ lists.old.waiting.items
        ++ record { to = to; bytes = message_bytes (with_head Con id.0 content.now) } ∷ [] }
    ensures entries { lists.new.entries ≡ lists.old.entries }
    ensures spent { room.new.is_made ≡ false }
{
    let mut buffer = [0; MAX_MESSAGE_LEN];
    let len = spell(content, Kind::Con, id, &mut buffer);
    let sent = copied(&buffer[..len], &mut room.sent);
    let bytes = copied(&buffer[..len], &mut room.kept);
    room.is_made = false;
    let sending = Sending {
        to,
        id,
        bytes,
        timeout: initial_timeout(begun.word),
        first: begun.at,
        last: Some(begun.at),
        before: None,
    };
    keep(lists, sending);
    push_within(&mut lists.waiting, Datagram { to, bytes: sent });
}

/// Sends a Non-confirmable message, for which there is room (RFC 7252, section 4.3).
pub(crate) fn send_non<A: Allocator + Copy, S: BuildHasher>(
    room: &mut Room<A>,
    to: Endpoint,
    id: Id,
    content: &Content<'_>,
    lists: &mut Lists<A, S>,
)
    requires sendable { IsSendable content.now }
    requires room { IsReady room.old lists.old }
    ensures waiting { lists.new.waiting.items ≡ lists.old.waiting.items
        ++ record { to = to; bytes = message_bytes (with_head Non id.0 content.now) } ∷ [] }
    ensures sendings { lists.new.sendings ≡ lists.old.sendings }
    ensures entries { lists.new.entries ≡ lists.old.entries }
    ensures spent { room.new.is_made ≡ false }
{
    let mut buffer = [0; MAX_MESSAGE_LEN];
    let len = spell(content, Kind::Non, id, &mut buffer);
    let bytes = copied(&buffer[..len], &mut room.sent);
    room.is_made = false;
    push_within(&mut lists.waiting, Datagram { to, bytes });
}
