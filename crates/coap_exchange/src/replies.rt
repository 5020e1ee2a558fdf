//! What a server's side replies: a piggybacked response, an acknowledgement or a Reset (RFC 7252, 4.2 and 5.2).
ghost use Rattle.std.specs.Prelude.{◌≡◌, ◌≤◌, ℕ, Some, None, IfSome, is_some, length, take, true, ◌&&◌, not};
ghost use Rattle.std.specs.Vec.{vec_len, vec_capacity};
ghost use Rattle.coap_types.specs.declared.message.Kind.TheVariants.{Con, Ack};
ghost use Rattle.coap_types.specs.declared.limits.TheConstants.{MAX_MESSAGE_LEN as max_message_len};
ghost use Rattle.coap_types.specs.declared.token.TheConstants.{MAX_TOKEN_LEN as max_token_len};
ghost use Rattle.coap_codec.specs.Message.{Message};
ghost use Rattle.coap_codec.specs.Spelling.{message_bytes};
ghost use Rattle.coap_layer.specs.Sendable.{IsSendable};
ghost use Rattle.coap_layer.specs.Machine.Shown.{MayReply};
ghost use Rattle.coap_layer.specs.Machine.State as layer_state;
ghost use Rattle.coap_layer.specs.Machine.State.{is_free};
ghost use Rattle.coap_layer.specs.Machine.Steps.{Steps};
ghost use Rattle.coap_layer.specs.Trace as below;
ghost use Rattle.coap_layer.specs.Trace.{with_head};
ghost use Rattle.coap_layer.specs.Machine.Ups.{answer_as};
ghost use Rattle.coap_layer.specs.Words.{handed_by};
ghost use Rattle.coap_exchange.specs.Machine.AnswererShown.{Takes, sending_as};
ghost use Rattle.coap_types.specs.declared.endpoint.Endpoint.{Endpoint};
ghost use Rattle.coap_exchange.specs.AnswererSteps.{answering, asked_in, asked_of, content_of, handed_up, reject_by};
ghost use Rattle.coap_exchange.specs.AnswererSteps.{reset_by, separate_after, unmatched_by, IsSentAs};
ghost use Rattle.coap_exchange.specs.AnswererTrace.{Own};
ghost use Rattle.coap_exchange.specs.AskerArrivals.{id_in, replying};
ghost use Rattle.coap_exchange.specs.Machine.Listed.{listed, listed_before};

use crate::answerer::{Asked, Ended, Response};
use crate::arrivals::id_in;
use crate::listed::Listed;
use crate::separate::{Separate, found, take_off};
use coap_codec::{Head, View, encode, one_spelling};
use coap_layer::{Content, Layer, Up, reset};
use coap_types::limits::MAX_MESSAGE_LEN;
use coap_types::{Endpoint, Id, Kind, Token, reveal};
use std::alloc::Allocator;
use std::hash::BuildHasher;

/// The same request again, if there is one.
pub(crate) fn copied(asked: &Option<Asked>) -> Option<Asked>
    ensures { result ≡ asked.now }
{
    let asked = asked.as_ref()?;
    Some(asked.copy())
}

/// The same end again, if there is one.
pub(crate) fn copied_end(ended: &Option<Ended>) -> Option<Ended>
    ensures same { result ≡ ended.now }
    ensures few { IfSome result (λ e. length e.token ≤ max_token_len) }
{
    let ended = ended.as_ref()?;
    reveal(&ended.token);
    Some(Ended {
        to: ended.to,
        token: ended.token.copy(),
        observe: ended.observe,
    })
}

// What the response needs of its request.
fn asked_of(from: Endpoint, request: &View<'_>) -> Asked
    requires { length request.now.token ≤ max_token_len }
    ensures { result ≡ asked_of from request.now }
{
    match Token::new(request.token()) {
        Some(token) => Asked {
            from,
            kind: request.kind(),
            id: request.id(),
            token,
        },
        None => unreachable!("a token has at most 8 bytes"),
    }
}

/// The request that is handed up, as its response needs it.
pub(crate) fn asked_in(from: Endpoint, up: &Up<'_>) -> Option<Asked>
    requires { (m : Message) → handed_by (answer_as up.now) ≡ Some m → length m.token ≤ max_token_len }
    ensures asked { result ≡ asked_in (handed_up from (answer_as up.now)) }
    ensures few { IfSome result (λ a. length a.token ≤ max_token_len) }
{
    match up {
        Up::Request {
            message,
            remembered,
        } if *remembered => Some(asked_of(from, message)),
        _ => None,
    }
}

/// The request that is handed up, and what it asks.
pub(crate) fn handed_up<'a>(asked: Option<Asked>, up: Up<'a>) -> Option<(Asked, View<'a>)>
    ensures { (from : Endpoint) → asked ≡ asked_in (handed_up from (answer_as up.entry))
        → result ≡ handed_up from (answer_as up.entry) }
{
    match (asked, up) {
        (
            Some(asked),
            Up::Request {
                message,
                remembered: true,
            },
        ) => Some((asked, message)),
        (_, _) => None,
    }
}

// The Reset that rejects a response, unless an acknowledgement carries it.
fn rejection(up: &Up<'_>) -> Option<[u8; 4]>
    ensures { result ≡ reject_by (answer_as up.now) }
{
    match up {
        Up::Response(response) => match response.kind() {
            Kind::Con | Kind::Non => Some(reset(response.id())),
            Kind::Ack | Kind::Rst => None,
        },
        _ => None,
    }
}

/// Rejects a response that arrived, and answers whether it did (RFC 7252, sections 4.2 and 4.3).
pub(crate) fn reject<A: Allocator + Copy, S: BuildHasher>(
    layer: &mut Layer<A, S>,
    from: Endpoint,
    up: &Up<'_>,
) -> bool
    requires { (m : Message) → handed_by (answer_as up.now) ≡ Some m → MayReply layer.old from m.id }
    ensures steps { Steps layer.old.state (replying from (id_in (answer_as up.now))
        (reject_by (answer_as up.now))) layer.new.state }
    ensures before { layer.new.before ≡ layer.old.before }
    ensures rejects { result ≡ is_some (reject_by (answer_as up.now)) }
    ensures kept { reject_by (answer_as up.now) ≡ None → layer.new ≡ layer.old }
{
    match rejection(up) {
        Some(bytes) => {
            layer.reply(from, id_in(up), &bytes);
            true
        }
        None => false,
    }
}

/// Whether there is still room for a message, where there was and a response was rejected or not.
pub(crate) fn keeps_room(room: bool, rejected: bool) -> bool
    ensures { result ≡ (room && not rejected) }
{
    room && !rejected
}

/// The separate response that a Reset ends (RFC 7252, section 5.2.2).
pub(crate) fn reset_by(from: Endpoint, up: &Up<'_>, separate: &[Listed<Separate>]) -> Option<Ended>
    ensures { result ≡ reset_by from (answer_as up.now) (listed separate.now) }
{
    match up {
        Up::Reset(id) => found(separate, from, *id),
        _ => None,
    }
}

/// The Reset of what isn't outstanding, as of a Non-confirmable message.
pub(crate) fn unmatched_by(from: Endpoint, up: &Up<'_>) -> Option<(Endpoint, Id)>
    ensures { sending_as result ≡ unmatched_by from (answer_as up.now) }
{
    match up {
        Up::Unmatched(id) => Some((from, *id)),
        _ => None,
    }
}

// Takes the separate response off the list that an acknowledgement or a Reset ends.
fn off_where_ended(from: Endpoint, up: &Up<'_>, separate: &mut [Listed<Separate>])
    ensures now { listed separate.new ≡ separate_after from (answer_as up.now) (listed separate.old) }
    ensures before { listed_before separate.new ≡ listed_before separate.old }
    ensures len { length separate.new ≡ length separate.old }
{
    match up {
        Up::Acked(id) | Up::Reset(id) => take_off(separate, from, *id),
        _ => {}
    }
}

/// The same of a vector.
pub(crate) fn after_arrival<A: Allocator + Copy>(
    from: Endpoint,
    up: &Up<'_>,
    separate: &mut Vec<Listed<Separate>, A>,
)
    ensures now { listed separate.new.items ≡ separate_after from (answer_as up.now) (listed separate.old.items) }
    ensures before { listed_before separate.new.items ≡ listed_before separate.old.items }
    ensures len { vec_len separate.new ≡ vec_len separate.old }
    ensures capacity { vec_capacity separate.new ≡ vec_capacity separate.old }
{
    off_where_ended(from, up, separate);
}

// The head of a piggybacked response.
fn head_of(asked: &Asked, response: &Response<'_>) -> Head
    ensures kind { result.kind ≡ Ack }
    ensures code { result.code.0 ≡ response.now.code }
    ensures id { result.id ≡ asked.now.id }
    ensures token { result.token ≡ asked.now.token }
{
    Head {
        kind: Kind::Ack,
        code: response.code,
        id: asked.id,
        token: asked.token.copy(),
    }
}

// Spells the piggybacked response from the start of the buffer on, and answers its length.
fn spell(asked: &Asked, response: &Response<'_>, buffer: &mut [u8]) -> usize
    requires sendable { IsSendable (content_of asked.now response.now) }
    requires room { length buffer.old ≡ max_message_len }
    ensures bytes { take result buffer.new ≡ message_bytes
        (with_head Ack asked.now.id.0 (content_of asked.now response.now)) }
    ensures within { result ≤ length buffer.new }
    ensures len { length buffer.new ≡ length buffer.old }
{
    one_spelling();
    let head = head_of(asked, response);
    match encode(&head, response.options, response.payload, buffer) {
        Ok(len) => len,
        Err(_) => unreachable!("what is sendable has a spelling that fits"),
    }
}

// Sends the response in the acknowledgement of its request (RFC 7252, section 5.2.1).
fn piggyback<A: Allocator + Copy, S: BuildHasher>(
    layer: &mut Layer<A, S>,
    asked: &Asked,
    response: &Response<'_>,
)
    requires may { MayReply layer.old asked.now.from asked.now.id.0 }
    requires sendable { IsSendable (content_of asked.now response.now) }
    ensures step { (s : Own)
        → layer_state.Step layer.old.state layer.old.state.clock
        (answering s Con asked.now response.now) below.Nothing layer.new.state }
    ensures before { layer.new.before ≡ layer.old.before }
{
    let mut buffer = [0; MAX_MESSAGE_LEN];
    let len = spell(asked, response, &mut buffer);
    layer.reply(asked.from, asked.id, &buffer[..len]);
}

// Sends the response to a Non-confirmable request as such (RFC 7252, section 5.2.3).
fn send_plain<A: Allocator + Copy, S: BuildHasher>(
    layer: &mut Layer<A, S>,
    asked: &Asked,
    response: &Response<'_>,
)
    requires room { layer.old.has_room ≡ true }
    requires free { is_free layer.old.state.clock layer.old.state.upcoming layer.old.state.last_used ≡ true }
    requires sendable { IsSendable (content_of asked.now response.now) }
    ensures step { (id : ℕ)
        × layer_state.Step layer.old.state layer.old.state.clock
        (below.Plain asked.now.from (content_of asked.now response.now)) (below.Sent id) layer.new.state }
    ensures before { layer.new.before ≡ layer.old.before }
{
    let content = Content {
        code: response.code,
        token: &asked.token,
        options: response.options,
        payload: response.payload,
    };
    let now = layer.clock();
    match layer.plain(now, asked.from, &content) {
        Ok(_) => {}
        Err(_) => unreachable!("there is room and a Message ID is free"),
    }
}

/// Sends the response to the request that was handed up last.
pub(crate) fn send<A: Allocator + Copy, S: BuildHasher>(
    layer: &mut Layer<A, S>,
    asked: &Asked,
    response: &Response<'_>,
)
    requires takes { Takes layer.old asked.now }
    requires sendable { IsSendable (content_of asked.now response.now) }
    ensures sent { (sent : below.Answer) × IsSentAs asked.now.kind sent
        × ((s : Own) → layer_state.Step layer.old.state layer.old.state.clock
        (answering s asked.now.kind asked.now response.now) sent layer.new.state) }
    ensures before { layer.new.before ≡ layer.old.before }
{
    match asked.kind {
        Kind::Con => piggyback(layer, asked, response),
        Kind::Non | Kind::Ack | Kind::Rst => send_plain(layer, asked, response),
    }
}
