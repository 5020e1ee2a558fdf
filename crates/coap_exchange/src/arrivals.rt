//! What a client's side makes of a message that its message layer hands up (RFC 7252, section 5.3.2).
ghost use Rattle.std.specs.Prelude.{◌≡◌, ℕ, Bool, true, ◌++◌, is_some, if◌then◌else◌};
ghost use Rattle.std.specs.Option.{option_map};
ghost use Rattle.coap_types.specs.Recognised as options;
ghost use Rattle.coap_types.specs.declared.direction.Direction.TheVariants as direction;
ghost use Rattle.coap_layer.specs.Machine.Shown.{MayReply};
ghost use Rattle.coap_layer.specs.Machine.Steps.{Steps};
ghost use Rattle.coap_layer.specs.Trace as below;
ghost use Rattle.coap_layer.specs.Machine.Ups.{answer_as, IsTick};
ghost use Rattle.coap_exchange.specs.declared.asker.AskRefusal.TheVariants as refusals;
ghost use Rattle.coap_exchange.specs.declared.asker.Event.TheVariants as events;
ghost use Rattle.coap_exchange.specs.declared.asker.Turn.TheVariants as turns;
ghost use Rattle.coap_exchange.specs.declared.matching.Verdict.TheVariants as verdicts;
ghost use Rattle.coap_exchange.specs.AskerArrivals.{known_of, verdict_on, id_in, reply_by, settles, replying, settling};
ghost use Rattle.coap_exchange.specs.AskerArrivals.{told, observe, is_of_request, turn_of, running_unless};
ghost use Rattle.coap_exchange.specs.AskerRequests.{token_or};
ghost use Rattle.coap_exchange.specs.Machine.AskerShown.{own_with, refusal_as};
ghost use Rattle.coap_exchange.specs.Tokens.{token_of};

use crate::asker::{AskRefusal, Event, Exchange, Turn};
use crate::held::{Held, has_id, has_token, has_waited, is_cancel};
use crate::matching::{Known, Verdict, judge, judge_request, reply_by, settles};
use crate::token_source::token_of;
use coap_codec::View;
use coap_layer::{Layer, SendRefusal, Tick, Up};
use coap_types::option_number::OBSERVE;
use coap_types::{Direction, Endpoint, Id, Moment, Token, carries, lacks_critical};
use std::alloc::Allocator;
use std::hash::BuildHasher;

// Whether the response has a critical option that is not recognised (RFC 7252, section 5.4.1).
fn has_bad_option(response: &View<'_>) -> bool
    ensures { result ≡ options.lacks_critical direction.Response response.now.options }
{
    lacks_critical(Direction::Response, response.options())
}

// Whether the response is a notification (RFC 7641, section 3.2).
fn is_notification(response: &View<'_>) -> bool
    ensures { result ≡ options.carries direction.Response observe response.now.options }
{
    carries(Direction::Response, OBSERVE, response.options())
}

// What is known of a response that came from there.
fn known(server: Endpoint, held: &Held, from: Endpoint, response: &View<'_>) -> Known
    ensures { (clock word : ℕ) → result ≡ known_of (own_with clock server word held.now) from response.now }
{
    let of_exchange = has_token(&held.running, response.token());
    Known {
        from_server: from == server,
        of_exchange,
        same_id: has_id(&held.running, response.id()),
        kept: held.kept.has(response.token()),
        bad_option: has_bad_option(response),
        cancelled: of_exchange && is_cancel(&held.running) && is_notification(response),
    }
}

// Whether what came from there, or went there, under this Message ID is of the request of the
// exchange that runs.
fn is_of_request(server: Endpoint, held: &Held, from: Endpoint, id: Id) -> bool
    ensures { (clock word : ℕ) → result ≡ is_of_request (own_with clock server word held.now) from id.0 }
{
    from == server && has_id(&held.running, id)
}

// The verdict on what is of the request; else it is ignored.
fn of_request(is: bool, verdict: Verdict) -> Verdict
    ensures { result ≡ (if is then verdict else verdicts.Ignore) }
{
    if is { verdict } else { Verdict::Ignore }
}

/// What becomes of what the layer hands up.
pub(crate) fn verdict(server: Endpoint, held: &Held, from: Endpoint, up: &Up<'_>) -> Verdict
    ensures { (clock word : ℕ) → result ≡ verdict_on (own_with clock server word held.now) from (answer_as up.now) }
{
    match up {
        Up::Response(response) => judge(response.kind(), known(server, held, from, response)),
        Up::Request { message, .. } => judge_request(message.kind()),
        Up::Acked(id) => of_request(is_of_request(server, held, from, *id), Verdict::Await),
        Up::Reset(id) => of_request(is_of_request(server, held, from, *id), Verdict::EndByReset),
        Up::Unmatched(_) | Up::Dropped | Up::Replayed | Up::Rejected => Verdict::Ignore,
    }
}

/// The Message ID of what is handed up.
pub(crate) fn id_in(up: &Up<'_>) -> Id
    ensures { result.0 ≡ id_in (answer_as up.now) }
{
    match up {
        Up::Response(message) | Up::Request { message, .. } => message.id(),
        Up::Acked(_)
        | Up::Reset(_)
        | Up::Unmatched(_)
        | Up::Dropped
        | Up::Replayed
        | Up::Rejected => Id(0),
    }
}

/// What is told.
pub(crate) fn told<'a>(verdict: Verdict, up: Up<'a>) -> Option<Event<'a>>
    ensures { result ≡ told verdict (answer_as up.entry) }
{
    match (verdict, up) {
        (Verdict::AnswerCon | Verdict::Answer, Up::Response(response)) => {
            Some(Event::Answer(response))
        }
        (Verdict::NoticeCon | Verdict::Notice, Up::Response(response)) => {
            Some(Event::Notice(response))
        }
        (Verdict::EndByReset, _) => Some(Event::Reset),
        (_, _) => None,
    }
}

/// Answers an arrival, and settles the request, as the verdict wants it.
pub(crate) fn act<A: Allocator + Copy, S: BuildHasher>(
    layer: &mut Layer<A, S>,
    server: Endpoint,
    running: &Option<Exchange>,
    from: Endpoint,
    id: Id,
    verdict: Verdict,
)
    requires { is_some (reply_by verdict id.0) ≡ true → MayReply layer.old from id.0 }
    ensures steps { (settled : Bool)
        × Steps layer.old.state (settling (settles verdict) server running.now settled ++ replying from id.0
        (reply_by verdict id.0)) layer.new.state }
    ensures before { layer.new.before ≡ layer.old.before }
{
    if let Some(bytes) = reply_by(verdict, id) {
        layer.reply(from, id, &bytes);
    }
    if settles(verdict) {
        settle(layer, server, running);
    }
}

// Ends the retransmission of the request.
fn settle<A: Allocator + Copy, S: BuildHasher>(
    layer: &mut Layer<A, S>,
    server: Endpoint,
    running: &Option<Exchange>,
)
    ensures steps { (settled : Bool)
        × Steps layer.old.state (settling true server running.now settled) layer.new.state }
    ensures before { layer.new.before ≡ layer.old.before }
{
    if let Some(exchange) = running {
        let _ = layer.settle(server, exchange.id);
    }
}

/// What a tick of the layer is to the client.
pub(crate) fn turn_of(server: Endpoint, held: &Held, at: Moment, tick: Tick) -> Turn
    ensures { (clock word : ℕ) (answer : below.Answer) → IsTick tick answer
        → result ≡ turn_of (own_with clock server word held.now) at.0 answer }
{
    match tick {
        Tick::Expired(to, id) => expired(is_of_request(server, held, to, id)),
        Tick::Copied(_) => Turn::Copied,
        Tick::Idle => waited(has_waited(at, &held.running)),
    }
}

// The failure of the request, or of none.
fn expired(is: bool) -> Turn
    ensures { result ≡ (if is then turns.End events.Timeout else turns.Idle) }
{
    if is {
        Turn::End(Event::Timeout)
    } else {
        Turn::Idle
    }
}

// The end of the wait for a response, or nothing.
fn waited(is: bool) -> Turn
    ensures { result ≡ (if is then turns.End events.NoResponse else turns.Idle) }
{
    if is {
        Turn::End(Event::NoResponse)
    } else {
        Turn::Idle
    }
}

/// What a turn leaves of the exchange.
pub(crate) fn unless_ended(turn: &Turn, running: Option<Exchange>) -> Option<Exchange>
    ensures { result ≡ running_unless turn.now running }
{
    match turn {
        Turn::End(_) => None,
        Turn::Idle | Turn::Copied => running,
    }
}

/// Why a request is refused where no token is left: the lack of a Message ID is told first.
pub(crate) fn spent_refusal(free: bool) -> AskRefusal
    ensures { result ≡ (if free then refusals.TokensSpent else refusals.NoIds) }
{
    if free {
        AskRefusal::TokensSpent
    } else {
        AskRefusal::NoIds
    }
}

/// Why a request is refused, by why its message is.
pub(crate) fn send_refusal(refusal: SendRefusal) -> AskRefusal
    ensures { result ≡ refusal_as refusal }
{
    match refusal {
        SendRefusal::Outstanding => AskRefusal::Running,
        SendRefusal::NoIds => AskRefusal::NoIds,
        SendRefusal::Memory => AskRefusal::Memory,
    }
}

/// The token of a request: that of a cancel, or the one that is given next.
pub(crate) fn token_for(word: u64, given: u64, cancel: Option<&Token>) -> Token
    ensures { result ≡ token_or (option_map (λ t. t.now) cancel.entry) (token_of word given) }
{
    match cancel {
        Some(token) => token.copy(),
        None => token_of(word, given),
    }
}
