//! What time brings about at a server's side: room for a response, and what is due.
ghost use Rattle.std.specs.Prelude.{◌≡◌, ◌≤◌, ◌<◌, IsOk, OnOk, IfSome, max, Option, Some, None, true, false, length};
ghost use Rattle.std.specs.Prelude.{is_some, if◌then◌else◌};
ghost use Rattle.std.specs.Option.{option_map};
ghost use Rattle.std.specs.Vec.{vec_len, vec_capacity};
ghost use Rattle.coap_types.specs.Recognised.{has_number};
ghost use Rattle.coap_types.specs.CoapOption.{options_of};
ghost use Rattle.coap_layer.specs.Sendable.{IsSendable};
ghost use Rattle.coap_layer.specs.Machine.State as layer_state;
ghost use Rattle.coap_layer.specs.Machine.State.{answer_of, is_busy, is_free};
ghost use Rattle.coap_layer.specs.Machine.Steps.{Steps};
ghost use Rattle.coap_layer.specs.Trace as below;
ghost use Rattle.coap_layer.specs.Machine.Ups.{IsTick};
ghost use Rattle.coap_exchange.specs.declared.answerer.Asked.{Asked as AskedSpec};
ghost use Rattle.coap_exchange.specs.declared.answerer.Due.TheVariants as dues;
ghost use Rattle.coap_exchange.specs.declared.separate.Deferred.{Deferred};
ghost use Rattle.coap_exchange.specs.AnswererSteps.{asking_room, content_with, due_of, failed_by, ready_if};
ghost use Rattle.coap_exchange.specs.AnswererSteps.{separate_of, separate_unless};
ghost use Rattle.coap_exchange.specs.Machine.AnswererShown.{AsksFreely};
ghost use Rattle.coap_exchange.specs.AskerArrivals.{observe};
ghost use Rattle.coap_exchange.specs.Machine.Listed.{listed, listed_before};

use crate::answerer::{Asked, Due, Ended, Response};
use crate::listed::Listed;
use crate::separate::{Separate, found, take_off};
use coap_layer::{Content, Layer, Tick};
use coap_types::option_number::OBSERVE;
use coap_types::{Endpoint, Id, Moment, Opt, Token};
use std::alloc::{AllocError, Allocator};
use std::hash::BuildHasher;

/// Makes room for the response to the deferred request that is ready, if one is, where it can be
/// sent now.
pub(crate) fn make_room<A: Allocator + Copy, S: BuildHasher>(
    layer: &mut Layer<A, S>,
    separate: &mut Vec<Listed<Separate>, A>,
    now: Moment,
    ready: &Option<Asked>,
) -> Result<(), AllocError>
    ensures items { separate.new.items ≡ separate.old.items }
    ensures len { vec_len separate.new ≡ vec_len separate.old }
    ensures capacity { vec_capacity separate.old ≤ vec_capacity separate.new }
    ensures state { layer.new.state ≡ layer.old.state }
    ensures before { layer.new.before ≡ layer.old.before }
    ensures replies { layer.new.replies ≡ layer.old.replies }
    ensures kept { layer.old.has_room ≡ true → layer.new.has_room ≡ true }
    ensures had { layer.old.has_room ≡ true → vec_len separate.old < vec_capacity separate.old → IsOk result }
    ensures room { OnOk result (IfSome ready.now (λ a. AsksFreely layer.new now.0 a.from)) }
    ensures place { OnOk result (IfSome ready.now (λ a.
        answer_of layer.new.state (max layer.new.state.clock now.0) (below.Room a.from) ≡ below.Is true
        → vec_len separate.new < vec_capacity separate.new)) }
    ensures quiet { IfSome ready.now (λ a.
        answer_of layer.old.state (max layer.old.state.clock now.0) (below.Room a.from) ≡ below.Is false)
        → IsOk result }
{
    if let Some(asked) = ready {
        if layer.would_confirm(now, asked.from) {
            separate.reserve(1)?;
            layer.reserve()?;
        }
    }
    Ok(())
}

/// The deferred request that is ready, where no step of the layer is due.
pub(crate) fn unless_due(due: bool, ready: Option<Asked>) -> Option<Asked>
    ensures { result ≡ (if due then None else ready) }
{
    if due { None } else { ready }
}

/// Whether the response to the deferred request that is ready can be sent, for which room was made
/// if it can.
pub(crate) fn is_sendable<A: Allocator + Copy, S: BuildHasher>(
    layer: &mut Layer<A, S>,
    now: Moment,
    ready: &Option<Asked>,
) -> bool
    requires { IfSome ready.now (λ a. AsksFreely layer.old now.0 a.from) }
    ensures steps { (d : Option Deferred) → ready.now ≡ option_map (λ d. d.asked) d
        → Steps layer.old.state (asking_room now.0 d result) layer.new.state }
    ensures before { layer.new.before ≡ layer.old.before }
    ensures room { result ≡ true → layer.new.has_room ≡ true }
    ensures some { result ≡ true → is_some ready.now ≡ true }
    ensures kept { layer.old.has_room ≡ true → layer.new.has_room ≡ true }
    ensures may { result ≡ true
        → IfSome ready.now (λ a.
        answer_of layer.old.state (max layer.old.state.clock now.0) (below.Room a.from) ≡ below.Is true) }
{
    let Some(asked) = ready else {
        return false;
    };
    match layer.room(now, asked.from) {
        Ok(may) => may,
        Err(_) => unreachable!("there is room"),
    }
}

/// The separate response that a failure ends (RFC 7252, section 5.2.2).
pub(crate) fn failed_by(tick: Tick, separate: &[Listed<Separate>]) -> Option<Ended>
    ensures { (answer : below.Answer) → IsTick tick answer → result ≡ failed_by answer (listed separate.now) }
{
    match tick {
        Tick::Expired(to, id) => found(separate, to, id),
        Tick::Idle | Tick::Copied(_) => None,
    }
}

// Takes the separate response off the list that a failure ends.
fn off_where_failed(tick: Tick, separate: &mut [Listed<Separate>])
    ensures now { (answer : below.Answer) → IsTick tick answer
        → listed separate.new ≡ separate_unless answer (listed separate.old) }
    ensures before { listed_before separate.new ≡ listed_before separate.old }
    ensures len { length separate.new ≡ length separate.old }
{
    if let Tick::Expired(to, id) = tick {
        take_off(separate, to, id);
    }
}

/// The same of a vector.
pub(crate) fn unless_failed<A: Allocator + Copy>(
    tick: Tick,
    separate: &mut Vec<Listed<Separate>, A>,
)
    ensures now { (answer : below.Answer) → IsTick tick answer
        → listed separate.new.items ≡ separate_unless answer (listed separate.old.items) }
    ensures before { listed_before separate.new.items ≡ listed_before separate.old.items }
    ensures len { vec_len separate.new ≡ vec_len separate.old }
    ensures capacity { vec_capacity separate.new ≡ vec_capacity separate.old }
{
    off_where_failed(tick, separate);
}

/// What a tick of the layer is to the server.
pub(crate) fn due_of(tick: Tick, ready: Option<Asked>, room: bool) -> Due
    ensures ready { (a : AskedSpec) → result ≡ dues.Ready a → ready ≡ Some a }
    ensures due { (answer : below.Answer) (d : Option Deferred) → IsTick tick answer
        → ready ≡ option_map (λ d. d.asked) (ready_if answer d) → result ≡ due_of answer d room }
{
    match tick {
        Tick::Copied(_) => Due::Copied,
        Tick::Expired(_, _) => Due::Expired,
        Tick::Idle => ready_or_idle(ready, room),
    }
}

// The deferred request that is ready, where there is room for its response.
fn ready_or_idle(ready: Option<Asked>, room: bool) -> Due
    ensures ready { (a : AskedSpec) → result ≡ dues.Ready a → ready ≡ Some a }
    ensures due { (d : Option Deferred) → ready ≡ option_map (λ d. d.asked) d → result ≡ due_of below.Idle d room }
{
    match ready {
        Some(asked) if room => Due::Ready(asked),
        _ => Due::Idle,
    }
}

/// Whether the response carries Observe (RFC 7641, section 3.2).
pub(crate) fn has_observe(options: &[Opt<'_>]) -> bool
    ensures { result ≡ has_number observe (options_of options.now) }
{
    for option in options {
        if option.number == OBSERVE {
            return true;
        }
    }
    false
}

/// What is outstanding of a separate response or a notification that was sent there.
pub(crate) fn separate_of(to: Endpoint, id: Id, token: &Token, response: &Response<'_>) -> Separate
    ensures { result ≡ separate_of to id.0 token.now response.now }
{
    Separate {
        to,
        id,
        token: token.copy(),
        observe: has_observe(response.options),
    }
}

/// Sends the separate response or the notification, for which there is room, and answers its
/// Message ID (RFC 7252, section 5.2.2; RFC 7641, section 4.2).
pub(crate) fn confirm<A: Allocator + Copy, S: BuildHasher>(
    layer: &mut Layer<A, S>,
    now: Moment,
    to: Endpoint,
    token: &Token,
    response: &Response<'_>,
    word: u64,
) -> Id
    requires room { layer.old.has_room ≡ true }
    requires idle { is_busy to layer.old.state.open_cons ≡ false }
    requires free { is_free (max layer.old.state.clock now.0) layer.old.state.upcoming layer.old.state.last_used
        ≡ true }
    requires sendable { IsSendable (content_with token.now response.now) }
    ensures step { layer_state.Step layer.old.state now.0 (below.Confirm to (content_with token.now response.now) word)
        (below.Sent result.0) layer.new.state }
    ensures before { layer.new.before ≡ layer.old.before }
{
    let content = Content {
        code: response.code,
        token,
        options: response.options,
        payload: response.payload,
    };
    match layer.confirm(now, to, &content, word) {
        Ok(id) => id,
        Err(_) => unreachable!("there is room, no other is outstanding and a Message ID is free"),
    }
}

/// Sends the notification in a Non-confirmable message, for which there is room, and answers its
/// Message ID (RFC 7641, section 4.5).
pub(crate) fn plain<A: Allocator + Copy, S: BuildHasher>(
    layer: &mut Layer<A, S>,
    now: Moment,
    to: Endpoint,
    token: &Token,
    response: &Response<'_>,
) -> Id
    requires room { layer.old.has_room ≡ true }
    requires free { is_free (max layer.old.state.clock now.0) layer.old.state.upcoming layer.old.state.last_used
        ≡ true }
    requires sendable { IsSendable (content_with token.now response.now) }
    ensures step { layer_state.Step layer.old.state now.0 (below.Plain to (content_with token.now response.now))
        (below.Sent result.0) layer.new.state }
    ensures before { layer.new.before ≡ layer.old.before }
{
    let content = Content {
        code: response.code,
        token,
        options: response.options,
        payload: response.payload,
    };
    match layer.plain(now, to, &content) {
        Ok(id) => id,
        Err(_) => unreachable!("there is room and a Message ID is free"),
    }
}
