//! The answer to a request: at once, or when it is ready.
ghost use Rattle.std.specs.Prelude.{◌≡◌, ◌≢◌, ◌⊎◌, ℕ, pos, true, false, Some};
ghost use Rattle.coap_layer.specs.Trace as below;
ghost use Rattle.coap_exchange.specs.AnswererTrace.{Answers, Defers, Responds};
ghost use Rattle.coap_handlers.specs.Refusals.{IsAnswerRefused, IsDeferRefused, IsRespondRefused};
ghost use Rattle.knifesilver_exchange.specs.Answers.{IsNamed, IsRefused, IsUsual};
ghost use Rattle.knifesilver_exchange.specs.Calls.{IsAnswer, IsDefer, IsRespond};
ghost use Rattle.knifesilver_exchange.specs.Calls.{RefusesAnswer, RefusesDefer, RefusesRespond};
ghost use Rattle.knifesilver_exchange.specs.Held.{Holds, IsNamedFor, Made};

use crate::answers::{BAD_ARGUMENT, NO_MEMORY, NOT_LIVE, NOTHING};
use crate::crossing::{KsAsked, asked_in};
use crate::handle::KsHandle;
use crate::held::Held;
use crate::numbers::answer_number;
use coap_codec::decode;
use coap_exchange::{Asked, Response};
use coap_options::options_in;
use coap_types::Moment;
use std::alloc::Global;

// Sends an answer.
fn answer(held: &mut Held, asked: &Asked, response: &Response<'_>) -> i32
    ensures led { result ≡ pos 0 → Made (λ call. (sent : below.Answer) × (call ≡ Answers asked.now response.now sent))
        (Some held.old) (Some held.new) }
    ensures named { IsNamed result
        → IsNamedFor result (λ why s. IsAnswerRefused why s asked.now response.now) (Some held.old) }
    ensures kept { result ≢ pos 0 → held.new ≡ held.old }
    ensures live { Holds (Some held.old) → result ≢ NOT_LIVE }
    ensures why { IsRefused result → result ≡ NOT_LIVE }
{
    match held {
        Held::Answerer(server) => match server.answer(asked, response) {
            Ok(()) => NOTHING,
            Err(why) => answer_number(why),
        },
        _ => NOT_LIVE,
    }
}

/// Sends the answer to the request that the last feed told: the code, the options and the payload of a message.
#[unsafe(no_mangle)]
pub extern "C" fn ks_answerer_answer(
    alloc: Global,
    handle: &mut KsHandle,
    asked: &KsAsked,
    message: &[u8],
) -> i32
    // An answer that is sent makes just that call of the exchanges, for the request that is told, as the message says.
    ensures led { result ≡ pos 0 → Made (IsAnswer asked.now message.now) handle.old.held handle.new.held }
    // An answer that is refused by a number above 0 is refused for the reason of that number.
    ensures named { IsNamed result → IsNamedFor result (RefusesAnswer asked.now message.now) handle.old.held }
    // An answer that is not sent leaves the very server in the handle.
    ensures kept { result ≢ pos 0 → handle.new.held ≡ handle.old.held }
    // An answer is refused by a number below 0 for a request or a message that is none, for want of memory or of a
    // server in the handle, and for nothing else.
    ensures why { IsRefused result → (result ≡ BAD_ARGUMENT) ⊎ IsUsual result }
    // `answer` never says of a handle with a server that it holds none.
    ensures live { Holds handle.old.held → result ≢ NOT_LIVE }
{
    let Some(asked) = asked_in(asked) else {
        return BAD_ARGUMENT;
    };
    let Ok(view) = decode(message) else {
        return BAD_ARGUMENT;
    };
    let Ok(options) = options_in(alloc, &view) else {
        return NO_MEMORY;
    };
    let Some(mut held) = handle.take(alloc) else {
        return NOT_LIVE;
    };
    let response = Response {
        code: view.code(),
        options: &options,
        payload: view.payload(),
    };
    let answer = answer(held.as_mut(), &asked, &response);
    handle.put(held);
    answer
}

// Defers a request.
fn defer(held: &mut Held, now: u64, asked: &Asked, delay_ms: u64) -> i32
    ensures led { result ≡ pos 0 → Made (λ call. call ≡ Defers now asked.now delay_ms true) (Some held.old)
        (Some held.new) }
    ensures full { result ≡ pos 114
        → Made (λ call. call ≡ Defers now asked.now delay_ms false) (Some held.old) (Some held.new) }
    ensures named { IsNamed result → IsNamedFor result (λ why s. IsDeferRefused why s asked.now) (Some held.old) }
    ensures kept { result ≢ pos 0 → result ≢ pos 114 → held.new ≡ held.old }
    ensures live { Holds (Some held.old) → result ≢ NOT_LIVE }
    ensures why { IsRefused result → result ≡ NOT_LIVE }
{
    match held {
        Held::Answerer(server) => match server.defer(Moment(now), asked, delay_ms) {
            Ok(()) => NOTHING,
            Err(why) => answer_number(why),
        },
        _ => NOT_LIVE,
    }
}

/// Acknowledges the request that the last feed told, and has a tick call it ready in so many milliseconds.
#[unsafe(no_mangle)]
pub extern "C" fn ks_answerer_defer(
    alloc: Global,
    handle: &mut KsHandle,
    now: u64,
    asked: &KsAsked,
    delay_ms: u64,
) -> i32
    // A deferral makes just that call of the exchanges, for the request that is told.
    ensures led { result ≡ pos 0 → Made (IsDefer now asked.now delay_ms true) handle.old.held handle.new.held }
    // Where too many are deferred, the exchanges are asked to defer it, and say no.
    ensures full { result ≡ pos 114 → Made (IsDefer now asked.now delay_ms false) handle.old.held handle.new.held }
    // A deferral that is refused by a number above 0 is refused for the reason of that number.
    ensures named { IsNamed result → IsNamedFor result (RefusesDefer asked.now) handle.old.held }
    // A deferral that is refused otherwise leaves the very server in the handle.
    ensures kept { result ≢ pos 0 → result ≢ pos 114 → handle.new.held ≡ handle.old.held }
    // A deferral is refused by a number below 0 for a request that is none or for want of a server in the handle, and
    // for nothing else.
    ensures why { IsRefused result → (result ≡ BAD_ARGUMENT) ⊎ (result ≡ NOT_LIVE) }
    // `defer` never says of a handle with a server that it holds none.
    ensures live { Holds handle.old.held → result ≢ NOT_LIVE }
{
    let Some(asked) = asked_in(asked) else {
        return BAD_ARGUMENT;
    };
    let Some(mut held) = handle.take(alloc) else {
        return NOT_LIVE;
    };
    let answer = defer(held.as_mut(), now, &asked, delay_ms);
    handle.put(held);
    answer
}

// Sends the answer to a deferred request.
fn respond(held: &mut Held, asked: &Asked, response: &Response<'_>, word: u64) -> i32
    ensures led { result ≡ pos 0
        → Made (λ call. (now : ℕ) × (id : ℕ) × (call ≡ Responds now asked.now response.now word id))
        (Some held.old) (Some held.new) }
    ensures named { IsNamed result
        → IsNamedFor result (λ why s. IsRespondRefused why s asked.now response.now) (Some held.old) }
    ensures kept { result ≢ pos 0 → held.new ≡ held.old }
    ensures live { Holds (Some held.old) → result ≢ NOT_LIVE }
    ensures why { IsRefused result → result ≡ NOT_LIVE }
{
    match held {
        Held::Answerer(server) => match server.respond(asked, response, word) {
            Ok(_) => NOTHING,
            Err(why) => answer_number(why),
        },
        _ => NOT_LIVE,
    }
}

/// Sends the answer to the deferred request that the last tick called ready: the code, the options and the payload of a
/// message.
#[unsafe(no_mangle)]
pub extern "C" fn ks_answerer_respond(
    alloc: Global,
    handle: &mut KsHandle,
    asked: &KsAsked,
    message: &[u8],
    word: u64,
) -> i32
    // An answer to a deferred request makes just that call of the exchanges, for the request that is told, as the
    // message says.
    ensures led { result ≡ pos 0 → Made (IsRespond asked.now message.now word) handle.old.held handle.new.held }
    // An answer to a deferred request that is refused by a number above 0 is refused for the reason of that number.
    ensures named { IsNamed result → IsNamedFor result (RefusesRespond asked.now message.now) handle.old.held }
    // An answer to a deferred request that is not sent leaves the very server in the handle.
    ensures kept { result ≢ pos 0 → handle.new.held ≡ handle.old.held }
    // An answer to a deferred request is refused by a number below 0 for a request or a message that is none, for want
    // of memory or of a server in the handle, and for nothing else.
    ensures why { IsRefused result → (result ≡ BAD_ARGUMENT) ⊎ IsUsual result }
    // `respond` never says of a handle with a server that it holds none.
    ensures live { Holds handle.old.held → result ≢ NOT_LIVE }
{
    let Some(asked) = asked_in(asked) else {
        return BAD_ARGUMENT;
    };
    let Ok(view) = decode(message) else {
        return BAD_ARGUMENT;
    };
    let Ok(options) = options_in(alloc, &view) else {
        return NO_MEMORY;
    };
    let Some(mut held) = handle.take(alloc) else {
        return NOT_LIVE;
    };
    let response = Response {
        code: view.code(),
        options: &options,
        payload: view.payload(),
    };
    let answer = respond(held.as_mut(), &asked, &response, word);
    handle.put(held);
    answer
}
