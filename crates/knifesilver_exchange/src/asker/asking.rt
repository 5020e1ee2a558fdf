//! A request is asked.
ghost use Rattle.std.specs.Prelude.{◌≡◌, ◌≢◌, ◌⊎◌, pos, Some};
ghost use Rattle.coap_exchange.specs.Machine.AskerShown.{IsAskable};
ghost use Rattle.knifesilver_exchange.specs.Answers.{IsAnswered, IsRefused, IsUsual};
ghost use Rattle.knifesilver_exchange.specs.AskerHeld.{AskerMade, HoldsAsker, brought};
ghost use Rattle.knifesilver_exchange.specs.Asking.{Asks, IsAsk, SaysNoRequest, cancelled};

use crate::answers::{BAD_ARGUMENT, NO_MEMORY, NOT_LIVE, NOTHING};
use crate::crossing::{KsToken, told_token};
use crate::handle::KsHandle;
use crate::held::Held;
use crate::numbers::{ASK_BAD_REQUEST, ask_number};
use coap_codec::{View, decode};
use coap_exchange::Ask;
use coap_handlers::is_request;
use coap_options::options_in;
use coap_types::{Method, Moment, Token};
use std::alloc::Global;

// The token of the observation that a message cancels.
fn cancelled(message: &View<'_>) -> Option<Token>
    ensures { result ≡ cancelled message.now.token }
{
    let token = message.token();
    if token.is_empty() {
        None
    } else {
        Token::new(token)
    }
}

// Sends a request.
fn ask(held: &mut Held, now: u64, ask: &Ask<'_>, word: u64, token: &mut KsToken) -> i32
    requires { IsAskable ask.now }
    ensures led { IsAnswered result
        → AskerMade (IsAsk now ask.now word result token.new) (Some held.old) (Some held.new) }
    ensures kept { IsRefused result → held.new ≡ held.old }
    ensures beside { brought (Some held.new) ≡ brought (Some held.old) }
    ensures other { result ≢ pos 123 }
    ensures live { HoldsAsker (Some held.old) → result ≢ NOT_LIVE }
    ensures why { IsRefused result → IsUsual result }
{
    match held {
        Held::Asker(client) => match client.asker.ask(Moment(now), ask, word) {
            Ok(given) => {
                *token = told_token(&given);
                NOTHING
            }
            Err(why) => ask_number(why),
        },
        _ => NOT_LIVE,
    }
}

/// Sends a request: the code, the options and the payload of a message; with its token, where it has one, as the cancel
/// of the observation that has that token.
#[unsafe(no_mangle)]
pub extern "C" fn ks_asker_ask(
    alloc: Global,
    handle: &mut KsHandle,
    now: u64,
    message: &[u8],
    word: u64,
    token: &mut KsToken,
) -> i32
    // A request that is asked, or refused by a number above 0, makes just that call of the exchanges, as the message
    // says; and what it answered is told.
    ensures led { IsAnswered result → result ≢ pos 123
        → AskerMade (Asks now message.now word result token.new) handle.old.held handle.new.held }
    // A message is no request where its code is that of no method, or where it is too long with a token of 8 bytes.
    ensures bad { result ≡ pos 123 → SaysNoRequest message.now }
    // Where a message is no request, or is refused by a number below 0, the handle holds the very client that it held.
    ensures kept { IsRefused result ⊎ (result ≡ pos 123) → handle.new.held ≡ handle.old.held }
    // To ask leaves what the last feed or tick brought.
    ensures beside { brought handle.new.held ≡ brought handle.old.held }
    // A request is refused by a number below 0 for a message that is none, for want of memory or of a client in the
    // handle, and for nothing else.
    ensures why { IsRefused result → (result ≡ BAD_ARGUMENT) ⊎ IsUsual result }
    // `ask` never says of a handle with an asker that it holds none.
    ensures live { HoldsAsker handle.old.held → result ≢ NOT_LIVE }
{
    let Ok(view) = decode(message) else {
        return BAD_ARGUMENT;
    };
    let Some(method) = Method::of(view.code()) else {
        return ASK_BAD_REQUEST;
    };
    let Ok(options) = options_in(alloc, &view) else {
        return NO_MEMORY;
    };
    let cancelled = cancelled(&view);
    let request = Ask {
        method,
        token: cancelled.as_ref(),
        options: &options,
        payload: view.payload(),
    };
    if !is_request(&request) {
        return ASK_BAD_REQUEST;
    }
    let Some(mut held) = handle.take(alloc) else {
        return NOT_LIVE;
    };
    let answer = ask(held.as_mut(), now, &request, word, token);
    handle.put(held);
    answer
}
