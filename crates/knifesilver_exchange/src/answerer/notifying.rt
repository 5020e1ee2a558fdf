//! Notifications to observers, which the application keeps (RFC 7641, section 4).
ghost use Rattle.std.specs.Prelude.{◌≡◌, ◌≢◌, ◌⊎◌, pos, Some};
ghost use Rattle.knifesilver_exchange.specs.Answers.{IsAnswered, IsRefused, IsUsual};
ghost use Rattle.knifesilver_exchange.specs.Held.{Goes, Holds, HoldsIn, IsIn};
ghost use Rattle.knifesilver_exchange.specs.Notifying.{IsNotified, IsSent, IsUnsent, MayBeNotified};
ghost use Rattle.knifesilver_exchange.specs.Notifying.{RefusesNotification};

use crate::answers::{BAD_ARGUMENT, DONE, NO_MEMORY, NOT_LIVE, NOTHING};
use crate::crossing::{KsAddress, endpoint};
use crate::handle::KsHandle;
use crate::held::Held;
use crate::numbers::notify_number;
use coap_codec::decode;
use coap_exchange::Response;
use coap_options::options_in;
use coap_types::{Endpoint, Moment, Token};
use std::alloc::Global;

// Whether a notification could be sent there.
fn ready(held: &Held, now: u64, to: Endpoint) -> i32
    ensures told { IsAnswered result → IsIn (MayBeNotified result now to) held.now }
    ensures live { Holds (Some held.now) → result ≢ NOT_LIVE }
    ensures why { IsRefused result → result ≡ NOT_LIVE }
{
    match held {
        Held::Answerer(server) => {
            if server.may_notify(Moment(now), to) {
                DONE
            } else {
                NOTHING
            }
        }
        _ => NOT_LIVE,
    }
}

/// Whether a notification could be sent there now: 1, or 0. Nothing changes.
#[unsafe(no_mangle)]
pub extern "C" fn ks_answerer_ready(
    alloc: Global,
    handle: &mut KsHandle,
    now: u64,
    to: &KsAddress,
) -> i32
    // `ready` tells yes exactly where no CON to there is outstanding and a Message ID is free.
    ensures told { IsAnswered result
        → HoldsIn (MayBeNotified result now (record { ip = to.now.ip; port = to.now.port })) handle.old.held }
    // To ask whether one could be sent leaves the very server in the handle.
    ensures kept { handle.new.held ≡ handle.old.held }
    // To ask whether one could be sent is refused for want of a server in the handle, and for nothing else.
    ensures why { IsRefused result → result ≡ NOT_LIVE }
    // `ready` never says of a handle with a server that it holds none.
    ensures live { Holds handle.old.held → result ≢ NOT_LIVE }
{
    let Some(held) = handle.take(alloc) else {
        return NOT_LIVE;
    };
    let answer = ready(held.as_ref(), now, endpoint(to));
    handle.put(held);
    answer
}

// Sends a notification in a Confirmable message.
fn notify(
    held: &mut Held,
    now: u64,
    to: Endpoint,
    token: &Token,
    response: &Response<'_>,
    word: u64,
    id: &mut u16,
) -> i32
    ensures led { result ≡ pos 0
        → Goes (IsSent now to token.now response.now word id.new) (Some held.old) (Some held.new) }
    ensures unsent { IsAnswered result → result ≢ pos 0
        → IsIn (IsUnsent result now to token.now response.now) held.old }
    ensures kept { result ≢ pos 0 → held.new ≡ held.old }
    ensures live { Holds (Some held.old) → result ≢ NOT_LIVE }
    ensures why { IsRefused result → IsUsual result }
{
    match held {
        Held::Answerer(server) => match server.notify(Moment(now), to, token, response, word) {
            Ok(sent) => {
                *id = sent.0;
                NOTHING
            }
            Err(why) => notify_number(why),
        },
        _ => NOT_LIVE,
    }
}

/// Sends a notification in a Confirmable message: the code, the options and the payload of a message, with this token.
#[unsafe(no_mangle)]
pub extern "C" fn ks_answerer_notify(
    alloc: Global,
    handle: &mut KsHandle,
    now: u64,
    to: &KsAddress,
    token: &[u8],
    message: &[u8],
    word: u64,
    id: &mut u16,
) -> i32
    // A notification that is sent makes just two calls of the exchanges: whether it may be sent, and the notification.
    ensures led { result ≡ pos 0
        → Goes (IsNotified now (record { ip = to.now.ip; port = to.now.port }) token.now message.now word id.new)
        handle.old.held handle.new.held }
    // A notification that is refused by a number above 0 is refused for the reason of that number.
    ensures named { IsAnswered result → result ≢ pos 0 → HoldsIn
        (RefusesNotification result now (record { ip = to.now.ip; port = to.now.port }) token.now message.now)
        handle.old.held }
    // A notification that is not sent leaves the very server in the handle.
    ensures kept { result ≢ pos 0 → handle.new.held ≡ handle.old.held }
    // A notification is refused by a number below 0 for a token or a message that is none, for want of memory or of a
    // server in the handle, and for nothing else.
    ensures why { IsRefused result → (result ≡ BAD_ARGUMENT) ⊎ IsUsual result }
    // `notify` never says of a handle with a server that it holds none.
    ensures live { Holds handle.old.held → result ≢ NOT_LIVE }
{
    let Some(token) = Token::new(token) else {
        return BAD_ARGUMENT;
    };
    let Ok(view) = decode(message) else {
        return BAD_ARGUMENT;
    };
    let Ok(options) = options_in(alloc, &view) else {
        return NO_MEMORY;
    };
    let Some(mut held) = handle.take(alloc) else {
        return NOT_LIVE;
    };
    let response = Response {
        code: view.code(),
        options: &options,
        payload: view.payload(),
    };
    let answer = notify(
        held.as_mut(),
        now,
        endpoint(to),
        &token,
        &response,
        word,
        id,
    );
    handle.put(held);
    answer
}
