//! Notifications in Non-confirmable messages (RFC 7641, section 4.5).
ghost use Rattle.std.specs.Prelude.{◌≡◌, ◌≢◌, ◌⊎◌, pos, Some};
ghost use Rattle.knifesilver_exchange.specs.Answers.{IsAnswered, IsRefused, IsUsual};
ghost use Rattle.knifesilver_exchange.specs.Held.{Goes, Holds, HoldsIn, IsIn};
ghost use Rattle.knifesilver_exchange.specs.Notifying.{IsNotifiedPlain, IsSentPlain, IsUnsent, RefusesNotification};

use crate::answers::{BAD_ARGUMENT, NO_MEMORY, NOT_LIVE, NOTHING};
use crate::crossing::{KsAddress, endpoint};
use crate::handle::KsHandle;
use crate::held::Held;
use crate::numbers::notify_number;
use coap_codec::decode;
use coap_exchange::Response;
use coap_options::options_in;
use coap_types::{Endpoint, Moment, Token};
use std::alloc::Global;

// Sends a notification in a Non-confirmable message.
fn notify_plain(
    held: &mut Held,
    now: u64,
    to: Endpoint,
    token: &Token,
    response: &Response<'_>,
    id: &mut u16,
) -> i32
    ensures led { result ≡ pos 0
        → Goes (IsSentPlain now to token.now response.now id.new) (Some held.old) (Some held.new) }
    ensures unsent { IsAnswered result → result ≢ pos 0
        → IsIn (IsUnsent result now to token.now response.now) held.old }
    ensures kept { result ≢ pos 0 → held.new ≡ held.old }
    ensures live { Holds (Some held.old) → result ≢ NOT_LIVE }
    ensures why { IsRefused result → IsUsual result }
{
    match held {
        Held::Answerer(server) => match server.notify_plain(Moment(now), to, token, response) {
            Ok(sent) => {
                *id = sent.0;
                NOTHING
            }
            Err(why) => notify_number(why),
        },
        _ => NOT_LIVE,
    }
}

/// Sends a notification in a Non-confirmable message: the code, the options and the payload of a message, with this
/// token.
#[unsafe(no_mangle)]
pub extern "C" fn ks_answerer_notify_plain(
    alloc: Global,
    handle: &mut KsHandle,
    now: u64,
    to: &KsAddress,
    token: &[u8],
    message: &[u8],
    id: &mut u16,
) -> i32
    // A notification that is sent in a NON makes just two calls of the exchanges: whether it may be sent, and that.
    ensures led { result ≡ pos 0
        → Goes (IsNotifiedPlain now (record { ip = to.now.ip; port = to.now.port }) token.now message.now id.new)
        handle.old.held handle.new.held }
    // A notification in a NON is refused by a number above 0 for the reason of that number.
    ensures named { IsAnswered result → result ≢ pos 0 → HoldsIn
        (RefusesNotification result now (record { ip = to.now.ip; port = to.now.port }) token.now message.now)
        handle.old.held }
    // A notification in a NON that is not sent leaves the very server in the handle.
    ensures kept { result ≢ pos 0 → handle.new.held ≡ handle.old.held }
    // A notification in a NON is refused by a number below 0 for a token or a message that is none, for want of memory
    // or of a server in the handle, and for nothing else.
    ensures why { IsRefused result → (result ≡ BAD_ARGUMENT) ⊎ IsUsual result }
    // `notify_plain` never says of a handle with a server that it holds none.
    ensures live { Holds handle.old.held → result ≢ NOT_LIVE }
{
    let Some(token) = Token::new(token) else {
        return BAD_ARGUMENT;
    };
    let Ok(view) = decode(message) else {
        return BAD_ARGUMENT;
    };
    let Ok(options) = options_in(alloc, &view) else {
        return NO_MEMORY;
    };
    let Some(mut held) = handle.take(alloc) else {
        return NOT_LIVE;
    };
    let response = Response {
        code: view.code(),
        options: &options,
        payload: view.payload(),
    };
    let answer = notify_plain(held.as_mut(), now, endpoint(to), &token, &response, id);
    handle.put(held);
    answer
}
