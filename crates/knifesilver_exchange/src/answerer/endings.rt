//! What a Reset or a failure ended, so that the application drops an observer (RFC 7641, sections 3.6 and 4.5).
ghost use Rattle.std.specs.Prelude.{◌≡◌, ◌≢◌, Some};
ghost use Rattle.knifesilver_exchange.specs.Answers.{IsAnswered, IsRefused};
ghost use Rattle.knifesilver_exchange.specs.Endings.{HasEnded, HasUnmatched};
ghost use Rattle.knifesilver_exchange.specs.Held.{Holds, HoldsIn, IsIn};

use crate::answers::{DONE, NOT_LIVE, NOTHING};
use crate::crossing::{KsAddress, KsToken, address, told_token};
use crate::handle::KsHandle;
use crate::held::Held;
use std::alloc::Global;

// Tells what ended.
fn ended(held: &Held, to: &mut KsAddress, token: &mut KsToken, observe: &mut bool) -> i32
    ensures told { IsAnswered result → IsIn (HasEnded result to.new token.new observe.new) held.now }
    ensures live { Holds (Some held.now) → result ≢ NOT_LIVE }
    ensures why { IsRefused result → result ≡ NOT_LIVE }
{
    match held {
        Held::Answerer(server) => match server.ended() {
            Some(ended) => {
                *to = address(ended.to);
                *token = told_token(&ended.token);
                *observe = ended.observe;
                DONE
            }
            None => NOTHING,
        },
        _ => NOT_LIVE,
    }
}

/// Tells the late answer or the notification that a Reset or a failure ended in the last feed or tick: 1 with where it
/// went, its token and whether it carried Observe, or 0. Nothing changes.
#[unsafe(no_mangle)]
pub extern "C" fn ks_answerer_ended(
    alloc: Global,
    handle: &mut KsHandle,
    to: &mut KsAddress,
    token: &mut KsToken,
    observe: &mut bool,
) -> i32
    // What is told to have ended is what the last feed or tick ended; where nothing is told, that ended nothing.
    ensures told { IsAnswered result → HoldsIn (HasEnded result to.new token.new observe.new) handle.old.held }
    // To ask what ended leaves the very server in the handle.
    ensures kept { handle.new.held ≡ handle.old.held }
    // To ask what ended is refused for want of a server in the handle, and for nothing else.
    ensures why { IsRefused result → result ≡ NOT_LIVE }
    // `ended` never says of a handle with a server that it holds none.
    ensures live { Holds handle.old.held → result ≢ NOT_LIVE }
{
    let Some(held) = handle.take(alloc) else {
        return NOT_LIVE;
    };
    let answer = ended(held.as_ref(), to, token, observe);
    handle.put(held);
    answer
}

// Tells the Reset that was of nothing outstanding.
fn unmatched(held: &Held, from: &mut KsAddress, id: &mut u16) -> i32
    ensures told { IsAnswered result → IsIn (HasUnmatched result from.new id.new) held.now }
    ensures live { Holds (Some held.now) → result ≢ NOT_LIVE }
    ensures why { IsRefused result → result ≡ NOT_LIVE }
{
    match held {
        Held::Answerer(server) => match server.unmatched() {
            Some((endpoint, reset)) => {
                *from = address(endpoint);
                *id = reset.0;
                DONE
            }
            None => NOTHING,
        },
        _ => NOT_LIVE,
    }
}

/// Tells the Reset that the last feed took, where it is of no message that is outstanding, as of a Non-confirmable one:
/// 1 with where it came from and its Message ID, or 0. Nothing changes.
#[unsafe(no_mangle)]
pub extern "C" fn ks_answerer_unmatched(
    alloc: Global,
    handle: &mut KsHandle,
    from: &mut KsAddress,
    id: &mut u16,
) -> i32
    // The Reset that is told is the one of nothing outstanding that the last feed took; where none is told, it took
    // none.
    ensures told { IsAnswered result → HoldsIn (HasUnmatched result from.new id.new) handle.old.held }
    // To ask for a Reset leaves the very server in the handle.
    ensures kept { handle.new.held ≡ handle.old.held }
    // To ask for a Reset is refused for want of a server in the handle, and for nothing else.
    ensures why { IsRefused result → result ≡ NOT_LIVE }
    // `unmatched` never says of a handle with a server that it holds none.
    ensures live { Holds handle.old.held → result ≢ NOT_LIVE }
{
    let Some(held) = handle.take(alloc) else {
        return NOT_LIVE;
    };
    let answer = unmatched(held.as_ref(), from, id);
    handle.put(held);
    answer
}
